//! Lists, item by item.
ghost use Rattle.std.specs.Prelude.{◌≡◌, ℕ, OnOk, map};
ghost use Rattle.wast_parser.specs.Identifiers.{Reference, index_tree};
ghost use Rattle.wast_grammar.specs.Tokens.{Name};
ghost use Rattle.wast_meaning.specs.Views.{space_view};

use crate::changing::Changing;
use std::alloc::AllocError;
use wast_meaning::Space;
use wast_parser::Index;

/// What becomes of each item of a list.
pub trait Each<T> {
    /// What contracts see of an item.
    ghost Tree: { Type 0 };

    ghost tree: { T → Tree };

    /// What becomes of it.
    ghost turned: { Self → Tree → Tree };

    /// Makes of an item what becomes of it.
    fn turn(&self, item: &mut T)
        ensures { tree item.new ≡ turned self.now (tree item.old) };
}

/// What becomes of each item of a list, where memory may be wanted.
pub trait TryEach<T> {
    /// What contracts see of an item.
    ghost Tree: { Type 0 };

    ghost tree: { T → Tree };

    /// What becomes of it.
    ghost turned: { Self → Tree → Tree };

    /// Makes of an item what becomes of it. Fails only for want of memory.
    fn try_turn(&self, item: &mut T) -> Result<(), AllocError>
        ensures { OnOk result (tree item.new ≡ turned self.now (tree item.old)) };
}

/// A list, item by item.
pub fn turn_list<T, E: Each<T>>(each: &E, items: &mut [T])
    ensures { map E.tree items.new ≡ map (E.turned each.now) (map E.tree items.old) }
{
    for item in items.iter_mut() {
        each.turn(item);
    }
}

/// The same where memory may be wanted. Fails only for that; some items may be changed then.
pub fn try_turn_list<T, E: TryEach<T>>(each: &E, items: &mut [T]) -> Result<(), AllocError>
    ensures { OnOk result (map E.tree items.new ≡ map (E.turned each.now) (map E.tree items.old)) }
{
    for item in items.iter_mut() {
        each.try_turn(item)?;
    }
    Ok(())
}

/// Trees with what becomes of their indices.
#[derive(Drop)]
pub struct ByChange<'c, C> {
    pub change: &'c C,
}

/// Indices of one space, one by one.
pub fn change_indices<'a, C: Changing<'a>>(change: &C, space: Space, indices: &mut [Index<'a>])
    ensures { map index_tree indices.new ≡ map ((C.change change.now).index (space_view space)) (map index_tree indices.old) }
{
    turn_list(&OfSpace { change, space }, indices);
}

/// Indices of a space with what becomes of them.
#[derive(Drop)]
struct OfSpace<'c, C> {
    change: &'c C,
    space: Space,
}

impl<'a, C: Changing<'a>> Each<Index<'a>> for OfSpace<'_, C> {
    ghost Tree = { Reference Name ℕ };

    ghost tree = { index_tree };

    ghost turned = { λ o. (C.change o.change.now).index (space_view o.space) };

    fn turn(&self, item: &mut Index<'a>) {
        self.change.index(self.space, item);
    }
}

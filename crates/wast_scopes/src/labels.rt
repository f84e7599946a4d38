//! Labels.
ghost use Rattle.std.specs.Prelude.{◌≡◌, ◌<◌, ◌≤◌, ◌-◌, ◌∷◌, [], List, ℕ, Option, true, if◌then◌else◌, drop, map, option_map, option_and_then, is_some, IfOk, OnOk, OnErr, Some, None};
ghost use Rattle.wast_grammar.specs.Tokens.{Name};
ghost use Rattle.wast_grammar.specs.Spelling.{same_name};
ghost use Rattle.wast_parser.specs.Identifier.{Identifier};
ghost use Rattle.wast_parser.specs.Identifiers.{identifier_tree, index_tree};
ghost use Rattle.wast_names.specs.Position.{bears, position};
ghost use Rattle.wast_names.specs.Space.{name_in, number_of};
ghost use Rattle.wast_meaning.specs.Demands.{is_own};
ghost use Rattle.wast_meaning.specs.Spaces.{listed};
ghost use Rattle.wast_scopes.specs.Open.{level_in};

use crate::block::OpenBlock;
use std::alloc::{AllocError, Global};
use std::collections::BTreeMap;
use std::marker::Model;
use wast_names::{copied_id, is_borne};
use wast_parser::{Id, Index};

/// The labels of the blocks that are open at a place (6.5, labels and control instructions). Contracts see a list of them, the innermost
/// first.
///
/// A name means the innermost open block that bears it, by the number of blocks that are open inside that. A look-up takes the time of
/// one in an ordered map, however many blocks are open.
#[derive(Drop)]
pub struct Labels<'a> {
    alloc: Global,
    /// The open blocks, the outermost first.
    blocks: Vec<OpenBlock<'a>>,
    /// Of each name the level of the innermost block that bears it: how many are open outside that.
    levels: BTreeMap<Id<'a>, u32>,
}

impl<'a> Model for Labels<'a> {
    ghost use Rattle.std.specs.Prelude.{ℕ, List, Option, reverse};
    ghost use Rattle.wast_grammar.specs.Tokens.{Name};
    ghost use Rattle.wast_parser.specs.Identifiers.{Named};
    ghost use Rattle.wast_scopes.specs.Open.{IsKept, labels_of};

    ghost Value = { List (Option (Named Name ℕ)) };

    ghost view = { λ l. labels_of (reverse l.blocks.items) };

    ghost invariant = { λ l. IsKept (reverse l.blocks.items) l.levels };
}

impl<'a> Labels<'a> {
    /// Those of no blocks.
    pub fn new(alloc: Global) -> Self
        ensures { result ≡ [] }
    {
        Labels {
            alloc,
            blocks: Vec::new(alloc),
            levels: BTreeMap::new(alloc),
        }
    }

    /// One more block is open, with this label or none. Fails only where no memory is found, or 4294967295 blocks are open; nothing
    /// changes then.
    pub fn open(&mut self, label: &Option<Id<'a>>) -> Result<(), AllocError>
        ensures opened { OnOk result (self.new ≡ option_map identifier_tree label.now ∷ self.old) }
        ensures refused { OnErr result (self.new ≡ self.old) }
    {
        let level = match u32::try_from(self.blocks.len()) {
            Ok(level) if level < u32::MAX => level,
            _ => return Err(AllocError),
        };
        let block = open_block(self.alloc, &self.levels, label)?;
        let key = copied_id(self.alloc, label)?;
        self.blocks.push(block)?;
        match enter(&mut self.levels, key, level) {
            Ok(()) => Ok(()),
            Err(e) => {
                let _ = self.blocks.pop();
                Err(e)
            }
        }
    }

    /// The innermost block is open no more. Where none is, nothing is done.
    pub fn close(&mut self)
        ensures { self.new ≡ drop 1 self.old }
    {
        if let Some(block) = self.blocks.pop() {
            leave(&mut self.levels, block);
        }
    }

    /// Whether a name is that of the innermost block; where no block is open, any is.
    pub fn repeats(&self, id: &Id<'a>) -> bool
        ensures { result ≡ is_own same_name (identifier_tree id.now).0 self.now }
    {
        match self.blocks.last() {
            Some(block) => is_borne(&block.label, id),
            None => true,
        }
    }

    /// The number of the innermost block that bears a name, if one does: how many are open inside that.
    pub fn get(&self, id: &Id<'a>) -> Option<u32>
        ensures { result ≡ position same_name (identifier_tree id.now).0 (map name_in self.now) }
    {
        match self.levels.get(id) {
            Some(level) => Some(inside(self.blocks.len(), *level)),
            None => None,
        }
    }

    /// The number that an index means: itself, or that of its name, if it means one.
    pub fn number_of(&self, index: &Index<'a>) -> Option<u32>
        ensures { result ≡ number_of (listed same_name self.now) (index_tree index.now) }
    {
        match index {
            Index::Num(number, _) => Some(*number),
            Index::Id(id) => self.get(id),
        }
    }
}

/// How many of the open blocks are inside the one of a level.
fn inside(blocks: usize, level: u32) -> u32
    requires of_one { level < blocks }
    requires few { blocks ≤ 4294967295 }
    ensures { result ≡ blocks - 1 - level }
{
    blocks as u32 - 1 - level
}

/// A block with this label, which keeps the level that the name has outside it.
fn open_block<'a>(
    alloc: Global,
    levels: &BTreeMap<Id<'a>, u32>,
    label: &Option<Id<'a>>,
) -> Result<OpenBlock<'a>, AllocError>
    ensures label { IfOk result (λ block. block.label ≡ label.now) }
    ensures outer { IfOk result (λ block. block.outer ≡ option_and_then (level_in levels.now) (name_in (option_map identifier_tree label.now))) }
{
    let outer = match label {
        Some(id) => levels.get(id).copied(),
        None => None,
    };
    let label = copied_id(alloc, label)?;
    Ok(OpenBlock { label, outer })
}

/// The name of a block that is opened has this level from now on.
fn enter<'a>(
    levels: &mut BTreeMap<Id<'a>, u32>,
    label: Option<Id<'a>>,
    level: u32,
) -> Result<(), AllocError>
    ensures entered { OnOk result ((n : Name) → level_in levels.new n ≡ (if bears same_name n (name_in (option_map identifier_tree label.entry)) then Some level else level_in levels.old n)) }
    ensures refused { OnErr result ((n : Name) → level_in levels.new n ≡ level_in levels.old n) }
{
    if let Some(id) = label {
        levels.insert(id, level)?;
    }
    Ok(())
}

/// The name of a block that is closed has the level again that it has outside it.
fn leave<'a>(levels: &mut BTreeMap<Id<'a>, u32>, block: OpenBlock<'a>)
    requires { (id : Identifier) → block.label ≡ Some id → is_some (level_in levels.old (identifier_tree id).0) ≡ true }
    ensures { (n : Name) → level_in levels.new n ≡ (if bears same_name n (name_in (option_map identifier_tree block.entry.label)) then block.entry.outer else level_in levels.old n) }
{
    match (block.label, block.outer) {
        // The name is there, so that this wants no memory.
        (Some(id), Some(level)) => {
            let _ = levels.insert(id, level);
        }
        (Some(id), None) => {
            let _ = levels.remove(&id);
        }
        (None, _) => {}
    }
}

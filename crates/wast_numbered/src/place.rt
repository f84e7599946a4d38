//! What indices mean, outside of instructions and at each.
ghost use Rattle.std.specs.Prelude.{◌≡◌, Some, None, option_map, replicate};
ghost use Rattle.wasm_encoder_base.specs.Table.{Types};
ghost use Rattle.wast_grammar.specs.Tokens.{Name};
ghost use Rattle.wast_parser.specs.Identifiers.{identifier_tree, index_tree};
ghost use Rattle.wast_names.specs.Space as names;
ghost use Rattle.wast_names.specs.Space.{number_of, resolved};
ghost use Rattle.wast_meaning.specs.Numbered.{numbering};
ghost use Rattle.wast_meaning.specs.Scope.{params_of_index};
ghost use Rattle.wast_meaning.specs.Views.{space_view};
ghost use Rattle.wast_spaces.specs.Views.{spaces_of};
ghost use Rattle.wast_numbered.specs.Place.{fields_in, members_in, scope, scope_here};

use std::alloc::AllocError;
use wast_changed::Changing;
use wast_meaning::Space;
use wast_names::Namespace;
use wast_parser::{Id, Index};
use wast_scopes::Labels;
use wast_signatures::FunctionType;
use wast_spaces::{Spaces, count_at};

/// What indices outside of instructions mean: the index spaces of the module, and how many parameters each type has.
#[derive(Drop)]
pub struct Numbering<'s, 'a> {
    pub spaces: &'s Spaces<'a>,
    /// Of each type, in order; one that is no function type has none.
    pub params: &'s [usize],
}

/// What indices mean at an instruction: the index spaces of the module, the locals, and the labels of the blocks that are open.
#[derive(Drop)]
pub(crate) struct Place<'s, 'a> {
    pub(crate) spaces: &'s Spaces<'a>,
    pub(crate) locals: &'s Namespace<'a>,
    pub(crate) labels: &'s Labels<'a>,
}

impl<'a> Place<'_, 'a> {
    /// The number that an index of a space means, if it means one.
    fn number_of(&self, space: Space, index: &Index<'a>) -> Option<u32>
        ensures { result ≡ number_of ((scope_here self.now).spaces (space_view space)) (index_tree index.now) }
    {
        match space {
            Space::Labels => self.labels.number_of(index),
            Space::Locals => self.locals.number_of(index),
            Space::Functions
            | Space::Types
            | Space::Tables
            | Space::Memories
            | Space::Globals
            | Space::Tags
            | Space::Datas
            | Space::Elems
            | Space::Fields => self.spaces.space(space).number_of(index),
        }
    }
}

impl<'a> Changing<'a> for Numbering<'_, 'a> {
    ghost change = { λ n. numbering (scope n) };

    fn index(&self, space: Space, index: &mut Index<'a>) {
        put_number(self.spaces.space(space).number_of(index), index);
    }

    fn member(&self, owner: &Index<'a>, field: &mut Index<'a>) {
        put_number(member_number(self.spaces, owner, field), field);
    }

    fn type_use(
        &self,
        index: &mut Option<Index<'a>>,
        _inline: Option<&FunctionType<'a>>,
    ) -> Result<(), AllocError> {
        number_type(self.spaces, index);
        Ok(())
    }

    fn block_use(
        &self,
        index: &mut Option<Index<'a>>,
        _inline: Option<&FunctionType<'a>>,
    ) -> Result<(), AllocError> {
        number_type(self.spaces, index);
        Ok(())
    }
}

impl<'a> Changing<'a> for Place<'_, 'a> {
    ghost change = { λ p. numbering (scope_here p) };

    fn index(&self, space: Space, index: &mut Index<'a>) {
        put_number(self.number_of(space, index), index);
    }

    fn member(&self, owner: &Index<'a>, field: &mut Index<'a>) {
        put_number(member_number(self.spaces, owner, field), field);
    }

    fn type_use(
        &self,
        index: &mut Option<Index<'a>>,
        _inline: Option<&FunctionType<'a>>,
    ) -> Result<(), AllocError> {
        number_type(self.spaces, index);
        Ok(())
    }

    fn block_use(
        &self,
        index: &mut Option<Index<'a>>,
        _inline: Option<&FunctionType<'a>>,
    ) -> Result<(), AllocError> {
        number_type(self.spaces, index);
        Ok(())
    }
}

/// Puts the number that an index means in its place; one that means none is left.
fn put_number<'a>(number: Option<u32>, index: &mut Index<'a>)
    ensures { (s : names.Space Name) → number ≡ number_of s (index_tree index.old) → index_tree index.new ≡ resolved s (index_tree index.old) }
{
    if let Some(number) = number {
        *index = Index::Num(number, index.span());
    }
}

/// The number of a field of the struct type that an index names, if there is one.
fn member_number<'a>(spaces: &Spaces<'a>, owner: &Index<'a>, field: &Index<'a>) -> Option<u32>
    ensures { result ≡ number_of (members_in spaces.now (index_tree owner.now)) (index_tree field.now) }
{
    match field {
        Index::Num(number, _) => Some(*number),
        Index::Id(id) => match spaces.space(Space::Types).number_of(owner) {
            Some(owner) => named_field(spaces, owner, id),
            None => None,
        },
    }
}

/// The number of a field of the type with a number, if there is one of this name.
fn named_field<'a>(spaces: &Spaces<'a>, owner: u32, id: &Id<'a>) -> Option<u32>
    ensures { result ≡ (fields_in spaces.now owner).look (identifier_tree id.now).0 }
{
    match spaces.fields_of(owner) {
        Some(names) => names.get(id),
        None => None,
    }
}

/// Puts the number that it means in the place of the index of a type use, where there is one.
fn number_type<'a>(spaces: &Spaces<'a>, index: &mut Option<Index<'a>>)
    ensures { option_map index_tree index.new ≡ option_map (resolved (spaces_of spaces.now Types)) (option_map index_tree index.old) }
{
    if let Some(index) = index {
        put_number(spaces.space(Space::Types).number_of(index), index);
    }
}

impl<'a> Numbering<'_, 'a> {
    /// How many parameters the type that an index names has.
    pub(crate) fn param_count(&self, index: &Index<'a>) -> usize
        ensures { replicate result None ≡ params_of_index (scope self.now) (Some (index_tree index.now)) }
    {
        match self.spaces.space(Space::Types).number_of(index) {
            Some(number) => count_at(self.params, number),
            None => 0,
        }
    }
}

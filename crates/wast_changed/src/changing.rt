//! What becomes of each index.
ghost use Rattle.std.specs.Prelude.{◌≡◌, ℕ, None, true, OnOk, IsOk, is_some, option_map};
ghost use Rattle.wast_grammar.specs.Tokens.{Name};
ghost use Rattle.wast_parser.specs.Identifiers.{index_tree};
ghost use Rattle.wast_signatures.specs.SignatureViews.{sig_tree};
ghost use Rattle.wast_meaning.specs.Changed.{Change};
ghost use Rattle.wast_meaning.specs.Views.{space_view};

use std::alloc::AllocError;
use wast_meaning::Space;
use wast_parser::Index;
use wast_signatures::FunctionType;

/// What becomes of each index, wherever one stands. Each call puts it in the index's place.
pub trait Changing<'a> {
    /// The same, as it is defined.
    ghost change: { Self → Change Name ℕ };

    /// An index of a space.
    fn index(&self, space: Space, index: &mut Index<'a>)
        ensures { index_tree index.new ≡ (change self.now).index (space_view space) (index_tree index.old) };

    /// The index of a field, behind that of the struct type that has it (6.5, aggregate instructions).
    fn member(&self, owner: &Index<'a>, field: &mut Index<'a>)
        ensures { index_tree field.new ≡ (change self.now).member (index_tree owner.now) (index_tree field.old) };

    /// The index of a type use (6.6, type uses), beside the signature that is written with it. Fails only for want of memory, of which none is
    /// asked for where an index is given.
    fn type_use(
        &self,
        index: &mut Option<Index<'a>>,
        inline: Option<&FunctionType<'a>>,
    ) -> Result<(), AllocError>
        ensures changed { OnOk result (option_map index_tree index.new ≡ (change self.now).type_use (record { index = option_map index_tree index.old; inline = option_map (λ s. sig_tree s.now) inline.entry })) }
        ensures given { is_some index.old ≡ true → IsOk result };

    /// The same in a block (6.5, control instructions); nor is memory asked for where no signature is written.
    fn block_use(
        &self,
        index: &mut Option<Index<'a>>,
        inline: Option<&FunctionType<'a>>,
    ) -> Result<(), AllocError>
        ensures changed { OnOk result (option_map index_tree index.new ≡ (change self.now).block_use (record { index = option_map index_tree index.old; inline = option_map (λ s. sig_tree s.now) inline.entry })) }
        ensures given { is_some index.old ≡ true → IsOk result }
        ensures bare { inline.entry ≡ None → IsOk result };
}

/// The index of a space, where there is one.
pub fn change_optional<'a, C: Changing<'a>>(change: &C, space: Space, index: &mut Option<Index<'a>>)
    ensures { option_map index_tree index.new ≡ option_map ((C.change change.now).index (space_view space)) (option_map index_tree index.old) }
{
    if let Some(index) = index {
        change.index(space, index);
    }
}

//! What is known in a module, or in a function of it.
ghost use Rattle.std.specs.Prelude.{◌≡◌, option_map};
ghost use Rattle.wasm_encoder_base.specs.Table as table;
ghost use Rattle.wast_parser.specs.Identifiers.{identifier_tree, index_tree};
ghost use Rattle.wast_signatures.specs.SignatureViews.{sig_tree};
ghost use Rattle.wast_names.specs.Space.{empty};
ghost use Rattle.wast_names.specs.Views.{space};
ghost use Rattle.wast_meaning.specs.Views.{space_view};
ghost use Rattle.wast_scopes.specs.Known.{members_by, sig_by};
ghost use Rattle.wast_scopes.specs.Numbered.{number_by, same_sig_by};
ghost use Rattle.wast_scopes.specs.NumberedViews.{sig_of_numbered};
ghost use Rattle.wast_scopes.specs.Views.{known};

use crate::numbered::NumberedSignature;
use crate::signatures::Signatures;
use std::alloc::Global;
use wast_meaning::Space;
use wast_names::Namespace;
use wast_parser::{Id, Index};
use wast_signatures::FunctionType;
use wast_spaces::Spaces;

/// What is known outside blocks: the index spaces of a module, its function types, and the locals of a function (6.1.3).
#[derive(Drop)]
pub struct Scope<'s, 'a> {
    pub(crate) alloc: Global,
    pub(crate) spaces: &'s Spaces<'a>,
    pub(crate) signatures: &'s Signatures,
    pub(crate) locals: Namespace<'a>,
}

impl<'s, 'a> Scope<'s, 'a> {
    /// What is known outside functions.
    pub fn new(alloc: Global, spaces: &'s Spaces<'a>, signatures: &'s Signatures) -> Self
        ensures spaces { result.spaces ≡ spaces.entry }
        ensures signatures { result.signatures ≡ signatures.entry }
        ensures locals { space result.locals ≡ empty }
    {
        Scope {
            alloc,
            spaces,
            signatures,
            locals: Namespace::new(alloc),
        }
    }

    /// The same with these locals.
    pub(crate) fn with_locals(&self, locals: Namespace<'a>) -> Scope<'s, 'a>
        ensures spaces { result.spaces ≡ self.now.spaces }
        ensures signatures { result.signatures ≡ self.now.signatures }
        ensures locals { result.locals ≡ locals.entry }
    {
        Scope {
            alloc: self.alloc,
            spaces: self.spaces,
            signatures: self.signatures,
            locals,
        }
    }

    /// The number that a name means in a space; fields have no space of their own, and labels none outside blocks.
    pub(crate) fn look(&self, kind: Space, id: &Id<'a>) -> Option<u32>
        ensures { result ≡ (known self.now).look (space_view kind) (identifier_tree id.now).0 }
    {
        match kind {
            Space::Labels | Space::Fields => None,
            Space::Locals => self.locals.get(id),
            Space::Functions
            | Space::Types
            | Space::Tables
            | Space::Memories
            | Space::Globals
            | Space::Tags
            | Space::Datas
            | Space::Elems => self.spaces.space(kind).get(id),
        }
    }

    /// The number of the type that an index means.
    pub(crate) fn type_number(&self, index: &Index<'a>) -> Option<u32>
        ensures { result ≡ number_by ((known self.now).look table.Types) (index_tree index.now) }
    {
        match index {
            Index::Num(number, _) => Some(*number),
            Index::Id(id) => self.spaces.space(Space::Types).get(id),
        }
    }

    /// The number of a field of the struct type that an index means.
    pub(crate) fn member(&self, owner: &Index<'a>, id: &Id<'a>) -> Option<u32>
        ensures { result ≡ members_by (known self.now) (index_tree owner.now) (identifier_tree id.now).0 }
    {
        self.field(self.type_number(owner)?, id)
    }

    /// The number of a field of the struct type with a number.
    fn field(&self, number: u32, id: &Id<'a>) -> Option<u32>
        ensures { result ≡ (known self.now).fields number (identifier_tree id.now).0 }
    {
        self.spaces.fields_of(number)?.get(id)
    }

    /// The function type that an index means, if there is one.
    pub(crate) fn type_of(&self, index: &Index<'a>) -> Option<&NumberedSignature>
        ensures { option_map (λ s. sig_of_numbered s.now) result ≡ sig_by (known self.now) (index_tree index.now) }
    {
        self.signatures.get(self.type_number(index)?)
    }

    /// Whether a signature is that of the function type that an index means. Where there is no such type, any is.
    pub(crate) fn agrees(&self, index: &Index<'a>, signature: &FunctionType<'a>) -> bool
        ensures { result ≡ same_sig_by ((known self.now).look table.Types) (sig_tree signature.now) (sig_by (known self.now) (index_tree index.now)) }
    {
        match self.type_number(index) {
            Some(number) => {
                let types = self.spaces.space(Space::Types);
                self.signatures.agrees(number, signature, types)
            }
            None => true,
        }
    }
}

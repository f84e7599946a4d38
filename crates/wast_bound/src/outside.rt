//! What is known outside functions.
ghost use Rattle.std.specs.Prelude.{◌≡◌, ℕ, List, ⊤, option_map};
ghost use Rattle.wast_grammar.specs.Tokens.{Name};
ghost use Rattle.wast_grammar.specs.Spelling.{same_name};
ghost use Rattle.wast_parser.specs.Identifiers.{identifier_tree, index_tree};
ghost use Rattle.wast_fields.specs.FieldTree.{Field};
ghost use Rattle.wast_core.specs.ModuleViews.{content_tree};
ghost use Rattle.wast_meaning.specs.Modules.{content_fields};
ghost use Rattle.wast_meaning.specs.Scope.{scope_of};
ghost use Rattle.wast_meaning.specs.Views.{space_view};
ghost use Rattle.wast_bound.specs.Bound.{tells};

use crate::items::is_item_in;
use crate::known::Known;
use crate::types::is_member_in;
use std::alloc::AllocError;
use wast_core::ModuleKind;
use wast_meaning::Space;
use wast_parser::{Id, Index};

/// What holds fields. The code of places knows no more of it, since trees in a value are dear to prove; it has one function, since the
/// prover compares all that a type has of a trait at once.
pub(crate) trait Holds {
    /// The fields.
    ghost fields: { Self → List (Field Name ℕ) };

    /// Whether an item of a space bears a name; or whether a field of the type that an index means bears it, where one is given.
    fn tells(&self, space: Space, owner: Option<&Index<'_>>, id: &Id<'_>) -> bool
        ensures { result ≡ tells (Self.fields self.now) (space_view space) (option_map (λ i. index_tree i.now) owner.entry) (identifier_tree id.now).0 };
}

impl Holds for ModuleKind<'_> {
    ghost fields = { λ c. content_fields (content_tree c) };

    fn tells(&self, space: Space, owner: Option<&Index<'_>>, id: &Id<'_>) -> bool {
        match owner {
            Some(owner) => is_member_in(self, owner, id),
            None => is_item_in(self, space, id),
        }
    }
}

/// A place outside functions, in a module with these fields.
pub(crate) struct Outside<'f, H> {
    pub(crate) holder: &'f H,
}

impl<H> Clone for Outside<'_, H> {
    ghost is_clone = { λ x y. y ≡ x };

    ghost is_infallible = { λ _. ⊤ };

    fn clone(&self) -> Result<Self, AllocError> {
        Ok(Outside {
            holder: self.holder,
        })
    }
}

impl<H> Copy for Outside<'_, H> {}

impl<H: Holds> Known for Outside<'_, H> {
    ghost scope = { λ o. scope_of same_name (H.fields o.holder.now) };

    fn has(&self, space: Space, id: &Id<'_>) -> bool {
        match space {
            Space::Labels => false,
            Space::Locals => false,
            Space::Fields => false,
            _ => self.holder.tells(space, None, id),
        }
    }

    fn has_member(&self, owner: &Index<'_>, id: &Id<'_>) -> bool {
        self.holder.tells(Space::Types, Some(owner), id)
    }
}

//! What is known at a place.
ghost use Rattle.std.specs.Prelude.{◌≡◌, ℕ, is_some};
ghost use Rattle.wast_grammar.specs.Tokens.{Name};
ghost use Rattle.wast_parser.specs.Identifiers.{identifier_tree, index_tree};
ghost use Rattle.wast_meaning.specs.Scope.{Scope, members};
ghost use Rattle.wast_meaning.specs.Views.{space_view};

use wast_meaning::Space;
use wast_parser::{Id, Index};

/// What names mean at a place.
pub(crate) trait Known: Copy {
    /// The scope there.
    ghost scope: { Self → Scope Name ℕ };

    /// Whether a name means something in an index space.
    fn has(&self, space: Space, id: &Id<'_>) -> bool
        ensures { result ≡ is_some (((Self.scope self.now).spaces (space_view space)).look (identifier_tree id.now).0) };

    /// Whether the struct type that an index means has a field that bears a name.
    fn has_member(&self, owner: &Index<'_>, id: &Id<'_>) -> bool
        ensures { result ≡ is_some ((members (Self.scope self.now) (index_tree owner.now)).look (identifier_tree id.now).0) };
}

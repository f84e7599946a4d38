//! What trees say of names.
use wast_meaning::Space;
use wast_parser::{Id, Index};
use wast_signatures::{FunctionType, TypeUse};

/// What a tree says of names at one place, borrowed from it.
pub enum Mention<'t, 'a> {
    /// An index of a space (6.6.1).
    Refers(Space, &'t Index<'a>),
    /// A field of the struct type that the index before it names.
    Member {
        owner: &'t Index<'a>,
        field: &'t Index<'a>,
    },
    /// A type use (6.6, type uses).
    Uses(&'t TypeUse<'a, FunctionType<'a>>),
    /// The type use of a block (6.5, control instructions).
    UsesInBlock(&'t TypeUse<'a, FunctionType<'a>>),
    /// The name of a block, repeated where it ends, or after `else`.
    Repeats(&'t Id<'a>),
}

//! Indices, and what is written around them.

ghost use Rattle.std.specs.Prelude.{◌≡◌, IfOk, IsOk, true};
ghost use Rattle.wast_parser_base.specs.Indices.{is_number, place_of};

use crate::id::Id;
use std::alloc::{AllocError, Global};
use std::borrow::CowStr;
use wast_lexer::Span;

/// An index (6.3.5): a number at a place, or an identifier. Two are equal exactly where both are numbers, and the same, or
/// both identifiers, and equal; equal ones hash alike.
#[derive(Debug, Drop)]
#[derive_where(PartialEq, Eq, Hash)]
pub enum Index<'a> {
    Num(u32, #[derive_where(skip(EqHashOrd))] Span),
    Id(Id<'a>),
}

impl<'a> Index<'a> {
    /// Where the index stands.
    pub fn span(&self) -> Span
        ensures { result ≡ place_of self.now }
    {
        match self {
            Index::Num(_, span) => *span,
            Index::Id(id) => id.span(),
        }
    }

    /// The same index at the same place. Fails only for want of memory, of which a number needs none.
    pub fn clone(&self, alloc: Global) -> Result<Self, AllocError>
        ensures same { IfOk result (λ copy. copy ≡ self.now) }
        ensures number { is_number self.now ≡ true → IsOk result }
    {
        match self {
            Index::Num(number, span) => Ok(Index::Num(*number, *span)),
            Index::Id(id) => Ok(Index::Id(id.clone(alloc)?)),
        }
    }
}

impl<'a> From<Id<'a>> for Index<'a> {
    ghost use Rattle.wast_parser_base.specs.declared.index.Index.TheVariants as indices;

    ghost from_gives = { λ id index. index ≡ indices.Id id };

    fn from(id: Id<'a>) -> Self {
        Index::Id(id)
    }
}

/// An index in parentheses behind the word of what it refers to, as `(func $f)`.
#[derive(Debug, Drop)]
pub struct ItemRef<'a, K> {
    /// The word.
    pub kind: K,
    /// What it refers to.
    pub idx: Index<'a>,
}

/// The name that an annotation `(@name "..")` gives (7.6.1). It is read inside of the parentheses; `Option<NameAnnotation>` is
/// read with them, and none where no annotation `name` is registered.
#[derive(Drop)]
pub struct NameAnnotation<'a> {
    pub name: CowStr<'a, Global>,
}

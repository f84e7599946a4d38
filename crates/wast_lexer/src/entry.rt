//! Tokens as a table keeps them.

use crate::token::TokenKind;

/// A token in eight bytes: it begins where the one before it ends.
#[derive(Clone, Copy)]
pub(crate) struct Entry {
    pub(crate) kind: TokenKind,
    pub(crate) end: u32,
}

//! The tokens of a text.

use wast_lexer_numbers::{FloatKind, IntegerKind};

/// What a token is.
#[derive(Clone, Copy, Debug, PartialEq, Eq)]
pub enum TokenKind {
    /// `;; ..`, up to the end of the line and without it.
    LineComment,
    /// `(; .. ;)`
    BlockComment,
    /// A run of spaces, tabs, line feeds and carriage returns.
    Whitespace,
    LParen,
    RParen,
    String,
    /// `$` and characters, or `$` and a string.
    Id,
    Keyword,
    /// `@` and characters, or `@` and a string, right after `(`.
    Annotation,
    /// A word that is nothing else, or one of `,` `;` `[` `]` `{` `}`.
    Reserved,
    Integer(IntegerKind),
    Float(FloatKind),
}

/// A token of a text: its bytes are those from `offset` to `offset + len`.
///
/// Its readers take the text that it is of; a reader of a kind asks that the token is of that kind.
#[derive(Clone, Copy, Debug, PartialEq, Eq)]
pub struct Token {
    pub kind: TokenKind,
    pub offset: usize,
    pub len: u32,
}

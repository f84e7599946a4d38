use crate::span::Span;
use wast_lexer_strings::LexError;

/// Why there is no token.
#[derive(Clone, Copy, Debug, PartialEq, Eq)]
pub enum LexFault {
    /// No token begins at this place, or the identifier there has no name.
    Lex { span: Span, error: LexError },
    /// Out of memory.
    Memory,
}

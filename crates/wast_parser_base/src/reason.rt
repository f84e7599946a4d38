//! What an error holds.

ghost use Rattle.std.specs.Prelude.{◌≡◌, IfOk};
ghost use Rattle.wast_parser_base.specs.Problem.{lexical_text};
ghost use Rattle.wast_parser_base.specs.Reasons.{cause_of, lines_of};

use std::alloc::{AllocError, Global};
use wast_lexer::LexError;

/// What is wrong. All but `Memory` have an allocator, for the lines that show the place.
#[derive(Debug, Drop)]
pub enum Reason {
    Said(String),
    Lexical(Global, LexError),
    Memory,
}

impl Reason {
    /// A copy, which fails only where no memory is found.
    pub fn clone(&self, alloc: Global) -> Result<Reason, AllocError>
        ensures { IfOk result (λ copy. cause_of copy ≡ cause_of self.now) }
    {
        match self {
            Reason::Said(text) => Ok(Reason::Said(String::from_str(alloc, text.as_str())?)),
            Reason::Lexical(_, error) => Ok(Reason::Lexical(alloc, *error)),
            Reason::Memory => Ok(Reason::Memory),
        }
    }
}

/// What is shown of an error's place.
#[derive(Debug, Drop)]
pub enum Shown {
    /// Its offset.
    Offset,
    /// Nothing.
    Nothing,
    /// These lines.
    Lines(String),
}

impl Shown {
    /// A copy, which fails only where no memory is found.
    pub fn clone(&self, alloc: Global) -> Result<Shown, AllocError>
        ensures { IfOk result (λ copy. lines_of copy ≡ lines_of self.now) }
    {
        match self {
            Shown::Offset => Ok(Shown::Offset),
            Shown::Nothing => Ok(Shown::Nothing),
            Shown::Lines(lines) => Ok(Shown::Lines(String::from_str(alloc, lines.as_str())?)),
        }
    }
}

/// Why no token begins at a place, or why an identifier has no name, in words.
pub fn lexical_text(error: LexError) -> &'static str
    ensures { result.now ≡ lexical_text error }
{
    match error {
        LexError::DanglingBlockComment => "unterminated block comment",
        LexError::Unexpected => "unexpected character",
        LexError::InvalidStringElement => "invalid character in string",
        LexError::InvalidStringEscape => "invalid string escape",
        LexError::InvalidHexDigit => "invalid hexadecimal digit",
        LexError::InvalidDigit => "invalid decimal digit",
        LexError::Expected => "another character was expected",
        LexError::UnexpectedEof => "unexpected end of the text",
        LexError::NumberTooBig => "number is too big to parse",
        LexError::InvalidUnicodeValue => "invalid unicode scalar value",
        LexError::LoneUnderscore => "lone underscore in number",
        LexError::ConfusingUnicode => "likely-confusing unicode character",
        LexError::InvalidUtf8Id => "malformed UTF-8 encoding of an identifier",
        LexError::EmptyId => "empty identifier",
        LexError::EmptyAnnotation => "empty annotation id",
    }
}

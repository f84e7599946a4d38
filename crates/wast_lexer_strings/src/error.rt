use thiserror::Error;

/// Why no token begins at a place, or why an identifier has no name.
#[derive(Clone, Copy, Debug, PartialEq, Eq, Error)]
pub enum LexError {
    #[error("unterminated block comment")]
    DanglingBlockComment,
    #[error("unexpected character")]
    Unexpected,
    #[error("invalid character in string")]
    InvalidStringElement,
    #[error("invalid string escape")]
    InvalidStringEscape,
    #[error("invalid hexadecimal digit")]
    InvalidHexDigit,
    /// Never given: no text has this fault. No contract says so: only rows show it.
    #[error("invalid decimal digit")]
    InvalidDigit,
    #[error("another character was expected")]
    Expected,
    #[error("unexpected end of the text")]
    UnexpectedEof,
    /// Never given: no text has this fault. No contract says so: only rows show it.
    #[error("number is too big to parse")]
    NumberTooBig,
    #[error("invalid unicode scalar value")]
    InvalidUnicodeValue,
    /// Never given: no text has this fault. No contract says so: only rows show it.
    #[error("lone underscore in number")]
    LoneUnderscore,
    #[error("likely-confusing unicode character")]
    ConfusingUnicode,
    #[error("malformed UTF-8 encoding of an identifier")]
    InvalidUtf8Id,
    #[error("empty identifier")]
    EmptyId,
    #[error("empty annotation id")]
    EmptyAnnotation,
}

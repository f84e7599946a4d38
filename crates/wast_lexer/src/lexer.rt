//! A lexer, and the iterator over its tokens.

ghost use Rattle.std.specs.Prelude.{◌^◌, ◌<◌, length};
ghost use Rattle.std.specs.Str.{IsCharBoundary};

/// A text to be cut into tokens.
#[derive(Clone, Copy)]
pub struct Lexer<'a> {
    pub(crate) input: &'a str,
    pub(crate) allow: bool,
    ghost fits: { length input.now < 2 ^ 32 },
    ghost start: { IsCharBoundary input.now 0 },
}

/// The tokens of a text from a position on. It ends after its first fault.
#[derive(Clone, Copy)]
pub struct Tokens<'a> {
    pub(crate) lexer: Lexer<'a>,
    pub(crate) pos: usize,
    pub(crate) stopped: bool,
    ghost boundary: { IsCharBoundary lexer.input.now pos },
}

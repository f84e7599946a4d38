//! Words of the grammar as types.
ghost use Rattle.std.specs.Prelude.{◌≡◌, ℕ, List, refl};
ghost use Rattle.wast_grammar.specs.Grammar.{word};

use crate::cursor::Cursor;
use crate::meaning::{Item, Meaning, Parse, Peek};
use crate::parser::Parser;
use std::marker::PhantomData;
use wast_lexer::Span;
use wast_parser_base::Error;

/// A word of the grammar, named by a type.
pub trait KeywordName: Sized + Drop {
    ghost word: { List ℕ };

    /// The word.
    fn text() -> &'static str
        ensures { result.now ≡ word };
}

/// A word of the grammar, and where it stands.
#[derive(Drop)]
pub struct Keyword<N> {
    pub span: Span,
    of: PhantomData<N>,
}

/// At offset 0.
impl<N: KeywordName> Default for Keyword<N> {
    ghost is_default = { λ k. k.span ≡ 0 };

    fn default() -> Self {
        Keyword {
            span: Span::from_offset(0),
            of: PhantomData,
        }
    }
}

impl<N: KeywordName> Meaning for Keyword<N> {
    ghost Tree = { ℕ };

    ghost tree = { λ k. k.span };

    ghost syntax = { word N.word };

    fn lawful() {}
}

impl<'a, N: KeywordName> Parse<'a> for Keyword<N> {
    fn parse(parser: &mut Parser<'a>) -> Result<Self, Error> {
        match parser.word(N::text()) {
            Ok(span) => Ok(Keyword {
                span,
                of: PhantomData,
            }),
            Err(e) => Err(e),
        }
    }
}

impl<N: KeywordName> Peek for Keyword<N> {
    ghost plain = { refl };

    ghost sure = { refl };

    fn leads() {}

    fn peek(cursor: Cursor<'_, '_>) -> Result<bool, Error> {
        cursor.peek_word(N::text())
    }

    fn display() -> &'static str {
        N::text()
    }
}

impl<N: KeywordName> Item for Keyword<N> {
    ghost inside = { refl };
}

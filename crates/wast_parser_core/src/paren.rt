//! Parentheses by themselves.
ghost use Rattle.std.specs.Prelude.{ℕ, [], ◌∷◌, false, refl};
ghost use Rattle.wast_grammar.specs.Spelling.{that_open, that_close};
ghost use Rattle.wast_grammar.specs.Look.{On, AClose, Any, Opening};
ghost use Rattle.wast_grammar.specs.Grammar.{token};

use crate::cursor::Cursor;
use crate::meaning::{Item, Meaning, Parse, Peek};
use crate::parser::Parser;
use wast_lexer::Span;
use wast_parser_base::Error;

/// A parenthesis that opens.
#[derive(Drop)]
pub struct LParen {
    pub span: Span,
}

impl Meaning for LParen {
    ghost Tree = { ℕ };

    ghost tree = { λ p. p.span };

    ghost syntax = { token that_open (Opening ∷ []) };

    fn lawful() {}
}

/// The depth stays as it was.
impl<'a> Parse<'a> for LParen {
    fn parse(parser: &mut Parser<'a>) -> Result<Self, Error> {
        let depth = parser.depth;
        let span = parser.open()?;
        parser.depth = depth;
        Ok(LParen { span })
    }
}

impl Peek for LParen {
    ghost plain = { refl };

    ghost sure = { refl };

    fn leads() {}

    fn peek(cursor: Cursor<'_, '_>) -> Result<bool, Error> {
        cursor.peek_lparen()
    }

    fn display() -> &'static str {
        "`(`"
    }
}

impl Item for LParen {
    ghost inside = { refl };
}

/// A parenthesis that closes.
#[derive(Drop)]
pub struct RParen {
    pub span: Span,
}

impl Meaning for RParen {
    ghost Tree = { ℕ };

    ghost tree = { λ p. p.span };

    ghost syntax = { token that_close (On false AClose Any ∷ []) };

    fn lawful() {}
}

impl<'a> Parse<'a> for RParen {
    fn parse(parser: &mut Parser<'a>) -> Result<Self, Error> {
        let span = parser.close()?;
        Ok(RParen { span })
    }
}

impl Peek for RParen {
    ghost plain = { refl };

    ghost sure = { refl };

    fn leads() {}

    fn peek(cursor: Cursor<'_, '_>) -> Result<bool, Error> {
        cursor.peek_rparen()
    }

    fn display() -> &'static str {
        "`)`"
    }
}

//! Tokens as parentheses.

ghost use Rattle.std.specs.Prelude.{◌≡◌};
ghost use Rattle.wast_lexer.specs.Groups.{paren_of};

use crate::token::TokenKind;

/// What a token is to the groups of a text.
#[derive(Clone, Copy)]
pub(crate) enum Paren {
    Opens,
    Closes,
    Other,
}

pub(crate) fn paren_of(kind: TokenKind) -> Paren
    ensures { result ≡ paren_of kind }
{
    match kind {
        TokenKind::LParen => Paren::Opens,
        TokenKind::RParen => Paren::Closes,
        _ => Paren::Other,
    }
}

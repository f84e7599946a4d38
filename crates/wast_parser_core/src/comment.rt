//! Comments, which no production has.
ghost use Rattle.std.specs.Prelude.{◌≡◌};
ghost use Rattle.wast_parser_core.specs.Comments.{is_comment, is_space, ShowsComment, TakesComment};

use crate::cursor::Cursor;
use crate::parser::{Parser, stopped};
use wast_lexer::{Token, TokenKind};
use wast_parser_base::Error;

impl<'b, 'a> Cursor<'b, 'a> {
    /// Takes the comment that follows, where white space alone stands between; answers its text, with the marks that open and
    /// close it. Refused where the lexer's fault stands in its place. It wants no memory.
    pub fn comment(self) -> Result<Option<(&'a str, Cursor<'b, 'a>)>, Error>
        ensures { TakesComment (λ w. w.now) self.entry result }
    {
        match self.parser.comment_from(self.at)? {
            Some((token, at)) => Ok(Some((
                token.src(self.parser.text()),
                Cursor {
                    parser: self.parser,
                    at,
                },
            ))),
            None => Ok(None),
        }
    }
}

impl<'a> Parser<'a> {
    /// The comment that follows where so many tokens are taken, and how many are taken with it.
    fn comment_from(&self, from: usize) -> Result<Option<(Token, usize)>, Error>
        ensures { ShowsComment result (record self.now { at = from }) }
    {
        let mut at = from;
        'tokens: while let Some(token) = self.buffer.get(at) {
            if is_space(token.kind) {
                at += 1;
            } else if is_comment(token.kind) {
                return Ok(Some((token, at + 1)));
            } else {
                return Ok(None);
            }
        }
        if self.buffer.fault().is_some() {
            return Err(stopped(self.buffer));
        }
        Ok(None)
    }
}

fn is_space(kind: TokenKind) -> bool
    ensures { result ≡ is_space kind }
{
    matches!(kind, TokenKind::Whitespace)
}

fn is_comment(kind: TokenKind) -> bool
    ensures { result ≡ is_comment kind }
{
    matches!(kind, TokenKind::LineComment | TokenKind::BlockComment)
}

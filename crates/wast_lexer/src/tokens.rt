//! The tokens of a text, one after the other.

ghost use Rattle.std.specs.Prelude.{ℕ};
ghost use Rattle.std.specs.Iterator.{at_most};
ghost use Rattle.wast_lexer.specs.Tokens.{GivesNext, left};

use crate::fault::LexFault;
use crate::lexer::Tokens;
use crate::token::Token;

impl<'a> Iterator for Tokens<'a> {
    type Item = Result<Token, LexFault>;

    ghost next_gives = { GivesNext };

    ghost remaining = { λ s. at_most (left s) };

    fn next(&mut self) -> Option<Result<Token, LexFault>> {
        if self.stopped {
            return None;
        }
        let mut pos = self.pos;
        match self.lexer.parse(&mut pos) {
            Ok(Some(token)) => {
                self.pos = pos;
                Some(Ok(token))
            }
            Ok(None) => {
                self.stopped = true;
                None
            }
            Err(fault) => {
                self.stopped = true;
                Some(Err(fault))
            }
        }
    }
}

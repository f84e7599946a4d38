//! Looking for indices and annotations.
ghost use Rattle.std.specs.Prelude.{◌≡◌, ◌||◌, [], ◌∷◌, false};
ghost use Rattle.wast_grammar.specs.Look.{ask, On, AnInteger, AnId, Any, this_annotation};
ghost use Rattle.wast_parser_core.specs.Marks.{this_mark};
ghost use Rattle.wast_parser_core.specs.Kinds.{is_integer, is_identifier};
ghost use Rattle.wast_parser_core.specs.State.{ahead};
ghost use Rattle.wast_parser_core.specs.Reading.{Asks};
ghost use Rattle.wast_parser_core.specs.Cursors.{stands};

use crate::annotation::is_named;
use crate::cursor::Cursor;
use crate::kind::{is_annotation, is_lparen};
use wast_lexer::TokenKind;
use wast_parser_base::Error;

impl<'b, 'a> Cursor<'b, 'a> {
    /// Whether an integer or an identifier stands here.
    pub(crate) fn peek_index(self) -> Result<bool, Error>
        ensures { Asks result (stands self.entry).source (ask (On false AnInteger Any ∷ On false AnId Any ∷ []) (ahead (stands self.entry))) }
    {
        match self.token()? {
            Some((token, _)) => Ok(is_index(token.kind)),
            None => Ok(false),
        }
    }

    /// Whether the name of this annotation stands here.
    fn peek_mark(self, text: &str) -> Result<bool, Error>
        ensures { Asks result (stands self.entry).source (ask (this_mark text.now ∷ []) (ahead (stands self.entry))) }
    {
        match self.token()? {
            Some((token, _)) if is_annotation(token.kind) => {
                Ok(is_named(self.parser.text(), token, text))
            }
            _ => Ok(false),
        }
    }

    /// Whether a parenthesis opens here and the name of this annotation stands behind it.
    #[inline(always)]
    pub fn peek_annotation(self, text: &str) -> Result<bool, Error>
        ensures { Asks result (stands self.entry).source (ask (this_annotation text.now ∷ []) (ahead (stands self.entry))) }
    {
        match self.token()? {
            Some((token, rest)) if is_lparen(token.kind) => rest.peek_mark(text),
            _ => Ok(false),
        }
    }
}

fn is_index(kind: TokenKind) -> bool
    ensures { result ≡ (is_integer kind || is_identifier kind) }
{
    matches!(kind, TokenKind::Integer(_) | TokenKind::Id)
}

fn is_integer(kind: TokenKind) -> bool
    ensures { result ≡ is_integer kind }
{
    matches!(kind, TokenKind::Integer(_))
}

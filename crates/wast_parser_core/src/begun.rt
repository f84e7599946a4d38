//! Words by how they begin, and numbers as they are written.
ghost use Rattle.std.specs.Prelude.{◌≡◌, None, OnErr, Some, [], ◌∷◌, false, option_map};
ghost use Rattle.wast_grammar.specs.Spelling.{after};
ghost use Rattle.wast_grammar.specs.Look.{ask, On, AWord, Begun};
ghost use Rattle.wast_grammar.specs.Grammar.{begun, float};
ghost use Rattle.wast_parser_core.specs.State.{ahead, Keeps};
ghost use Rattle.wast_parser_core.specs.Reading.{Asks, Gives};

use crate::kind::{is_keyword, is_number};
use crate::parser::Parser;
use wast_lexer::Span;
use wast_parser_base::Error;

impl<'a> Parser<'a> {
    /// Whether a word that begins so stands here. Refused as [`Parser::peek`] is.
    pub fn peek_begun(&self, prefix: &str) -> Result<bool, Error>
        ensures { Asks result self.now.source (ask (On false AWord (Begun prefix.now) ∷ []) (ahead self.now)) }
    {
        match self.next()? {
            Some((token, _)) if is_keyword(token.kind) => {
                Ok(behind(token.src(self.text()), prefix).is_some())
            }
            _ => Ok(false),
        }
    }

    /// Takes a word that begins so; answers what follows in it, and where it stands. Refused only where none is there; the parser
    /// stays then.
    pub fn begun(&mut self, prefix: &str) -> Result<(&'a [u8], Span), Error>
        ensures read { Gives (λ x. (x.0.now, x.1)) result self.new ((begun prefix.now (λ w. Some w)).reads (ahead self.old)) }
        ensures keeps { Keeps self.old self.new }
        ensures stays { OnErr result (self.new ≡ self.old) }
        ensures exact { OnErr result ((begun prefix.now (λ w. Some w)).reads (ahead self.old) ≡ None) }
    {
        if let Some((token, after)) = self.next()?
            && is_keyword(token.kind)
            && let Some(rest) = behind(token.src(self.text()), prefix)
        {
            self.at = after;
            return Ok((rest, Span::from_offset(token.offset)));
        }
        Err(self.error("expected another word"))
    }

    /// Takes a float or an integer; answers its text, and where it stands. Refused only where none is there; the parser stays
    /// then.
    pub fn float(&mut self) -> Result<(&'a str, Span), Error>
        ensures read { Gives (λ x. (x.0.now, x.1)) result self.new (float.reads (ahead self.old)) }
        ensures keeps { Keeps self.old self.new }
        ensures stays { OnErr result (self.new ≡ self.old) }
        ensures exact { OnErr result (float.reads (ahead self.old) ≡ None) }
    {
        match self.next()? {
            Some((token, after)) if is_number(token.kind) => {
                self.at = after;
                Ok((token.src(self.text()), Span::from_offset(token.offset)))
            }
            _ => Err(self.error("expected a number")),
        }
    }
}

/// What follows a front of a text, where it is one.
fn behind<'t>(text: &'t str, prefix: &str) -> Option<&'t [u8]>
    ensures { option_map (λ b. b.now) result ≡ after prefix.now text.now }
{
    text.as_bytes().strip_prefix(prefix.as_bytes())
}

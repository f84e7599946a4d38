//! The calls of a lexer.

ghost use Rattle.std.specs.Prelude.{◌^◌, ◌≡◌, ◌≤◌, ◌<◌, ℕ, length, false, true, Ok, None};
ghost use Rattle.std.specs.Str.{IsCharBoundary};
ghost use Rattle.wast_lexer.specs.Parse.{Answers, is_opened, is_marked};
ghost use Rattle.wast_lexer.specs.Source.{source, allows};
ghost use Rattle.wast_lexer.specs.TokenText.{GivesTokenOf};
ghost use Rattle.wast_lexer.specs.Tokens.{lexer_of, place_of, has_stopped};

use crate::fault::LexFault;
use crate::lexer::{Lexer, Tokens};
use crate::scan::scan;
use crate::span::Span;
use crate::token::Token;

impl<'a> Lexer<'a> {
    /// The lexer of a text, which has fewer than 2^32 bytes. It refuses the characters that
    /// [`allow_confusing_unicode`](Lexer::allow_confusing_unicode) names until they are allowed.
    pub fn new(input: &'a str) -> Lexer<'a>
        requires { length input.now < 2 ^ 32 }
        ensures input { source result ≡ input.now }
        ensures allow { allows result ≡ false }
    {
        Lexer {
            input,
            allow: false,
        }
    }

    /// The text.
    pub fn input(&self) -> &'a str
        ensures { result.now ≡ source self.now }
    {
        self.input
    }

    /// Whether the characters U+202A, 202B, 202D, 202E, 2066 to 2069 and 206C may stand in comments and strings.
    pub fn allow_confusing_unicode(&mut self, allow: bool)
        ensures input { source self.new ≡ source self.old }
        ensures allow { allows self.new ≡ allow }
    {
        self.allow = allow;
    }

    /// The token that begins at `pos`, a byte offset where a character begins or the text ends; `None` at the end of the text
    /// (6.2). `pos` is moved behind the token. Refused where no token begins there, by a fault at `pos`, which then stays. Takes
    /// no memory.
    pub fn parse(&self, pos: &mut usize) -> Result<Option<Token>, LexFault>
        requires { IsCharBoundary (source self.now) pos.old }
        ensures answers { Answers (allows self.now) (source self.now) pos.old pos.new result }
        ensures boundary { IsCharBoundary (source self.now) pos.new }
        ensures token { GivesTokenOf (source self.now) result }
    {
        let text = self.input.as_bytes();
        let offset = *pos;
        if offset == text.len() {
            return Ok(None);
        }
        let opened = is_opened(text, offset);
        match scan(text, offset, self.allow, opened) {
            Ok((kind, end)) => {
                *pos = end;
                Ok(Some(Token {
                    kind,
                    offset,
                    len: (end - offset) as u32,
                }))
            }
            Err(error) => Err(LexFault::Lex {
                span: Span::from_offset(offset),
                error,
            }),
        }
    }

    /// The annotation at `pos`, a byte offset where a character begins or the text ends: the token that begins there, where
    /// that is with `@` right after `(`; else `None`. Refused as [`Lexer::parse`] is. Takes no memory.
    pub fn annotation(&self, pos: usize) -> Result<Option<Token>, LexFault>
        requires { IsCharBoundary (source self.now) pos }
        ensures answers { is_marked (source self.now) pos ≡ true → (to : ℕ) × Answers (allows self.now) (source self.now) pos to result }
        ensures nothing { is_marked (source self.now) pos ≡ false → result ≡ Ok None }
        ensures token { GivesTokenOf (source self.now) result }
    {
        if !is_marked(self.input.as_bytes(), pos) {
            return Ok(None);
        }
        let mut at = pos;
        self.parse(&mut at)
    }

    /// The tokens from a byte offset on, where a character begins or the text ends, up to the end or the first fault.
    pub fn iter(&self, pos: usize) -> Tokens<'a>
        requires { IsCharBoundary (source self.now) pos }
        ensures input { source (lexer_of result) ≡ source self.now }
        ensures allow { allows (lexer_of result) ≡ allows self.now }
        ensures pos { place_of result ≡ pos }
        ensures goes_on { has_stopped result ≡ false }
    {
        Tokens {
            lexer: *self,
            pos,
            stopped: false,
        }
    }
}

/// Whether a `@` stands at a place, right after `(`.
fn is_marked(text: &[u8], at: usize) -> bool
    requires { at ≤ length text.now }
    ensures { result ≡ is_marked text.now at }
{
    is_opened(text, at) && at < text.len() && text[at] == b'@'
}

/// Whether a `(` stands right before a place.
fn is_opened(text: &[u8], at: usize) -> bool
    requires { at ≤ length text.now }
    ensures { result ≡ is_opened text.now at }
{
    0 < at && text[at - 1] == b'('
}

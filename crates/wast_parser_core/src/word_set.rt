//! Words that have values.
ghost use Rattle.std.specs.Prelude.{◌≡◌, ℕ, List, [], ◌∷◌, map, option_map, false, true, None, OnErr};
ghost use Rattle.wast_grammar.specs.Spelling.{find_but, find_by};
ghost use Rattle.wast_grammar.specs.Look.{ask, On, AWord, OneOf};
ghost use Rattle.wast_grammar.specs.Grammar.{among};
ghost use Rattle.wast_parser_core.specs.State.{ahead, Keeps};
ghost use Rattle.wast_parser_core.specs.Reading.{Gives, Asks};
ghost use Rattle.wast_parser_core.specs.Cursors.{stands};

use crate::cursor::Cursor;
use crate::kind::{is_keyword, is_lparen};
use crate::parser::Parser;
use wast_lexer::Span;
use wast_parser_base::Error;

/// A set of words with their values, as the mnemonics of instructions.
pub trait WordSet: Sized + Drop {
    /// What stands for a value in the grammar.
    ghost Entry: { Type 0 };

    ghost entry: { Self → Entry };

    /// The word of each.
    ghost word: { Entry → List ℕ };

    /// All of them. Of two with one word the first counts.
    ghost entries: { List Entry };

    /// Words that are left out.
    ghost but: { List (List ℕ) } = { [] };

    /// The value whose word is written so.
    fn of(text: &[u8]) -> Option<Self>
        ensures { option_map Self.entry result ≡ find_but Self.word Self.entries Self.but text.now };
}

/// A value that is written as one word.
pub trait Spelled: Copy {
    /// What stands for a value in the grammar.
    ghost Entry: { Type 0 };

    ghost entry: { Self → Entry };

    /// The word of each.
    ghost word: { Entry → List ℕ };

    /// The word.
    fn text(self) -> &'static str
        ensures { result.now ≡ word (entry self) };
}

/// The first of these values whose word is written so.
pub fn find_among<T: Spelled>(values: &[T], text: &[u8]) -> Option<T>
    ensures { option_map T.entry result ≡ find_by T.word text.now (map T.entry values.now) }
{
    for value in values {
        if text == value.text().as_bytes() {
            return Some(*value);
        }
    }
    None
}

impl<'a> Parser<'a> {
    /// Takes a word of a set; answers its value, and where it stands. Refused only where no word of the set comes next; the
    /// parser stays then. `expected` is for the message.
    pub fn among<T: WordSet>(&mut self, expected: &str) -> Result<(T, Span), Error>
        ensures read { Gives (λ m. (T.entry m.0, m.1)) result self.new ((among T.word T.entries T.but).reads (ahead self.old)) }
        ensures keeps { Keeps self.old self.new }
        ensures stays { OnErr result (self.new ≡ self.old) }
        ensures exact { OnErr result ((among T.word T.entries T.but).reads (ahead self.old) ≡ None) }
    {
        if let Some((token, after)) = self.next()?
            && is_keyword(token.kind)
            && let Some(value) = T::of(token.src(self.text()).as_bytes())
        {
            self.at = after;
            return Ok((value, Span::from_offset(token.offset)));
        }
        Err(self.error(expected))
    }
}

impl<'b, 'a> Cursor<'b, 'a> {
    /// Whether a word of a set stands here.
    pub fn peek_among<T: WordSet>(self) -> Result<bool, Error>
        ensures { Asks result (stands self.entry).source (ask (On false AWord (OneOf (map T.word T.entries) T.but) ∷ []) (ahead (stands self.entry))) }
    {
        match self.token()? {
            Some((token, _)) if is_keyword(token.kind) => {
                Ok(T::of(token.src(self.parser.text()).as_bytes()).is_some())
            }
            _ => Ok(false),
        }
    }

    /// Whether a parenthesis opens here and a word of a set stands behind it.
    pub fn peek_group_among<T: WordSet>(self) -> Result<bool, Error>
        ensures { Asks result (stands self.entry).source (ask (On true AWord (OneOf (map T.word T.entries) T.but) ∷ []) (ahead (stands self.entry))) }
    {
        match self.token()? {
            Some((token, rest)) if is_lparen(token.kind) => rest.peek_among::<T>(),
            _ => Ok(false),
        }
    }
}

//! Values that are written as one keyword.
ghost use Rattle.std.specs.Prelude.{◌≡◌, ℕ, List, map, option_map, refl};
ghost use Rattle.wast_parser.specs.Tokens.{Name};
ghost use Rattle.wast_parser.specs.Spelling.{find_by};
ghost use Rattle.wast_parser.specs.Look.{ask};
ghost use Rattle.wast_parser.specs.Lawful.{Lawful, Leads};
ghost use Rattle.wast_parser.specs.State.{ahead};
ghost use Rattle.wast_parser.specs.Reading.{Asks};
ghost use Rattle.wast_parser.specs.Cursors.{stands};
ghost use Rattle.wast_words.specs.WordSyntax.{keyword, keywords};

use wast_parser::{Cursor, Error, Item, Meaning, Parse, Parser, Peek, WordSet};

/// A value that is written as one keyword.
pub trait Written: Copy {
    /// What stands for a value in the grammar.
    ghost Tree: { Type 0 };

    /// The keyword, and what stands for the value.
    ghost entry: { Self → List ℕ × Tree };

    /// The same of all values.
    ghost entries: { List (List ℕ × Tree) };

    /// The keyword.
    fn text(self) -> &'static str
        ensures { result.now ≡ (entry self).0 };
}

/// Values of which all are known.
pub trait Words: Written {
    /// What a value is called in errors.
    const NAME: &'static str;

    /// The error where none is found.
    const EXPECTED: &'static str;

    /// The value of a keyword.
    fn of(text: &[u8]) -> Option<Self>
        ensures { option_map Self.entry result ≡ find_by (λ e. e.0) text.now Self.entries };
}

/// A value behind its keyword.
#[derive(Drop)]
pub struct Word<T> {
    pub value: T,
}

impl<T: Words> WordSet for Word<T> {
    ghost Entry = { List ℕ × T.Tree };

    ghost entry = { λ w. T.entry w.value };

    ghost word = { λ e. e.0 };

    ghost entries = { T.entries };

    #[inline(always)]
    fn of(text: &[u8]) -> Option<Self> {
        match T::of(text) {
            Some(value) => Some(Word { value }),
            None => None,
        }
    }
}

impl<T: Words> Meaning for Word<T> {
    ghost Tree = { T.Tree };

    ghost tree = { λ w. (T.entry w.value).1 };

    ghost syntax = { keyword T.entries };

    fn lawful()
        ensures { Lawful (keyword {N = Name} {P = ℕ} T.entries) }
    {}
}

impl<'a, T: Words> Parse<'a> for Word<T> {
    fn parse(parser: &mut Parser<'a>) -> Result<Self, Error> {
        let (word, _) = parser.among(T::EXPECTED)?;
        Ok(word)
    }
}

impl<T: Words> Peek for Word<T> {
    ghost plain = { refl };

    ghost sure = { refl };

    fn leads()
        ensures { Leads (keyword {N = Name} {P = ℕ} T.entries).spells (keywords T.entries) }
    {}

    #[inline(always)]
    fn peek(cursor: Cursor<'_, '_>) -> Result<bool, Error>
        ensures { Asks result (stands cursor.entry).source (ask (keywords T.entries) (ahead (stands cursor.entry))) }
    {
        cursor.peek_among::<Word<T>>()
    }

    fn display() -> &'static str {
        T::NAME
    }
}

impl<T: Words> Item for Word<T> {
    ghost inside = { refl };
}

/// The first of these values that is written so.
pub fn find<T: Written>(values: &[T], text: &[u8]) -> Option<T>
    ensures { option_map T.entry result ≡ find_by (λ e. e.0) text.now (map T.entry values.now) }
{
    for value in values {
        if text == value.text().as_bytes() {
            return Some(*value);
        }
    }
    None
}

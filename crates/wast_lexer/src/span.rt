//! Places of a text.
ghost use Rattle.std.specs.Prelude.{◌≡◌};
ghost use Rattle.wast_lexer.specs.Span.{line_of, column_of, line_feeds, since_line_feed};

use std::marker::Model;

/// A place of a text: where a token begins. Contracts see its byte offset.
#[derive(Clone, Copy, Debug, PartialEq, Eq)]
pub struct Span {
    offset: usize,
}

impl Model for Span {
    ghost use Rattle.std.specs.Prelude.{ℕ};

    ghost Value = { ℕ };

    ghost view = { λ s. s.offset };

    ghost inverse = { λ n. record { offset = n } };
}

impl Span {
    /// The place at this byte offset.
    pub fn from_offset(offset: usize) -> Span
        ensures { result ≡ offset }
    {
        Span { offset }
    }

    /// The byte offset of this place.
    pub fn offset(&self) -> usize
        ensures { result ≡ self.now }
    {
        self.offset
    }

    /// The line and the column, both from 0: how many line feeds stand before, and how many bytes since the last one. An
    /// offset past the text counts all of it.
    pub fn linecol_in(&self, text: &str) -> (usize, usize)
        ensures line { result.0 ≡ line_of text.now self.now }
        ensures column { result.1 ≡ column_of text.now self.now }
    {
        let before = self.offset.min(text.len());
        linecol(&text.as_bytes()[..before])
    }
}

fn linecol(before: &[u8]) -> (usize, usize)
    ensures line { result.0 ≡ line_feeds before.now }
    ensures column { result.1 ≡ since_line_feed 0 before.now }
{
    let mut line = 0;
    let mut column = 0;
    for byte in before {
        if *byte == b'\n' {
            line += 1;
            column = 0;
        } else {
            column += 1;
        }
    }
    (line, column)
}

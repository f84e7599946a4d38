//! Looking for one of several.
ghost use Rattle.std.specs.Prelude.{◌≡◌, ℕ, List};
ghost use Rattle.wast_grammar.specs.Look.{ask};
ghost use Rattle.wast_parser_core.specs.State.{ahead, place_ahead};
ghost use Rattle.wast_parser_core.specs.Reading.{LooksFor, SaysAt};

use crate::meaning::Peek;
use crate::parser::Parser;
use std::alloc::AllocError;
use std::marker::Model;
use wast_parser_base::Error;

/// Looks for one of several at the place where a parser stands, and keeps the names of those that aren't there for an error.
/// Contracts see what the parser has.
#[derive(Drop)]
pub struct Lookahead1<'b, 'a> {
    parser: &'b Parser<'a>,
    missed: String,
    count: usize,
}

impl<'b, 'a> Model for Lookahead1<'b, 'a> {
    ghost use Rattle.wast_parser_core.specs.State.{State};

    ghost Value = { State };

    ghost view = { λ l. l.parser.now };
}

impl<'a> Parser<'a> {
    /// Looks for one of several here, with none looked for yet.
    pub fn lookahead1<'b>(&'b self) -> Lookahead1<'b, 'a>
        ensures { result ≡ self.now }
    {
        Lookahead1 {
            parser: self,
            missed: String::new(self.alloc()),
            count: 0,
        }
    }
}

impl<'b, 'a> Lookahead1<'b, 'a> {
    /// Whether one begins here. Where none does its name is kept for the error. Refused where no token can be read, and for
    /// want of memory for the name.
    pub fn peek<T: Peek>(&mut self) -> Result<bool, Error>
        ensures asks { LooksFor result self.old.source (ask T.syntax.starts (ahead self.old)) }
        ensures same { self.new ≡ self.old }
    {
        match self.parser.peek::<T>() {
            Ok(true) => Ok(true),
            Ok(false) => match self.miss(T::display()) {
                Ok(_) => Ok(false),
                Err(e) => Err(Error::from(e)),
            },
            Err(e) => Err(e),
        }
    }

    /// The parser.
    pub fn parser(&self) -> &'b Parser<'a>
        ensures { result.now ≡ self.now }
    {
        self.parser
    }

    /// An error where the next token stands, which names what was looked for, or want of memory for it. What its text is, no
    /// contract says: only rows show it.
    pub fn error(self) -> Error
        ensures { (text : List ℕ) × SaysAt text (place_ahead self.entry) result }
    {
        match self.message() {
            Ok(text) => Error::new(self.parser.cur_span(), text),
            Err(e) => Error::from(e),
        }
    }

    /// Keeps a name.
    fn miss(&mut self, name: &str) -> Result<(), AllocError>
        ensures { self.new ≡ self.old }
    {
        if 0 < self.count {
            self.missed.push_str(", ")?;
        }
        self.missed.push_str(name)?;
        self.count = self.count.saturating_add(1);
        Ok(())
    }

    fn message(&self) -> Result<String, AllocError> {
        let alloc = self.parser.alloc();
        let missed = self.missed.as_str();
        match self.count {
            0 if self.parser.is_empty() => String::from_str(alloc, "unexpected end"),
            0 => String::from_str(alloc, "unexpected token"),
            1 => format!(in alloc; "expected {missed}"),
            _ => format!(in alloc; "expected one of: {missed}"),
        }
    }
}

//! An error of a text: its place and what is wrong.

ghost use Rattle.std.specs.Prelude.{◌≡◌, IfOk, OnErr, OnOk, None, Some, false, string_bytes};
ghost use Rattle.wast_parser_base.specs.Problem.{Memory, Said, displayed, is_memory, lexical_of, lines_told, message_of, told_in};
ghost use Rattle.wast_parser_base.specs.Reasons.{lines_of};
ghost use Rattle.wast_parser_base.specs.Faults.{problem_of};

use crate::reason::{Reason, Shown, lexical_text};
use crate::snippet::lines_at;
use std::alloc::{AllocError, AllocFailed, Global};
use std::fmt;
use std::marker::Model;
use wast_lexer::{LexError, LexFault, Span};

/// What is wrong with a text, and where. Contracts see a `Problem` of `specs/`: the byte offset of the place, the cause,
/// and the lines that show the place where a text was given.
///
/// `Display` writes the message, and then these lines where a text was given, else ` at byte offset ` and the offset.
#[derive(Debug, Drop)]
pub struct Error {
    place: Span,
    reason: Reason,
    shown: Shown,
}

impl Model for Error {
    ghost use Rattle.wast_parser_base.specs.Problem.{Problem};
    ghost use Rattle.wast_parser_base.specs.Reasons.{cause_of, lines_of};

    ghost Value = { Problem };

    ghost view = { λ e. record { place = e.place; cause = cause_of e.reason; lines = lines_of e.shown } };
}

impl Error {
    /// An error at a place, with this message.
    pub fn new(span: Span, text: String) -> Self
        ensures { result ≡ record { place = span; cause = Said (string_bytes text); lines = None } }
    {
        Error {
            place: span,
            reason: Reason::Said(text),
            shown: Shown::Offset,
        }
    }

    /// The error of a lexical fault: of its place and cause, or want of memory.
    pub fn from_fault(alloc: Global, fault: LexFault) -> Self
        ensures { result ≡ problem_of fault }
    {
        match fault {
            LexFault::Lex { span, error } => Error {
                place: span,
                reason: Reason::Lexical(alloc, error),
                shown: Shown::Offset,
            },
            LexFault::Memory => Error::memory(),
        }
    }

    /// Want of memory. It has no place, and stands at offset 0.
    pub fn memory() -> Self
        ensures { result ≡ record { place = 0; cause = Memory; lines = None } }
    {
        Error {
            place: Span::from_offset(0),
            reason: Reason::Memory,
            shown: Shown::Offset,
        }
    }

    /// A copy, with the lines that show the place where a text was given. Fails only where no memory is found.
    pub fn clone(&self, alloc: Global) -> Result<Error, AllocError>
        ensures { IfOk result (λ copy. copy ≡ self.now) }
    {
        let reason = self.reason.clone(alloc)?;
        let shown = self.shown.clone(alloc)?;
        Ok(Error {
            place: self.place,
            reason,
            shown,
        })
    }

    /// Where the error is.
    pub fn span(&self) -> Span
        ensures { result ≡ self.now.place }
    {
        self.place
    }

    /// The lexical fault, where the error is one.
    pub fn lex_error(&self) -> Option<LexError>
        ensures { result ≡ lexical_of self.now.cause }
    {
        match &self.reason {
            Reason::Lexical(_, error) => Some(*error),
            _ => None,
        }
    }

    /// Whether a growth found no memory.
    pub fn is_memory(&self) -> bool
        ensures { result ≡ is_memory self.now.cause }
    {
        matches!(self.reason, Reason::Memory)
    }

    /// The message, copied: the text with which the error was made, that of the lexical fault, or `out of memory`. Fails
    /// only where no memory is found.
    pub fn message(&self, alloc: Global) -> Result<String, AllocError>
        ensures { IfOk result (λ text. string_bytes text ≡ message_of self.now.cause) }
    {
        String::from_str(alloc, self.text())
    }

    /// Gives the text whose place it is: `Display` writes from now on, behind the message, the lines that show the place in
    /// it, which are those of [`push_place`](crate::push_place); of an error that
    /// [is want of memory](Error::is_memory), none, for which no memory is asked. The place and the message stay. Refused
    /// only where no memory is found, and the error is then unchanged.
    pub fn set_text(&mut self, text: &str) -> Result<(), AllocError>
        ensures shown { OnOk result (self.new ≡ told_in text.now self.old) }
        ensures refused { OnErr result (self.new ≡ self.old) }
        ensures memory { OnErr result (is_memory self.old.cause ≡ false) }
    {
        let shown = self.shown_in(text)?;
        self.shown = shown;
        Ok(())
    }

    fn shown_in(&self, text: &str) -> Result<Shown, AllocError>
        ensures told { IfOk result (λ shown. lines_of shown ≡ Some (lines_told text.now self.now.place self.now.cause)) }
        ensures memory { OnErr result (is_memory self.now.cause ≡ false) }
    {
        let alloc = match &self.reason {
            Reason::Said(message) => *message.allocator(),
            Reason::Lexical(alloc, _) => *alloc,
            Reason::Memory => return Ok(Shown::Nothing),
        };
        let lines = lines_at(alloc, text, self.place.offset())?;
        Ok(Shown::Lines(lines))
    }

    /// The message.
    fn text(&self) -> &str
        ensures { result.now ≡ message_of self.now.cause }
    {
        match &self.reason {
            Reason::Said(text) => text.as_str(),
            Reason::Lexical(_, error) => lexical_text(*error),
            Reason::Memory => "out of memory",
        }
    }
}

impl From<AllocError> for Error {
    ghost use Rattle.wast_parser_base.specs.Problem.{Memory};

    ghost from_gives = { λ _ e. e ≡ record { place = 0; cause = Memory; lines = None } };

    fn from(_e: AllocError) -> Self {
        Error::memory()
    }
}

impl<T: Drop> From<AllocFailed<T>> for Error {
    ghost use Rattle.wast_parser_base.specs.Problem.{Memory};

    ghost from_gives = { λ _ e. e ≡ record { place = 0; cause = Memory; lines = None } };

    fn from(_e: AllocFailed<T>) -> Self {
        Error::memory()
    }
}

impl fmt::Display for Error {
    ghost output = { λ e. Some (displayed e) };

    fn fmt<W: fmt::Write>(&self, f: &mut fmt::Formatter<W>) -> fmt::Result {
        let text = self.text();
        match &self.shown {
            Shown::Offset => {
                let offset = self.place.offset();
                write!(f, "{text} at byte offset {offset}")
            }
            Shown::Nothing => write!(f, "{text}"),
            Shown::Lines(lines) => write!(f, "{text}{lines}"),
        }
    }
}

impl std::error::Error for Error {}

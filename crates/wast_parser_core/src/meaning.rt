//! What can be read, looked for, and repeated.
ghost use Rattle.std.specs.Prelude.{◌≡◌, ◌||◌, ℕ, List, [], Some, true, false};
ghost use Rattle.wast_grammar.specs.Tokens.{Name};
ghost use Rattle.wast_grammar.specs.Look.{ask, apart, faults, any_end};
ghost use Rattle.wast_grammar.specs.Grammar.{Syntax};
ghost use Rattle.wast_grammar.specs.Lawful.{Lawful, Leads};
ghost use Rattle.wast_parser_core.specs.State.{ahead, knowing, KeepsWith, past};
ghost use Rattle.wast_parser_core.specs.Reading.{Gives, Asks};
ghost use Rattle.wast_parser_core.specs.Cursors.{stands};

use crate::cursor::Cursor;
use crate::parser::Parser;
use wast_parser_base::Error;

/// What the grammar says of a type.
pub trait Meaning: Sized + Drop {
    /// What the grammar sees of a value.
    ghost Tree: { Type 0 };

    ghost tree: { Self → Tree };

    /// Which tokens spell it, and how it is read.
    ghost syntax: { Syntax Name ℕ Tree };

    /// The annotations that it registers while it is read.
    ghost registers: { List (List ℕ) } = { [] };

    /// What is read is spelled, and what is spelled is read.
    fn lawful()
        ensures { Lawful Self.syntax };
}

/// What can be read.
pub trait Parse<'a>: Meaning {
    /// Reads one exactly where the grammar does, and takes the tokens that it takes; refused elsewhere, or for want of
    /// memory. Depth and registered names are as they were on both outcomes, and, from outside of the groups that are
    /// passed, the parser stands where it did or directly behind the last token that it took.
    fn parse(parser: &mut Parser<'a>) -> Result<Self, Error>
        ensures read { Gives Self.tree result (knowing Self.registers parser.new) (Self.syntax.reads (ahead (knowing Self.registers parser.old))) }
        ensures keeps { KeepsWith Self.registers parser.old parser.new };
}

/// What can be looked for: it registers no annotation, and how it begins can be told.
pub trait Peek: Meaning {
    /// Whether one begins here, by kind and text of the first token, and of the second where that stands behind a
    /// parenthesis; refused where no token can be read there.
    fn peek(cursor: Cursor<'_, '_>) -> Result<bool, Error>
        ensures { Asks result (stands cursor.entry).source (ask Self.syntax.starts (ahead (stands cursor.entry))) };

    /// The same, behind one token.
    fn peek2(cursor: Cursor<'_, '_>) -> Result<bool, Error>
        ensures { Asks result (stands cursor.entry).source (ask Self.syntax.starts (past (ahead (stands cursor.entry)))) }
    {
        match cursor.token()? {
            Some((_, rest)) => Self::peek(rest),
            None => Self::peek(cursor),
        }
    }

    /// Where a spelling that isn't nothing stands it is seen, and what is seen looks as one that is spelled.
    fn leads()
        ensures { Leads Self.syntax.spells Self.syntax.starts };

    /// What it is called in errors.
    fn display() -> &'static str;

    ghost plain: { Self.registers ≡ [] };

    ghost sure: { apart (faults Self.syntax.starts) Self.syntax.starts ≡ true };
}

/// What can be repeated or left out: it is never nothing, and no end looks as one begins.
pub trait Item: Peek {
    ghost inside: { (Self.syntax.empty || any_end Self.syntax.starts) ≡ false };
}

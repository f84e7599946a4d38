//! Looks for one of several at a parser.
ghost use Rattle.std.specs.Prelude.{◌≡◌, ℕ, List, refl, true};
ghost use Rattle.wast_grammar.specs.Tokens.{Name};
ghost use Rattle.wast_parser.specs.Look.{Test, ask, apart, faults, join};
ghost use Rattle.wast_parser.specs.Lawful.{Lawful, Leads};
ghost use Rattle.wast_parser.specs.State.{ahead};
ghost use Rattle.wast_parser.specs.Reading.{Asks};
ghost use Rattle.wast_parser.specs.Cursors.{stands};
ghost use Rattle.wast_field_syntax.specs.DefinitionSyntax.{plain_starts, lone_instruction};

use wast_mnemonics::Word;
use wast_parser::{Cursor, Error, Meaning, Parser, Peek};

/// What another look found here, or else whether one begins here: what both ask, joined. Refused where that look was, or this one is;
/// neither may ask for what the other takes for a fault.
pub fn or_begins<T: Peek>(found: Result<bool, Error>, parser: &Parser<'_>) -> Result<bool, Error>
    ensures { (tests : List Test) → apart (faults (join tests T.syntax.starts)) (join tests T.syntax.starts) ≡ true → Asks found parser.now.source (ask tests (ahead parser.now)) → Asks result parser.now.source (ask (join tests T.syntax.starts) (ahead parser.now)) }
{
    match found {
        Ok(true) => Ok(true),
        Ok(false) => parser.peek::<T>(),
        Err(e) => Err(e),
    }
}

/// A word of an instruction in parentheses, to be looked for: a peek tells where a group of an instruction begins.
#[derive(Drop)]
pub struct InstructionGroup;

impl Meaning for InstructionGroup {
    ghost Tree = { Unit {0} };

    ghost tree = { λ _. tt };

    ghost syntax = { lone_instruction };

    fn lawful()
        ensures { Lawful (lone_instruction {N = Name} {P = ℕ}) }
    {}
}

impl Peek for InstructionGroup {
    ghost plain = { refl };

    ghost sure = { refl };

    fn leads()
        ensures { Leads (lone_instruction {N = Name} {P = ℕ}).spells plain_starts }
    {}

    fn peek(cursor: Cursor<'_, '_>) -> Result<bool, Error>
        ensures { Asks result (stands cursor.entry).source (ask plain_starts (ahead (stands cursor.entry))) }
    {
        cursor.peek_group_among::<Word>()
    }

    fn display() -> &'static str {
        "an instruction"
    }
}

//! Branch hints: `(@metadata.code.branch_hint s)`.
ghost use Rattle.std.specs.Prelude.{ℕ, List, [], ◌∷◌, refl};
ghost use Rattle.wast_grammar.specs.Tokens.{Name};
ghost use Rattle.wast_parser.specs.Lawful.{Lawful, Leads};
ghost use Rattle.wast_parser.specs.Look.{ask};
ghost use Rattle.wast_parser.specs.Grammar.{maybe};
ghost use Rattle.wast_parser.specs.State.{ahead, Keeps};
ghost use Rattle.wast_parser.specs.Reading.{Asks, Gives};
ghost use Rattle.wast_parser.specs.Cursors.{stands};
ghost use Rattle.wast_expressions.specs.Expressions.{hint, hint_body, hint_tests};
ghost use Rattle.wast_expressions.specs.Views.{IsHintOf};

use wast_parser::{Cursor, Error, Item, Meaning, Parse, Parser, Peek};

/// A hint whether a branch is taken: the index of the instruction that bears it, among those of its expression, and its
/// value, 0 or 1 where it is read.
#[derive(Clone, Copy, PartialEq, Eq, Drop)]
pub struct BranchHint {
    pub instr_index: u32,
    pub value: u32,
}

/// Reads the value of a hint, where one stands.
pub(crate) fn hint(parser: &mut Parser<'_>) -> Result<Option<u32>, Error>
    ensures read { Gives (λ h. h) result parser.new ((maybe hint_tests hint).reads (ahead parser.old)) }
    ensures keeps { Keeps parser.old parser.new }
{
    match Option::<HintValue>::parse(parser) {
        Ok(Some(hint)) => Ok(Some(hint.value)),
        Ok(None) => Ok(None),
        Err(e) => Err(e),
    }
}

/// The value of a hint.
#[derive(Drop)]
pub(crate) struct HintValue {
    pub(crate) value: u32,
}

impl Meaning for HintValue {
    ghost Tree = { ℕ };

    ghost tree = { λ h. h.value };

    ghost syntax = { hint };

    fn lawful()
        ensures { Lawful (hint {N = Name} {P = ℕ}) }
    {}
}

impl<'a> Parse<'a> for HintValue {
    fn parse(parser: &mut Parser<'a>) -> Result<Self, Error> {
        let body: HintBody = parser.parens_of()?;
        Ok(HintValue { value: body.value })
    }
}

impl Peek for HintValue {
    ghost plain = { refl };

    ghost sure = { refl };

    fn leads()
        ensures { Leads (hint {N = Name} {P = ℕ}).spells hint_tests }
    {}

    fn peek(cursor: Cursor<'_, '_>) -> Result<bool, Error>
        ensures { Asks result (stands cursor.entry).source (ask hint_tests (ahead (stands cursor.entry))) }
    {
        cursor.peek_annotation("metadata.code.branch_hint")
    }

    fn display() -> &'static str {
        "a branch hint"
    }
}

impl Item for HintValue {
    ghost inside = { refl };
}

/// What stands between the parentheses of a hint.
#[derive(Drop)]
struct HintBody {
    value: u32,
}

impl Meaning for HintBody {
    ghost Tree = { List ℕ };

    ghost tree = { λ h. h.value ∷ [] };

    ghost syntax = { hint_body };

    fn lawful()
        ensures { Lawful (hint_body {N = Name} {P = ℕ}) }
    {}
}

impl<'a> Parse<'a> for HintBody {
    fn parse(parser: &mut Parser<'a>) -> Result<Self, Error> {
        parser.mark("metadata.code.branch_hint")?;
        let span = parser.cur_span();
        let bytes = parser.string()?;
        match value_of(bytes.as_slice()) {
            Some(value) => Ok(HintBody { value }),
            None => Err(parser.error_at(span, "expected a branch hint of one byte, 0 or 1")),
        }
    }
}

/// The value that these bytes are, where they are a hint's.
fn value_of(bytes: &[u8]) -> Option<u32>
    ensures { IsHintOf bytes.now result }
{
    match bytes {
        [value] if *value < 2 => Some(*value as u32),
        _ => None,
    }
}

//! The laws of expressions: functions whose contracts are the laws. They do nothing.
ghost use Rattle.wast_parser.specs.Grammar.{seen};
ghost use Rattle.wast_parser.specs.Lawful.{Lawful};
ghost use Rattle.wast_expressions.specs.Expressions.{data_offset, expression, folded_instruction, plain, without_hints};
ghost use Rattle.wast_expressions.specs.Laws.{Folding, HintsRise, OneReading};

use crate::operation::Operation;

/// Tokens spell one list of items, up to one place where an end may follow.
pub fn one_reading<I: Operation>()
    ensures { OneReading I.syntax I.heads }
{
    I::lawful();
    I::heeds();
}

/// The indices of the hints of an expression rise strictly.
pub fn hints_rise<I: Operation>()
    ensures { HintsRise I.Tree }
{}

/// Tokens that spell items give each instruction tokens of its own. These items, and their instructions written flat, with these
/// very tokens and with a word for each `else` and `end`, spell one expression; and they can be written so.
pub fn folding<I: Operation>()
    ensures { Folding I.syntax I.heads I.made }
{
    I::lawful();
    I::heeds();
    I::spelled();
}

/// What the calls of this crate read is spelled, and what is spelled is read: items, an instruction in parentheses, folded or
/// plain, and the offset of data.
pub fn read_as_spelled<I: Operation>()
    ensures items { Lawful (expression I.syntax I.heads I.made) }
    ensures folded { Lawful (folded_instruction I.syntax I.heads I.made) }
    ensures plain { Lawful (seen (without_hints I.syntax I.heads) (plain I.syntax I.heads)) }
    ensures offset { Lawful (data_offset I.syntax I.heads I.made) }
{
    I::lawful();
    I::heeds();
}

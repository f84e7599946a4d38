//! Laws of what can be read: functions whose contracts are the laws. They do nothing.
ghost use Rattle.wast_parser_core.specs.Laws.{OneValue, ReadWhereSpelled, StaysOrStandsBehind};

use crate::meaning::Meaning;

/// Where an end may follow a value, tokens spell it exactly where reading takes all of them and answers it.
pub fn read_where_spelled<T: Meaning>()
    ensures { ReadWhereSpelled T.syntax }
{
    T::lawful();
}

/// Where an end may follow values, no tokens spell two.
pub fn one_value<T: Meaning>()
    ensures { OneValue T.syntax }
{
    T::lawful();
}

/// Outside of the groups that are passed, a parser that reads stands where it did, or directly behind the last token that it
/// took.
pub fn stays_or_stands_behind()
    ensures { StaysOrStandsBehind }
{}

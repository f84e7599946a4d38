//! The laws of numbers: functions that do nothing, whose contracts are the laws.

ghost use Rattle.wast_lexer_numbers.specs.Laws.{ScansNumbers};

/// The scan finds the kind of each number, and finds none elsewhere.
pub fn scans_numbers()
    ensures { ScansNumbers }
{}

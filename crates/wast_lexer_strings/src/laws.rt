//! The laws of strings: functions that do nothing, whose contracts are the laws.

ghost use Rattle.wast_lexer_strings.specs.Laws.{ReadsWhatIsWritten, ReadsStringsAlone};

/// A string stands for at most one list of bytes, and a scan reads just the strings.
pub fn one_meaning()
    ensures reads { ReadsWhatIsWritten }
    ensures alone { ReadsStringsAlone }
{}

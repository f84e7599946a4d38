//! The laws of tokens: functions that do nothing, whose contracts are the laws.

ghost use Rattle.wast_lexer.specs.Laws.{NineAreRefused, OneTiling, OneToken};

/// A text is at most one list of tokens.
pub fn one_tiling()
    ensures { OneTiling }
{}

/// At most one token begins a text, whatever follows it.
pub fn one_token()
    ensures { OneToken }
{}

/// A text may stand in a comment or a string exactly where none of its characters is one of the nine that are refused.
pub fn nine_are_refused()
    ensures { NineAreRefused }
{}

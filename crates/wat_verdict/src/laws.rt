//! Laws over the verdicts of inputs: functions without parameters whose contracts are the laws. They do nothing.

ghost use Rattle.wat_verdict.specs.Alike.{Renaming, TokensDecide};
ghost use Rattle.wat_verdict.specs.Laws.{EqualBinaries, OneMeaning, OneVerdict};
ghost use Rattle.wat_verdict.specs.Spaced.{CommentsAside};

/// Of all conditions at most one is the first that an input fails, none is where the input is accepted, and it is worth one thing at
/// most: the module that it means, or the pieces of a binary that it spells. No input fails no condition and is accepted as nothing.
pub fn one_verdict()
    ensures { OneVerdict }
{}

/// No text means two modules: one list of tokens, one tree, one unfolding, one numbering.
pub fn one_meaning()
    ensures { OneMeaning }
{}

/// Two plain texts with binaries have equal ones exactly where they mean the same module.
pub fn equal_binaries()
    ensures { EqualBinaries }
{}

/// Two UTF-8 texts of at most 4294967295 bytes that lex, and whose significant tokens agree in kind and text, get the same binary or fail the
/// same condition, places aside; so do such a text and the same with spaces over a comment, which fail it at the same place.
pub fn tokens_decide()
    ensures tokens { TokensDecide }
    ensures comments { CommentsAside }
{}

/// Two such texts whose significant tokens differ by a renaming of identifiers that is one to one fail the same condition, places and names
/// aside, or are both accepted, and the modules that they mean are the same without their names.
pub fn renaming()
    ensures { Renaming }
{}

//! Laws of the text's table: functions without parameters whose contracts are the laws. They do nothing.

ghost use Rattle.wast_mnemonics.specs.Laws.{EntriesByMnemonic, EveryWord, MnemonicsOnce, TableWhole, TextEntryCount, UncoveredWhole};
ghost use Rattle.wast_mnemonics.specs.Samples.{SamplesFound};

/// The text's table has 623 entries. Each mnemonic stands once, with the entries of the table of instructions that have
/// it; all of these are there, and all instructions that are refused as uncovered. A few entries are given by hand.
pub fn text_table()
    ensures entries { TextEntryCount }
    ensures once { MnemonicsOnce }
    ensures by_mnemonic { EntriesByMnemonic }
    ensures listed { TableWhole }
    ensures uncovered { UncoveredWhole }
    ensures samples { SamplesFound }
{}

/// Each word has the entry of its mnemonic, with the operands that its variant says.
pub fn every_word()
    ensures { EveryWord }
{}

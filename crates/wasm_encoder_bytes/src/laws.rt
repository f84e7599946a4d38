//! Laws of the spellings: functions without parameters whose contracts are the laws. They do nothing.

ghost use Rattle.wasm_encoder_bytes.specs.SpellingLaws.{ShortestUnsigned, ShortestSigned, OneUnsigned, OneSigned, OneName, OneList, IsBuiltByItems, SpellingExamples};

/// What is written for a number is the byte list that decodes to it and than which no shorter one does,
/// unsigned and signed; no other byte list is that.
pub fn shortest()
    ensures unsigned { ShortestUnsigned }
    ensures signed { ShortestSigned }
{}

/// Numbers, names and lists of numbers are told apart by their bytes, whatever follows these.
pub fn one_reading()
    ensures unsigned { OneUnsigned }
    ensures signed { OneSigned }
    ensures names { OneName }
    ensures lists { OneList }
{}

/// A list that is built item by item is the list of these items.
pub fn lists()
    ensures { IsBuiltByItems }
{}

/// A few numbers, a name and a list, and their bytes, by hand.
pub fn spelling_examples()
    ensures { SpellingExamples }
{}

//! Laws of binaries: functions without parameters whose contracts are the laws. They do nothing.

ghost use Rattle.wasm_layout.specs.Examples.{LayoutExamples};
ghost use Rattle.wasm_layout.specs.Laws.{AsBuilt, HintPlaces, OneBinary, OneReading};

/// Bytes are read as one module at most.
pub fn one_reading()
    ensures { OneReading }
{}

/// A module has one binary at most.
pub fn one_binary()
    ensures { OneBinary }
{}

/// Where a module has a branch hint, the section of hints of its binary lists the hint's function with the place of the hint's instruction
/// and the value, and so far behind the size of that function's body the bytes of the instruction begin.
pub fn hint_places()
    ensures { HintPlaces }
{}

/// Behind its number each section is what the crates say that build it.
pub fn as_built()
    ensures { AsBuilt }
{}

/// A few modules and their bytes, by hand; and one that is read, so the laws say something.
pub fn layout_examples()
    ensures { LayoutExamples }
{}

//! Laws of whole texts and of their binaries: functions without parameters whose contracts are the laws. They do nothing; `folding`
//! calls `every_word`, a law of the text's table.

ghost use Rattle.wat_laws.specs.FlatExamples.{FlatExamples};
ghost use Rattle.wat_laws.specs.HintExamples.{HintExample};
ghost use Rattle.wat_laws.specs.HintPlaces.{HintPlaces};
ghost use Rattle.wat_laws.specs.Laws.{EachFlat, Folding};
ghost use Rattle.wat_laws.specs.RenamedExamples.{RenamedExamples};
ghost use Rattle.wat_laws.specs.Unnamed.{WithoutNames};
ghost use Rattle.wat_laws.specs.Written.{WrittenOut};
ghost use Rattle.wat_laws.specs.WrittenExamples.{WrittenExamples};

use wast_mnemonics::laws::every_word;

/// Where a module has a branch hint, the section of hints of its binary lists the hint's function with the distance of the hint's
/// instruction, 01 and the value, and so far from where that function's body starts the bytes of the instruction begin. Both sections are
/// the module's own: each stands behind the header and whole pieces.
pub fn hint_places()
    ensures { HintPlaces }
{}

/// A hint of a module by hand, its binary, and the bytes that list it and those at its place.
pub fn hint_example()
    ensures { HintExample }
{}

/// Of a module that a text means, the binary without names is the header and all pieces of its binary but the section of names. So where
/// two texts mean the same but for names, as after a renaming, their binaries differ in that section alone.
pub fn without_names()
    ensures { WithoutNames }
{}

/// Two texts whose identifiers differ by a renaming, by hand, and pairs whose identifiers differ by none.
pub fn renamed_examples()
    ensures { RenamedExamples }
{}

/// A text and the same with bodies of functions written flat, those without hints, mean the same module, or none does. Where both are UTF-8
/// and at most 4294967295 bytes, they fail the same condition, places aside, or get the same binary. Written flat each instruction keeps its
/// own tokens, and the words `else` and `end` stand for what groups make; so `(func (if (local.get 0) (then nop) (else unreachable)))` is
/// `(func local.get 0 if nop else unreachable end)`. Each body without hints can be written flat.
pub fn folding()
    ensures worth { Folding }
    ensures flat { EachFlat }
{
    every_word();
}

/// That pair of texts, by hand, each in a module.
pub fn flat_examples()
    ensures { FlatExamples }
{}

/// A text and one that spells its fields *written out* both mean a module or neither does, and these modules are the same without their
/// names, and so are their binaries without the section of names. Where both are UTF-8 and at most 4294967295 bytes, both are accepted or
/// neither is, though they may fail different conditions. Written out, no import, export or segment stands inside of another field; what has
/// to be said then and has no name takes one that occurs nowhere else. So `(module (func (export "a")))` is
/// `(module (func $f) (export "a" (func $f)))`.
pub fn written_out()
    ensures { WrittenOut }
{}

/// That pair of texts, and `(module (memory $m (data "ab")))` with
/// `(module (memory $m 1 1) (data (memory $m) (i32.const 0) "ab"))`, by hand: each second spells what the first does, written out.
pub fn written_examples()
    ensures { WrittenExamples }
{}

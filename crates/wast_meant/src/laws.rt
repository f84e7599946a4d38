//! Laws of meanings: functions without parameters whose contracts are the laws. They do nothing.

ghost use Rattle.wast_meant.specs.Examples.{MeaningExamples};
ghost use Rattle.wast_meant.specs.InstructionExamples.{InstructionExamples};
ghost use Rattle.wast_meant.specs.Laws.{OneMeaning};
ghost use Rattle.wast_meant.specs.SegmentExamples.{SegmentExamples};

/// A tree stands for one module at most.
pub fn one_meaning()
    ensures { OneMeaning }
{}

/// A few trees and their binaries, by hand, and forms that have none.
pub fn meaning_examples()
    ensures { MeaningExamples }
{}

/// The same, an instruction of each kind of operands whose bytes are in another order than the text, or stand for what isn't written.
pub fn instruction_examples()
    ensures { InstructionExamples }
{}

/// The same, an element segment of each kind.
pub fn segment_examples()
    ensures { SegmentExamples }
{}

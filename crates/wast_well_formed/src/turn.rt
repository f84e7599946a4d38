//! What instructions do to blocks.
ghost use Rattle.std.specs.Prelude.{◌≡◌};
ghost use Rattle.wast_core_instr.specs.InstructionViews.{instruction_tree};
ghost use Rattle.wast_meaning.specs.Scope.{turn_of_head};
ghost use Rattle.wast_well_formed.specs.Views.{turn_view};

use wast_core_instr::Instruction;

/// What an instruction does to the blocks that are open (5.4).
#[derive(Clone, Copy, Debug, PartialEq, Eq, Drop)]
pub enum Turn {
    /// It opens one: `block`, `loop`, `if`, `try` and `try_table`.
    Opens,
    /// It closes the innermost: `end` and `delegate`.
    Closes,
    Stays,
}

impl Turn {
    /// That of an instruction.
    pub fn of(instruction: &Instruction<'_>) -> Turn
        ensures { turn_view result ≡ turn_of_head (instruction_tree instruction.now).head }
    {
        match instruction {
            Instruction::Block(_)
            | Instruction::Loop(_)
            | Instruction::If(_)
            | Instruction::Try(_)
            | Instruction::TryTable(_) => Turn::Opens,
            Instruction::End(_) | Instruction::Delegate(_) => Turn::Closes,
            _ => Turn::Stays,
        }
    }
}

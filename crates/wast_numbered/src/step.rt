//! What instructions do to labels.
ghost use Rattle.std.specs.Prelude.{◌≡◌, IfOk, option_map};
ghost use Rattle.wast_parser.specs.Identifiers.{identifier_tree};
ghost use Rattle.wast_core_instr.specs.InstructionViews.{instruction_tree};
ghost use Rattle.wast_meaning.specs.Scope.{own_label};
ghost use Rattle.wast_numbered.specs.Steps.{step_of, step_view};

use std::alloc::{AllocError, Global};
use wast_core_instr::Instruction;
use wast_names::copied_id;
use wast_parser::Id;
use wast_well_formed::Turn;

/// What an instruction does to the blocks that are open, and the label of the one that it opens.
#[derive(Drop)]
pub(crate) struct Step<'a> {
    pub(crate) turn: Turn,
    pub(crate) label: Option<Id<'a>>,
}

impl<'a> Step<'a> {
    /// That of an instruction. Fails only for want of memory.
    pub(crate) fn of(alloc: Global, instruction: &Instruction<'a>) -> Result<Self, AllocError>
        ensures { IfOk result (λ step. step_view step ≡ step_of (instruction_tree instruction.now)) }
    {
        let turn = Turn::of(instruction);
        let label = label_of(alloc, instruction)?;
        Ok(Step { turn, label })
    }
}

/// The label of the block that an instruction opens, if it has one.
fn label_of<'a>(alloc: Global, instruction: &Instruction<'a>) -> Result<Option<Id<'a>>, AllocError>
    ensures { IfOk result (λ label. option_map identifier_tree label ≡ own_label (instruction_tree instruction.now).operands) }
{
    match instruction {
        Instruction::Block(block) => copied_id(alloc, &block.label),
        Instruction::Loop(block) => copied_id(alloc, &block.label),
        Instruction::If(block) => copied_id(alloc, &block.label),
        Instruction::Try(block) => copied_id(alloc, &block.label),
        Instruction::TryTable(try_table) => copied_id(alloc, &try_table.block.label),
        _ => Ok(None),
    }
}

//! The names of labels.
ghost use Rattle.std.specs.Prelude.{map};
ghost use Rattle.std.specs.List.{flat_map};
ghost use Rattle.wast_core_instr.specs.InstructionViews.{instruction_tree};
ghost use Rattle.wast_name_maps.specs.Gathered.{label_names};
ghost use Rattle.wast_name_maps.specs.Numbered.{BuildsNames, NamesJoin};

use crate::given::add_identified;
use crate::names::Names;
use std::alloc::Global;
use wasm_encoder_base::EncodeError;
use wast_module_fields::Instruction;

/// The names of the labels of a body, by the instructions that open blocks, in their order.
pub(crate) fn names_of_labels(
    alloc: Global,
    instructions: &[Instruction<'_>],
) -> Result<Names, EncodeError>
    ensures { BuildsNames result (flat_map label_names (map instruction_tree instructions.now)) }
{
    let mut names = Names::new(alloc);
    add_labels(instructions, &mut names)?;
    Ok(names)
}

/// The labels of instructions, one after the other.
fn add_labels(instructions: &[Instruction<'_>], names: &mut Names) -> Result<(), EncodeError>
    ensures { NamesJoin result names.old names.new (flat_map label_names (map instruction_tree instructions.now)) }
{
    for instruction in instructions {
        add_label(instruction, names)?;
    }
    Ok(())
}

/// The label of the block that an instruction opens, if it opens one.
fn add_label(instruction: &Instruction<'_>, names: &mut Names) -> Result<(), EncodeError>
    ensures { NamesJoin result names.old names.new (label_names (instruction_tree instruction.now)) }
{
    match instruction {
        Instruction::Block(block) => add_identified(&block.label, names),
        Instruction::Loop(block) => add_identified(&block.label, names),
        Instruction::If(block) => add_identified(&block.label, names),
        Instruction::Try(block) => add_identified(&block.label, names),
        Instruction::TryTable(try_table) => add_identified(&try_table.block.label, names),
        Instruction::End(_) => Ok(()),
        Instruction::Delegate(_) => Ok(()),
        _ => Ok(()),
    }
}

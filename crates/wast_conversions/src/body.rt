//! Instructions of a function's body.
ghost use Rattle.std.specs.Prelude.{◌≡◌, [], OnOk};
ghost use Rattle.wasm_encoder_base.specs.Encodes.{Encodes};
ghost use Rattle.wasm_encoder_base.specs.Instr.{instr_bytes, IsInstr};
ghost use Rattle.wasm_encoder_instr.specs.Instruction.{instr_view, can_encode_instr, fits_instr};
ghost use Rattle.wast_core_instr.specs.InstructionViews.{instruction_operands, instruction_tree};
ghost use Rattle.wast_conversions.specs.Operands.{OperandsAligned};
ghost use Rattle.wast_conversions.specs.Instructions.{instr_meant};
ghost use Rattle.wast_conversions.specs.Resolved.{InstrResolved};
ghost use Rattle.wast_conversions.specs.Covered.{instr_forms};
ghost use Rattle.wast_conversions.specs.Rows.{bytes_meant, FitsMeant};

use crate::instructions::instruction;
use std::alloc::Global;
use wasm_encoder_base::EncodeError;
use wasm_encoder_code::Function;
use wast_core_instr::Instruction;

/// Appends an instruction (6.5) to a body. Refused for want of memory, and as too large where a count in it is past 4294967295; the
/// body is unchanged then.
pub fn push_instruction(
    alloc: Global,
    instr: &Instruction<'_>,
    body: &mut Function,
) -> Result<(), EncodeError>
    requires resolved { InstrResolved (instruction_tree instr.now) }
    requires covered { instr_forms (instruction_tree instr.now) ≡ [] }
    requires aligned { OperandsAligned (instruction_operands instr.now) }
    ensures same { Encodes (bytes_meant instr.now) (FitsMeant instr.now) body.old body.new result }
    ensures sound { OnOk result (IsInstr (instr_meant (instruction_tree instr.now))) }
{
    match instruction(alloc, instr) {
        Ok(converted) => push_encoded(body, &converted),
        Err(_) => Err(EncodeError::Memory),
    }
}

/// Appends an instruction of the encoder to a body. Refused for want of memory, and as too large where a count in it is past 4294967295;
/// the body is unchanged then.
pub fn push_encoded(
    body: &mut Function,
    instruction: &wasm_encoder_code::Instruction<'_>,
) -> Result<(), EncodeError>
    requires { can_encode_instr instruction.now }
    ensures { Encodes (instr_bytes (instr_view instruction.now)) (fits_instr instruction.now) body.old body.new result }
{
    body.instruction(instruction)?;
    Ok(())
}

//! Constant expressions.
ghost use Rattle.std.specs.Prelude.{◌≡◌, [], All, IfOk, OnOk, IsErrOf, map};
ghost use Rattle.std.specs.List.{flat_map, AllByRecursion};
ghost use Rattle.wasm_encoder_base.specs.Encodes.{Encodes};
ghost use Rattle.wasm_encoder_base.specs.Instr.{instr_bytes, counts_fit, IsInstr};
ghost use Rattle.wasm_encoder_code.specs.Sink.{IsMade};
ghost use Rattle.wast_core_instr.specs.InstructionViews.{instruction_operands, instruction_tree};
ghost use Rattle.wast_core_instr.specs.ExpressionViews.{expression_tree};
ghost use Rattle.wast_conversions.specs.Operands.{OperandsAligned};
ghost use Rattle.wast_conversions.specs.Instructions.{instr_meant, instrs_meant};
ghost use Rattle.wast_conversions.specs.Resolved.{InstrResolved, InstrsResolved};
ghost use Rattle.wast_conversions.specs.Covered.{instr_forms, instrs_forms};
ghost use Rattle.wast_conversions.specs.Rows.{bytes_meant, FitsMeant};

use crate::instructions::instruction;
use std::alloc::Global;
use wasm_encoder_base::{Encode, EncodeError};
use wasm_encoder_code::ConstExpr;
use wast_core_instr::{Expression, Instruction};

/// The encoder's constant expression that an expression (6.5, expressions) stands for whose alignments, in bytes, are powers of two below
/// 65536: its instructions. Refused for want of memory, and as too large where a count in them is past 4294967295.
pub fn const_expr(alloc: Global, expr: &Expression<'_>) -> Result<ConstExpr, EncodeError>
    requires resolved { InstrsResolved (expression_tree expr.now).instrs }
    requires covered { instrs_forms (expression_tree expr.now).instrs ≡ [] }
    requires aligned { All (λ i. OperandsAligned i.operands) (expression_tree expr.now).instrs }
    ensures same { IsMade (flat_map instr_bytes (instrs_meant (expression_tree expr.now).instrs)) (All (λ i. counts_fit i.operands) (instrs_meant (expression_tree expr.now).instrs)) result }
    ensures sound { OnOk result (AllByRecursion IsInstr (instrs_meant (expression_tree expr.now).instrs)) }
{
    match instruction_bytes(alloc, &expr.instrs) {
        Ok(bytes) => ConstExpr::raw(alloc, &bytes),
        Err(e) => Err(e),
    }
}

/// The bytes of instructions, one after another.
fn instruction_bytes(alloc: Global, instrs: &[Instruction<'_>]) -> Result<Vec<u8>, EncodeError>
    requires resolved { All (λ i. InstrResolved (instruction_tree i)) instrs.now }
    requires covered { All (λ i. instr_forms (instruction_tree i) ≡ []) instrs.now }
    requires aligned { All (λ i. OperandsAligned (instruction_operands i)) instrs.now }
    ensures ok { IfOk result (λ bytes. bytes.items ≡ flat_map bytes_meant instrs.now) }
    ensures fits { OnOk result (All FitsMeant instrs.now) }
    ensures too_large { IsErrOf result EncodeError.TooLarge → All FitsMeant instrs.now → ⊥ }
    ensures sound { OnOk result (AllByRecursion IsInstr (instrs_meant (map instruction_tree instrs.now))) }
{
    let mut bytes = Vec::new(alloc);
    for instr in instrs {
        put_instruction(alloc, instr, &mut bytes)?;
    }
    Ok(bytes)
}

/// Appends the bytes of an instruction; refused, the sink's are unchanged.
fn put_instruction(
    alloc: Global,
    instr: &Instruction<'_>,
    sink: &mut Vec<u8>,
) -> Result<(), EncodeError>
    requires resolved { InstrResolved (instruction_tree instr.now) }
    requires covered { instr_forms (instruction_tree instr.now) ≡ [] }
    requires aligned { OperandsAligned (instruction_operands instr.now) }
    ensures same { Encodes (bytes_meant instr.now) (FitsMeant instr.now) sink.old.items sink.new.items result }
    ensures sound { OnOk result (IsInstr (instr_meant (instruction_tree instr.now))) }
{
    match instruction(alloc, instr) {
        Ok(converted) => converted.encode(sink),
        Err(_) => Err(EncodeError::Memory),
    }
}

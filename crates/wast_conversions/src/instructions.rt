//! Instructions.
ghost use Rattle.std.specs.Prelude.{◌≡◌, true, false, [], All, IfOk, OnOk, map, codes};
ghost use Rattle.std.specs.List.{flat_map, AllByRecursion};
ghost use Rattle.wasm_encoder_base.specs.Instr as binary;
ghost use Rattle.wasm_encoder_base.specs.Instr.{in_range, IsCatch, IsInstr};
ghost use Rattle.wasm_encoder_instr.specs.Catch.{catch_view};
ghost use Rattle.wasm_encoder_instr.specs.Instruction.{instr_mnemonic, instr_view, can_encode_instr};
ghost use Rattle.wast_value_types.specs.ValueViews.{val_tree};
ghost use Rattle.wast_operands.specs.OperandViews.{label_table_tree};
ghost use Rattle.wast_typed_operands.specs.TypedViews.{catch_tree, select_types_tree, try_table_tree};
ghost use Rattle.wast_mnemonics.specs.Mnemonics.{word_mnemonic};
ghost use Rattle.wast_core_instr.specs.InstructionTree as instr;
ghost use Rattle.wast_core_instr.specs.InstructionTree.{choose_second};
ghost use Rattle.wast_core_instr.specs.InstructionViews.{instruction_operands, instruction_tree};
ghost use Rattle.wast_core_instr.specs.WordViews.{instruction_word};
ghost use Rattle.wast_conversions.specs.Types.{number_of, val_meant};
ghost use Rattle.wast_conversions.specs.Operands.{block_meant, catch_meant, operands_meant, select_meant, OperandsAligned};
ghost use Rattle.wast_conversions.specs.Instructions.{instr_meant};
ghost use Rattle.wast_conversions.specs.Resolved.{ValResolved, CatchResolved, OperandsResolved, InstrResolved};
ghost use Rattle.wast_conversions.specs.Covered.{val_forms, operand_forms, instr_forms};
ghost use Rattle.wast_conversions.specs.Rows.{row_of, Chosen, IsListed};

use crate::bulk::bulk;
use crate::gc::gc;
use crate::indices::{all_indices, index, optional_index};
use crate::operands::{block_type, catch, mem_arg, memory_arg, table_arg};
use crate::types::{type_index, val_type, val_types};
use crate::vector_arg::vector_arg;
use std::alloc::{AllocError, Global};
use wasm_encoder_base::Items;
use wast_core_instr::Instruction;
use wast_operands::BrTableIndices;
use wast_parser::Index;
use wast_typed_operands::{SelectTypes, TryTable, TryTableCatch};
use wast_value_types::ValType;

/// The encoder's instruction that an instruction (6.5) stands for. It can be encoded where its alignment, in bytes, is a power of two below
/// 65536, or it has none. Fails only for want of memory.
pub fn instruction(
    alloc: Global,
    instruction: &Instruction<'_>,
) -> Result<wasm_encoder_instr::Instruction<'static>, AllocError>
    requires resolved { InstrResolved (instruction_tree instruction.now) }
    requires covered { instr_forms (instruction_tree instruction.now) ≡ [] }
    ensures same { IfOk result (λ i. instr_view i ≡ instr_meant (instruction_tree instruction.now)) }
    ensures aligned { IfOk result (λ i. OperandsAligned (instruction_operands instruction.now) → can_encode_instr i) }
    ensures sound { OperandsAligned (instruction_operands instruction.now) → OnOk result (IsInstr (instr_meant (instruction_tree instruction.now))) }
{
    with_operands(alloc, instruction)
}

/// The instruction of the same mnemonic, with the operands that are meant.
fn with_operands(
    alloc: Global,
    instruction: &Instruction<'_>,
) -> Result<wasm_encoder_instr::Instruction<'static>, AllocError>
    requires resolved { OperandsResolved (instruction_operands instruction.now) }
    requires covered { operand_forms (instruction_operands instruction.now) ≡ [] }
    requires listed { IsListed instruction.now }
    ensures mnemonic { IfOk result (λ i. instr_mnemonic i ≡ word_mnemonic (instruction_word instruction.now)) }
    ensures chosen { IfOk result (λ i. Chosen i (choose_second (instruction_operands instruction.now))) }
    ensures operands { IfOk result (λ i. (instr_view i).operands ≡ operands_meant (row_of (instruction_word instruction.now)) (instruction_operands instruction.now)) }
    ensures sound { OperandsAligned (instruction_operands instruction.now) → OnOk result (in_range (operands_meant (row_of (instruction_word instruction.now)) (instruction_operands instruction.now))) }
{
    match instruction {
        Instruction::Unreachable => Ok(wasm_encoder_instr::Instruction::Unreachable),
        Instruction::Nop => Ok(wasm_encoder_instr::Instruction::Nop),
        Instruction::ThrowRef => Ok(wasm_encoder_instr::Instruction::ThrowRef),
        Instruction::Return => Ok(wasm_encoder_instr::Instruction::Return),
        Instruction::CatchAll => Ok(wasm_encoder_instr::Instruction::CatchAll),
        Instruction::Drop => Ok(wasm_encoder_instr::Instruction::Drop),
        Instruction::Else(_) => Ok(wasm_encoder_instr::Instruction::Else),
        Instruction::End(_) => Ok(wasm_encoder_instr::Instruction::End),
        Instruction::Block(ty) => Ok(wasm_encoder_instr::Instruction::Block(block_type(ty))),
        Instruction::Loop(ty) => Ok(wasm_encoder_instr::Instruction::Loop(block_type(ty))),
        Instruction::If(ty) => Ok(wasm_encoder_instr::Instruction::If(block_type(ty))),
        Instruction::Try(ty) => Ok(wasm_encoder_instr::Instruction::Try(block_type(ty))),
        Instruction::Catch(number) => Ok(wasm_encoder_instr::Instruction::Catch(index(number))),
        Instruction::Throw(number) => Ok(wasm_encoder_instr::Instruction::Throw(index(number))),
        Instruction::Rethrow(number) => Ok(wasm_encoder_instr::Instruction::Rethrow(index(number))),
        Instruction::Br(number) => Ok(wasm_encoder_instr::Instruction::Br(index(number))),
        Instruction::BrIf(number) => Ok(wasm_encoder_instr::Instruction::BrIf(index(number))),
        Instruction::Call(number) => Ok(wasm_encoder_instr::Instruction::Call(index(number))),
        Instruction::ReturnCall(number) => Ok(wasm_encoder_instr::Instruction::ReturnCall(index(
            number,
        ))),
        Instruction::CallRef(number) => Ok(wasm_encoder_instr::Instruction::CallRef(index(number))),
        Instruction::ReturnCallRef(number) => Ok(wasm_encoder_instr::Instruction::ReturnCallRef(
            index(number),
        )),
        Instruction::Delegate(number) => Ok(wasm_encoder_instr::Instruction::Delegate(index(
            number,
        ))),
        Instruction::LocalGet(number) => Ok(wasm_encoder_instr::Instruction::LocalGet(index(
            number,
        ))),
        Instruction::LocalSet(number) => Ok(wasm_encoder_instr::Instruction::LocalSet(index(
            number,
        ))),
        Instruction::LocalTee(number) => Ok(wasm_encoder_instr::Instruction::LocalTee(index(
            number,
        ))),
        Instruction::GlobalGet(number) => Ok(wasm_encoder_instr::Instruction::GlobalGet(index(
            number,
        ))),
        Instruction::GlobalSet(number) => Ok(wasm_encoder_instr::Instruction::GlobalSet(index(
            number,
        ))),
        Instruction::TableGet(table) => Ok(wasm_encoder_instr::Instruction::TableGet(table_arg(
            table,
        ))),
        Instruction::TableSet(table) => Ok(wasm_encoder_instr::Instruction::TableSet(table_arg(
            table,
        ))),
        Instruction::MemorySize(memory) => Ok(wasm_encoder_instr::Instruction::MemorySize(
            memory_arg(memory),
        )),
        Instruction::MemoryGrow(memory) => Ok(wasm_encoder_instr::Instruction::MemoryGrow(
            memory_arg(memory),
        )),
        Instruction::BrTable(table) => br_table(alloc, table),
        Instruction::TryTable(table) => try_table(alloc, table),
        Instruction::Select(types) => select(alloc, types),
        Instruction::CallIndirect(call) => Ok(wasm_encoder_instr::Instruction::CallIndirect {
            type_index: type_index(&call.ty),
            table_index: optional_index(&call.table),
        }),
        Instruction::ReturnCallIndirect(call) => Ok(
            wasm_encoder_instr::Instruction::ReturnCallIndirect {
                type_index: type_index(&call.ty),
                table_index: optional_index(&call.table),
            },
        ),
        Instruction::I32Const(value) => Ok(wasm_encoder_instr::Instruction::I32Const(*value)),
        Instruction::I64Const(value) => Ok(wasm_encoder_instr::Instruction::I64Const(*value)),
        Instruction::Compare(op) => Ok(wasm_encoder_instr::Instruction::Compare(*op)),
        Instruction::Numeric(op) => Ok(wasm_encoder_instr::Instruction::Numeric(*op)),
        Instruction::Convert(op) => Ok(wasm_encoder_instr::Instruction::Convert(*op)),
        Instruction::Vector(op) => Ok(wasm_encoder_instr::Instruction::Vector(*op)),
        Instruction::VectorNarrow(op) => Ok(wasm_encoder_instr::Instruction::VectorNarrow(*op)),
        Instruction::VectorWide(op) => Ok(wasm_encoder_instr::Instruction::VectorWide(*op)),
        Instruction::VectorFloat(op) => Ok(wasm_encoder_instr::Instruction::VectorFloat(*op)),
        Instruction::Access(op, memarg) => Ok(wasm_encoder_instr::Instruction::Access(
            *op,
            mem_arg(memarg),
        )),
        Instruction::Atomic(op, memarg) => Ok(wasm_encoder_instr::Instruction::Atomic(
            *op,
            mem_arg(memarg),
        )),
        Instruction::AtomicRmw(op, memarg) => Ok(wasm_encoder_instr::Instruction::AtomicRmw(
            *op,
            mem_arg(memarg),
        )),
        Instruction::AtomicFence(_) => Ok(wasm_encoder_instr::Instruction::AtomicFence),
        Instruction::Bulk(op) => Ok(wasm_encoder_instr::Instruction::Bulk(bulk(op))),
        Instruction::Gc(op) => Ok(wasm_encoder_instr::Instruction::Gc(gc(op))),
        Instruction::VectorArg(op) => Ok(wasm_encoder_instr::Instruction::VectorArg(vector_arg(
            op,
        ))),
        Instruction::F32Const(_) | Instruction::F64Const(_) | Instruction::Proposal(_) =>
            unreachable!(),
    }
}

/// `br_table` (6.5, control instructions). Fails only for want of memory.
fn br_table(
    alloc: Global,
    table: &BrTableIndices<'_>,
) -> Result<wasm_encoder_instr::Instruction<'static>, AllocError>
    requires { OperandsResolved (instr.LabelTable (label_table_tree table.now).0 (label_table_tree table.now).1) }
    ensures mnemonic { IfOk result (λ i. instr_mnemonic i ≡ codes "br_table") }
    ensures chosen { IfOk result (λ i. Chosen i false) }
    ensures operands { IfOk result (λ i. (instr_view i).operands ≡ binary.LabelTable (map number_of (label_table_tree table.now).0) (number_of (label_table_tree table.now).1)) }
    ensures sound { OnOk result (in_range (binary.LabelTable (map number_of (label_table_tree table.now).0) (number_of (label_table_tree table.now).1))) }
{
    let labels = all_indices(alloc, &table.labels)?;
    Ok(wasm_encoder_instr::Instruction::BrTable(Items::owned(labels), index(&table.default)))
}

/// `try_table` (6.5, control instructions). Fails only for want of memory.
fn try_table(
    alloc: Global,
    table: &TryTable<'_>,
) -> Result<wasm_encoder_instr::Instruction<'static>, AllocError>
    requires resolved { OperandsResolved (instr.TryTable (try_table_tree table.now)) }
    requires covered { operand_forms (instr.TryTable (try_table_tree table.now)) ≡ [] }
    ensures mnemonic { IfOk result (λ i. instr_mnemonic i ≡ codes "try_table") }
    ensures chosen { IfOk result (λ i. Chosen i false) }
    ensures operands { IfOk result (λ i. (instr_view i).operands ≡ binary.TryTable (block_meant (try_table_tree table.now).block.type_use) (map catch_meant (try_table_tree table.now).catches)) }
    ensures sound { OnOk result (in_range (binary.TryTable (block_meant (try_table_tree table.now).block.type_use) (map catch_meant (try_table_tree table.now).catches))) }
{
    let clauses = catches(alloc, &table.catches)?;
    Ok(wasm_encoder_instr::Instruction::TryTable(block_type(&table.block), Items::owned(clauses)))
}

/// Clauses. Fails only for want of memory.
fn catches(
    alloc: Global,
    clauses: &[TryTableCatch<'_>],
) -> Result<Vec<wasm_encoder_instr::Catch>, AllocError>
    requires { All CatchResolved (map catch_tree clauses.now) }
    ensures same { IfOk result (λ v. map catch_view v.items ≡ map catch_meant (map catch_tree clauses.now)) }
    ensures sound { OnOk result (AllByRecursion IsCatch (map catch_meant (map catch_tree clauses.now))) }
{
    let mut converted = Vec::with_capacity(alloc, clauses.len())?;
    for clause in clauses {
        converted.push(catch(clause))?;
    }
    Ok(converted)
}

/// `select` (6.5, parametric instructions), of which there are two. Fails only for want of memory.
fn select(
    alloc: Global,
    types: &SelectTypes<'_>,
) -> Result<wasm_encoder_instr::Instruction<'static>, AllocError>
    requires resolved { OperandsResolved (instr.Types (select_types_tree types.now)) }
    requires covered { operand_forms (instr.Types (select_types_tree types.now)) ≡ [] }
    ensures mnemonic { IfOk result (λ i. instr_mnemonic i ≡ codes "select") }
    ensures chosen { IfOk result (λ i. Chosen i (choose_second (instr.Types (select_types_tree types.now)))) }
    ensures operands { IfOk result (λ i. (instr_view i).operands ≡ select_meant (select_types_tree types.now)) }
    ensures sound { OnOk result (in_range (select_meant (select_types_tree types.now))) }
{
    match &types.tys {
        None => Ok(wasm_encoder_instr::Instruction::Select),
        Some(types) => typed_select(alloc, types),
    }
}

/// `select` with types. Fails only for want of memory.
fn typed_select(
    alloc: Global,
    types: &[ValType<'_>],
) -> Result<wasm_encoder_instr::Instruction<'static>, AllocError>
    requires resolved { All ValResolved (map val_tree types.now) }
    requires covered { flat_map val_forms (map val_tree types.now) ≡ [] }
    ensures mnemonic { IfOk result (λ i. instr_mnemonic i ≡ codes "select") }
    ensures chosen { IfOk result (λ i. Chosen i true) }
    ensures operands { IfOk result (λ i. (instr_view i).operands ≡ binary.ValTypes (map val_meant (map val_tree types.now))) }
    ensures sound { OnOk result (in_range (binary.ValTypes (map val_meant (map val_tree types.now)))) }
{
    match types {
        [ty] => Ok(wasm_encoder_instr::Instruction::TypedSelect(val_type(ty))),
        _ => {
            let types = val_types(alloc, types)?;
            Ok(wasm_encoder_instr::Instruction::TypedSelectMulti(Items::owned(types)))
        }
    }
}

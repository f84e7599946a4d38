ghost use Rattle.std.specs.Prelude.{◌↔◌, IsTrue};
ghost use Rattle.wasm_encoder_instr.specs.Instruction.{can_encode_instr};

use crate::block::BlockType;
use crate::bulk::BulkOp;
use crate::catch::Catch;
use crate::gc::GcOp;
use crate::mem_arg::MemArg;
use crate::operand::{Catches, ValTypes};
use crate::vector_arg::VectorArgOp;
use wasm_encoder_base::{Encode, EncodeError, Ieee32, Ieee64, Items, ValType, encode_both};
use wasm_encoder_opcodes::{
    AccessOp, AtomicOp, AtomicRmwOp, CompareOp, ConvertOp, NumericOp, Prefixed, VectorFloatOp,
    VectorNarrowOp, VectorOp, VectorWideOp,
};

/// An instruction (WebAssembly 3.0, 5.4). Those of one family stand behind a variant of their own. Some are of proposals: of atomic
/// access, arithmetic on 128 bits, and `try` with what belongs to it, as it was before `try_table`.
#[derive(Clone, Debug, Drop)]
pub enum Instruction<'a> {
    Unreachable,
    Nop,
    Block(BlockType),
    Loop(BlockType),
    If(BlockType),
    Else,
    Try(BlockType),
    Catch(u32),
    Throw(u32),
    Rethrow(u32),
    ThrowRef,
    End,
    Br(u32),
    BrIf(u32),
    BrTable(Items<'a, u32>, u32),
    Return,
    Call(u32),
    CallIndirect { type_index: u32, table_index: u32 },
    ReturnCall(u32),
    ReturnCallIndirect { type_index: u32, table_index: u32 },
    CallRef(u32),
    ReturnCallRef(u32),
    Delegate(u32),
    CatchAll,
    Drop,
    Select,
    TypedSelect(ValType),
    TypedSelectMulti(Items<'a, ValType>),
    TryTable(BlockType, Items<'a, Catch>),
    LocalGet(u32),
    LocalSet(u32),
    LocalTee(u32),
    GlobalGet(u32),
    GlobalSet(u32),
    TableGet(u32),
    TableSet(u32),
    MemorySize(u32),
    MemoryGrow(u32),
    I32Const(i32),
    I64Const(i64),
    F32Const(Ieee32),
    F64Const(Ieee64),
    Compare(CompareOp),
    Numeric(NumericOp),
    Convert(ConvertOp),
    Vector(VectorOp),
    VectorNarrow(VectorNarrowOp),
    VectorWide(VectorWideOp),
    VectorFloat(VectorFloatOp),
    Access(AccessOp, MemArg),
    AtomicFence,
    Atomic(AtomicOp, MemArg),
    AtomicRmw(AtomicRmwOp, MemArg),
    Bulk(BulkOp),
    Gc(GcOp),
    VectorArg(VectorArgOp),
}

impl<'a> Instruction<'a> {
    /// Whether the instruction can be encoded: whether the logarithm of the alignment of its memory argument, if it has one, is below 16.
    pub fn can_encode(&self) -> bool
        ensures { IsTrue result ↔ can_encode_instr self.now }
    {
        match self {
            Instruction::Access(_, memarg)
            | Instruction::Atomic(_, memarg)
            | Instruction::AtomicRmw(_, memarg) => memarg.can_encode(),
            Instruction::VectorArg(op) => op.can_encode(),
            _ => true,
        }
    }
}

/// The bytes of the instruction in the table of instructions.
impl<'a> Encode for Instruction<'a> {
    ghost use Rattle.wasm_encoder_base.specs.Instr.{instr_bytes};
    ghost use Rattle.wasm_encoder_instr.specs.Instruction.{instr_view, can_encode_instr, fits_instr};

    ghost can_encode = { can_encode_instr };

    ghost fits = { fits_instr };

    ghost spelling = { λ i. instr_bytes (instr_view i) };

    fn encode(&self, sink: &mut Vec<u8>) -> Result<(), EncodeError> {
        match self {
            Instruction::Unreachable => 0x00u8.encode(sink),
            Instruction::Nop => 0x01u8.encode(sink),
            Instruction::Block(block_type) => encode_both(&0x02u8, block_type, sink),
            Instruction::Loop(block_type) => encode_both(&0x03u8, block_type, sink),
            Instruction::If(block_type) => encode_both(&0x04u8, block_type, sink),
            Instruction::Else => 0x05u8.encode(sink),
            Instruction::Try(block_type) => encode_both(&0x06u8, block_type, sink),
            Instruction::Catch(index) => encode_both(&0x07u8, index, sink),
            Instruction::Throw(index) => encode_both(&0x08u8, index, sink),
            Instruction::Rethrow(index) => encode_both(&0x09u8, index, sink),
            Instruction::ThrowRef => 0x0Au8.encode(sink),
            Instruction::End => 0x0Bu8.encode(sink),
            Instruction::Br(index) => encode_both(&0x0Cu8, index, sink),
            Instruction::BrIf(index) => encode_both(&0x0Du8, index, sink),
            Instruction::BrTable(labels, default) => encode_both(
                &0x0Eu8,
                &(&labels.as_slice(), default),
                sink,
            ),
            Instruction::Return => 0x0Fu8.encode(sink),
            Instruction::Call(index) => encode_both(&0x10u8, index, sink),
            Instruction::CallIndirect {
                type_index,
                table_index,
            } => encode_both(&0x11u8, &(type_index, table_index), sink),
            Instruction::ReturnCall(index) => encode_both(&0x12u8, index, sink),
            Instruction::ReturnCallIndirect {
                type_index,
                table_index,
            } => encode_both(&0x13u8, &(type_index, table_index), sink),
            Instruction::CallRef(index) => encode_both(&0x14u8, index, sink),
            Instruction::ReturnCallRef(index) => encode_both(&0x15u8, index, sink),
            Instruction::Delegate(index) => encode_both(&0x18u8, index, sink),
            Instruction::CatchAll => 0x19u8.encode(sink),
            Instruction::Drop => 0x1Au8.encode(sink),
            Instruction::Select => 0x1Bu8.encode(sink),
            Instruction::TypedSelect(val_type) => encode_both(
                &0x1Cu8,
                &ValTypes(&[*val_type]),
                sink,
            ),
            Instruction::TypedSelectMulti(types) => encode_both(
                &0x1Cu8,
                &ValTypes(types.as_slice()),
                sink,
            ),
            Instruction::TryTable(block_type, catches) => encode_both(
                &0x1Fu8,
                &(block_type, Catches(catches.as_slice())),
                sink,
            ),
            Instruction::LocalGet(index) => encode_both(&0x20u8, index, sink),
            Instruction::LocalSet(index) => encode_both(&0x21u8, index, sink),
            Instruction::LocalTee(index) => encode_both(&0x22u8, index, sink),
            Instruction::GlobalGet(index) => encode_both(&0x23u8, index, sink),
            Instruction::GlobalSet(index) => encode_both(&0x24u8, index, sink),
            Instruction::TableGet(index) => encode_both(&0x25u8, index, sink),
            Instruction::TableSet(index) => encode_both(&0x26u8, index, sink),
            Instruction::MemorySize(index) => encode_both(&0x3Fu8, index, sink),
            Instruction::MemoryGrow(index) => encode_both(&0x40u8, index, sink),
            Instruction::I32Const(value) => encode_both(&0x41u8, value, sink),
            Instruction::I64Const(value) => encode_both(&0x42u8, value, sink),
            Instruction::F32Const(value) => encode_both(&0x43u8, value, sink),
            Instruction::F64Const(value) => encode_both(&0x44u8, value, sink),
            Instruction::Compare(op) => op.encode(sink),
            Instruction::Numeric(op) => op.encode(sink),
            Instruction::Convert(op) => op.encode(sink),
            Instruction::Vector(op) => op.encode(sink),
            Instruction::VectorNarrow(op) => op.encode(sink),
            Instruction::VectorWide(op) => op.encode(sink),
            Instruction::VectorFloat(op) => op.encode(sink),
            Instruction::Access(op, memarg) => encode_both(op, memarg, sink),
            Instruction::AtomicFence => encode_both(&Prefixed(0xFE, 3), &0x00u8, sink),
            Instruction::Atomic(op, memarg) => encode_both(op, memarg, sink),
            Instruction::AtomicRmw(op, memarg) => encode_both(op, memarg, sink),
            Instruction::Bulk(op) => op.encode(sink),
            Instruction::Gc(op) => op.encode(sink),
            Instruction::VectorArg(op) => op.encode(sink),
        }
    }
}

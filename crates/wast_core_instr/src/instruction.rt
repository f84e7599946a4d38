//! Instructions.
use crate::bulk::BulkOp;
use crate::gc::GcOp;
use crate::proposal::ProposalOp;
use crate::vector_arg::VectorArgOp;
use wasm_encoder_opcodes::{
    AccessOp, AtomicOp, AtomicRmwOp, CompareOp, ConvertOp, NumericOp, VectorFloatOp,
    VectorNarrowOp, VectorOp, VectorWideOp,
};
use wast_operands::{BrTableIndices, FloatLit, MemArg, MemoryArg, Ordering, TableArg};
use wast_typed_operands::{BlockType, CallIndirect, Id, Index, SelectTypes, TryTable};

/// An instruction with its operands (6.5). Those of one family stand behind a variant of their own, as they do in the encoder:
/// what they are called there and have no operands, they are. What is large and seldom stands in a box, so that all others take less
/// room. Some are of proposals: stack switching, atomic access, arithmetic on 128 bits, and `try` as it was before `try_table` among them.
#[derive(Drop)]
pub enum Instruction<'a> {
    Unreachable,
    Nop,
    Block(Box<BlockType<'a>>),
    Loop(Box<BlockType<'a>>),
    If(Box<BlockType<'a>>),
    Else(Option<Id<'a>>),
    Try(Box<BlockType<'a>>),
    Catch(Index<'a>),
    Throw(Index<'a>),
    Rethrow(Index<'a>),
    ThrowRef,
    End(Option<Id<'a>>),
    Br(Index<'a>),
    BrIf(Index<'a>),
    BrTable(Box<BrTableIndices<'a>>),
    Return,
    Call(Index<'a>),
    CallIndirect(Box<CallIndirect<'a>>),
    ReturnCall(Index<'a>),
    ReturnCallIndirect(Box<CallIndirect<'a>>),
    CallRef(Index<'a>),
    ReturnCallRef(Index<'a>),
    Delegate(Index<'a>),
    CatchAll,
    Drop,
    Select(SelectTypes<'a>),
    TryTable(TryTable<'a>),
    LocalGet(Index<'a>),
    LocalSet(Index<'a>),
    LocalTee(Index<'a>),
    GlobalGet(Index<'a>),
    GlobalSet(Index<'a>),
    TableGet(TableArg<'a>),
    TableSet(TableArg<'a>),
    MemorySize(MemoryArg<'a>),
    MemoryGrow(MemoryArg<'a>),
    I32Const(i32),
    I64Const(i64),
    F32Const(FloatLit<'a>),
    F64Const(FloatLit<'a>),
    Compare(CompareOp),
    Numeric(NumericOp),
    Convert(ConvertOp),
    Vector(VectorOp),
    VectorNarrow(VectorNarrowOp),
    VectorWide(VectorWideOp),
    VectorFloat(VectorFloatOp),
    Access(AccessOp, MemArg<'a>),
    AtomicFence(Option<Ordering>),
    Atomic(AtomicOp, MemArg<'a>),
    AtomicRmw(AtomicRmwOp, MemArg<'a>),
    Bulk(BulkOp<'a>),
    Gc(GcOp<'a>),
    VectorArg(VectorArgOp<'a>),
    Proposal(Box<ProposalOp<'a>>),
}

//! The words that instructions begin with, by what stands after them.
use crate::proposal::ProposalWord;
use wasm_encoder_opcodes::{
    AccessOp, AtomicOp, AtomicRmwOp, CompareOp, ConvertOp, NumericOp, VectorFloatOp,
    VectorNarrowOp, VectorOp, VectorWideOp,
};

/// A word that an instruction begins with (6.5): a variant for each way to write operands.
#[derive(Clone, Copy)]
pub enum Word {
    Plain(PlainWord),
    Name(NameWord),
    Block(BlockWord),
    TryTable,
    Index(IndexWord),
    Indices(IndicesWord),
    ArrayNewFixed,
    BrTable,
    Indirect(IndirectWord),
    OptionalIndex(OptionalIndexWord),
    Copy(CopyWord),
    Init(InitWord),
    RefNull,
    Ref(RefWord),
    Cast(CastWord),
    I32Const,
    I64Const,
    F32Const,
    F64Const,
    V128Const,
    Select,
    Lane(LaneWord),
    I8x16Shuffle,
    Memory(MemoryWord),
    MemoryLane(MemoryLaneWord),
    AtomicFence,
    Proposal(ProposalWord),
}

/// Words with nothing after them.
#[derive(Clone, Copy)]
pub enum PlainWord {
    Unreachable,
    Nop,
    ThrowRef,
    Return,
    CatchAll,
    Drop,
    RefIsNull,
    RefEq,
    RefAsNonNull,
    ArrayLen,
    AnyConvertExtern,
    ExternConvertAny,
    RefI31,
    I31GetS,
    I31GetU,
    Compare(CompareOp),
    Numeric(NumericOp),
    Convert(ConvertOp),
    Vector(VectorOp),
    VectorNarrow(VectorNarrowOp),
    VectorWide(VectorWideOp),
    VectorFloat(VectorFloatOp),
}

/// Words with a label's name after them where given.
#[derive(Clone, Copy)]
pub enum NameWord {
    Else,
    End,
}

/// Words with a label's name where given and a type use after them.
#[derive(Clone, Copy)]
pub enum BlockWord {
    Block,
    Loop,
    If,
    Try,
}

/// Words with an index after them.
#[derive(Clone, Copy)]
pub enum IndexWord {
    Catch,
    Throw,
    Rethrow,
    Br,
    BrIf,
    Call,
    ReturnCall,
    CallRef,
    ReturnCallRef,
    Delegate,
    LocalGet,
    LocalSet,
    LocalTee,
    GlobalGet,
    GlobalSet,
    RefFunc,
    BrOnNull,
    BrOnNonNull,
    StructNew,
    StructNewDefault,
    ArrayNew,
    ArrayNewDefault,
    ArrayGet,
    ArrayGetS,
    ArrayGetU,
    ArraySet,
    ArrayFill,
    DataDrop,
    ElemDrop,
}

/// Words with two indices after them.
#[derive(Clone, Copy)]
pub enum IndicesWord {
    StructGet,
    StructGetS,
    StructGetU,
    StructSet,
    ArrayNewData,
    ArrayNewElem,
    ArrayCopy,
    ArrayInitData,
    ArrayInitElem,
}

/// Words with a table's index where given and a type use after them.
#[derive(Clone, Copy)]
pub enum IndirectWord {
    CallIndirect,
    ReturnCallIndirect,
}

/// Words with an index after them where given.
#[derive(Clone, Copy)]
pub enum OptionalIndexWord {
    TableGet,
    TableSet,
    MemorySize,
    MemoryGrow,
    MemoryFill,
    TableGrow,
    TableSize,
    TableFill,
}

/// Words with two indices after them where given: where to, where from.
#[derive(Clone, Copy)]
pub enum CopyWord {
    MemoryCopy,
    TableCopy,
}

/// Words with an index where given, of a memory or a table, and a segment's index after them.
#[derive(Clone, Copy)]
pub enum InitWord {
    MemoryInit,
    TableInit,
}

/// Words with a reference type after them.
#[derive(Clone, Copy)]
pub enum RefWord {
    RefTest,
    RefCast,
}

/// Words with a label and two reference types after them.
#[derive(Clone, Copy)]
pub enum CastWord {
    BrOnCast,
    BrOnCastFail,
}

/// Words with the number of a lane after them.
#[derive(Clone, Copy)]
pub enum LaneWord {
    I8x16ExtractLaneS,
    I8x16ExtractLaneU,
    I8x16ReplaceLane,
    I16x8ExtractLaneS,
    I16x8ExtractLaneU,
    I16x8ReplaceLane,
    I32x4ExtractLane,
    I32x4ReplaceLane,
    I64x2ExtractLane,
    I64x2ReplaceLane,
    F32x4ExtractLane,
    F32x4ReplaceLane,
    F64x2ExtractLane,
    F64x2ReplaceLane,
}

/// Vector loads and stores.
#[derive(Clone, Copy)]
pub enum VectorMemoryWord {
    V128Load,
    V128Load8x8S,
    V128Load8x8U,
    V128Load16x4S,
    V128Load16x4U,
    V128Load32x2S,
    V128Load32x2U,
    V128Load8Splat,
    V128Load16Splat,
    V128Load32Splat,
    V128Load64Splat,
    V128Store,
    V128Load32Zero,
    V128Load64Zero,
}

/// Words with a memory argument after them.
#[derive(Clone, Copy)]
pub enum MemoryWord {
    Access(AccessOp),
    Atomic(AtomicOp),
    AtomicRmw(AtomicRmwOp),
    Vector(VectorMemoryWord),
}

/// Words with a memory argument and the number of a lane after them.
#[derive(Clone, Copy)]
pub enum MemoryLaneWord {
    V128Load8Lane,
    V128Load16Lane,
    V128Load32Lane,
    V128Load64Lane,
    V128Store8Lane,
    V128Store16Lane,
    V128Store32Lane,
    V128Store64Lane,
}

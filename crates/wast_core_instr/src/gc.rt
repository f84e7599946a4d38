//! References, structures and arrays.
use wast_operands::{
    ArrayCopy, ArrayFill, ArrayInit, ArrayNewData, ArrayNewElem, ArrayNewFixed, StructAccess,
};
use wast_typed_operands::{BrOnCast, BrOnCastFail, HeapType, Index, RefCast, RefTest};

/// Instructions on references, structures and arrays (6.5, reference and aggregate instructions).
#[derive(Drop)]
pub enum GcOp<'a> {
    RefIsNull,
    RefEq,
    RefAsNonNull,
    ArrayLen,
    AnyConvertExtern,
    ExternConvertAny,
    RefI31,
    I31GetS,
    I31GetU,
    RefFunc(Index<'a>),
    BrOnNull(Index<'a>),
    BrOnNonNull(Index<'a>),
    StructNew(Index<'a>),
    StructNewDefault(Index<'a>),
    ArrayNew(Index<'a>),
    ArrayNewDefault(Index<'a>),
    ArrayGet(Index<'a>),
    ArrayGetS(Index<'a>),
    ArrayGetU(Index<'a>),
    ArraySet(Index<'a>),
    ArrayFill(ArrayFill<'a>),
    StructGet(Box<StructAccess<'a>>),
    StructGetS(Box<StructAccess<'a>>),
    StructGetU(Box<StructAccess<'a>>),
    StructSet(Box<StructAccess<'a>>),
    ArrayNewData(Box<ArrayNewData<'a>>),
    ArrayNewElem(Box<ArrayNewElem<'a>>),
    ArrayCopy(Box<ArrayCopy<'a>>),
    ArrayInitData(Box<ArrayInit<'a>>),
    ArrayInitElem(Box<ArrayInit<'a>>),
    ArrayNewFixed(Box<ArrayNewFixed<'a>>),
    RefNull(Box<HeapType<'a>>),
    RefTest(Box<RefTest<'a>>),
    RefCast(Box<RefCast<'a>>),
    BrOnCast(Box<BrOnCast<'a>>),
    BrOnCastFail(Box<BrOnCastFail<'a>>),
}

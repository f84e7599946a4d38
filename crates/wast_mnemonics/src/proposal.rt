//! The words of proposals, whose instructions are refused as uncovered.

/// A word of a proposal: a variant for each way to write operands.
#[derive(Clone, Copy)]
pub enum ProposalWord {
    Plain(PlainProposal),
    Index(IndexProposal),
    Indices(IndicesProposal),
    MemoryDiscard,
    RefCastDescEq,
    Cast(CastProposal),
    Resume(ResumeProposal),
    ResumeThrow,
    OrderedIndex(OrderedIndexProposal),
    OrderedOptionalIndex(OrderedOptionalIndexProposal),
    OrderedIndices(OrderedIndicesProposal),
}

/// Words with nothing after them.
#[derive(Clone, Copy)]
pub enum PlainProposal {
    Pause,
    RefI31Shared,
}

/// Words with an index after them.
#[derive(Clone, Copy)]
pub enum IndexProposal {
    ContNew,
    Suspend,
    StructNewDesc,
    StructNewDefaultDesc,
    RefGetDesc,
}

/// Words with two indices after them.
#[derive(Clone, Copy)]
pub enum IndicesProposal {
    ContBind,
    Switch,
}

/// Words with a label and two reference types after them.
#[derive(Clone, Copy)]
pub enum CastProposal {
    BrOnCastDescEq,
    BrOnCastDescEqFail,
}

/// Words with a type's index and handlers after them.
#[derive(Clone, Copy)]
pub enum ResumeProposal {
    Resume,
    ResumeThrowRef,
}

/// Words with an ordering where given and an index after them.
#[derive(Clone, Copy)]
pub enum OrderedIndexProposal {
    GlobalAtomicGet,
    GlobalAtomicSet,
    GlobalAtomicRmwAdd,
    GlobalAtomicRmwSub,
    GlobalAtomicRmwAnd,
    GlobalAtomicRmwOr,
    GlobalAtomicRmwXor,
    GlobalAtomicRmwXchg,
    GlobalAtomicRmwCmpxchg,
    ArrayAtomicGet,
    ArrayAtomicGetS,
    ArrayAtomicGetU,
    ArrayAtomicSet,
    ArrayAtomicRmwAdd,
    ArrayAtomicRmwSub,
    ArrayAtomicRmwAnd,
    ArrayAtomicRmwOr,
    ArrayAtomicRmwXor,
    ArrayAtomicRmwXchg,
    ArrayAtomicRmwCmpxchg,
}

/// Words with an ordering and an index after them, each where given.
#[derive(Clone, Copy)]
pub enum OrderedOptionalIndexProposal {
    TableAtomicGet,
    TableAtomicSet,
    TableAtomicRmwXchg,
    TableAtomicRmwCmpxchg,
}

/// Words with an ordering where given and two indices after them.
#[derive(Clone, Copy)]
pub enum OrderedIndicesProposal {
    StructAtomicGet,
    StructAtomicGetS,
    StructAtomicGetU,
    StructAtomicSet,
    StructAtomicRmwAdd,
    StructAtomicRmwSub,
    StructAtomicRmwAnd,
    StructAtomicRmwOr,
    StructAtomicRmwXor,
    StructAtomicRmwXchg,
    StructAtomicRmwCmpxchg,
}

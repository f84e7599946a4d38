//! Instructions by their words.
ghost use Rattle.std.specs.Prelude.{◌≡◌, option_map, IfOk};
ghost use Rattle.wast_typed_operands.specs.Identifiers.{identifier_tree, index_tree};
ghost use Rattle.wast_operands.specs.OperandViews.{mem_arg_tree, ordering_tree, table_arg_tree};
ghost use Rattle.wast_typed_operands.specs.TypedViews.{block_tree, indirect_tree};
ghost use Rattle.wast_mnemonics.specs.declared.word.Word.TheVariants as words;
ghost use Rattle.wast_mnemonics.specs.declared.word.MemoryWord.TheVariants as memory_words;
ghost use Rattle.wast_mnemonics.specs.declared.proposal.ProposalWord.TheVariants as proposal_words;
ghost use Rattle.wast_core_instr.specs.InstructionTree as spec;
ghost use Rattle.wast_core_instr.specs.WordViews.{instruction_word, vector_arg_word, gc_word, proposal_word};
ghost use Rattle.wast_core_instr.specs.InstructionViews.{instruction_operands, vector_arg_operands, gc_operands, proposal_operands};

use crate::bulk::BulkOp;
use crate::gc::GcOp;
use crate::instruction::Instruction;
use crate::proposal::ProposalOp;
use crate::vector_arg::VectorArgOp;
use std::alloc::{AllocError, Global};
use wast_mnemonics::{
    BlockWord, IndexProposal, IndexWord, IndicesProposal, IndicesWord, IndirectWord, LaneWord,
    MemoryLaneWord, MemoryWord, NameWord, OptionalIndexWord, OrderedIndexProposal,
    OrderedIndicesProposal, OrderedOptionalIndexProposal, PlainProposal, PlainWord,
    VectorMemoryWord,
};
use wast_operands::{
    ArrayCopy, ArrayFill, ArrayInit, ArrayNewData, ArrayNewElem, ContBind, LaneArg,
    LoadOrStoreLane, MemArg, MemoryArg, Ordered, StructAccess, Switch, TableArg,
};
use wast_typed_operands::{BlockType, CallIndirect, Id, Index};

/// The instruction of a word with nothing after it.
pub(crate) fn plain<'a>(word: PlainWord) -> Instruction<'a>
    ensures word { instruction_word result ≡ words.Plain word }
    ensures operands { instruction_operands result ≡ spec.NoOperands }
{
    match word {
        PlainWord::Unreachable => Instruction::Unreachable,
        PlainWord::Nop => Instruction::Nop,
        PlainWord::ThrowRef => Instruction::ThrowRef,
        PlainWord::Return => Instruction::Return,
        PlainWord::CatchAll => Instruction::CatchAll,
        PlainWord::Drop => Instruction::Drop,
        PlainWord::RefIsNull => Instruction::Gc(GcOp::RefIsNull),
        PlainWord::RefEq => Instruction::Gc(GcOp::RefEq),
        PlainWord::RefAsNonNull => Instruction::Gc(GcOp::RefAsNonNull),
        PlainWord::ArrayLen => Instruction::Gc(GcOp::ArrayLen),
        PlainWord::AnyConvertExtern => Instruction::Gc(GcOp::AnyConvertExtern),
        PlainWord::ExternConvertAny => Instruction::Gc(GcOp::ExternConvertAny),
        PlainWord::RefI31 => Instruction::Gc(GcOp::RefI31),
        PlainWord::I31GetS => Instruction::Gc(GcOp::I31GetS),
        PlainWord::I31GetU => Instruction::Gc(GcOp::I31GetU),
        PlainWord::Compare(op) => Instruction::Compare(op),
        PlainWord::Numeric(op) => Instruction::Numeric(op),
        PlainWord::Convert(op) => Instruction::Convert(op),
        PlainWord::Vector(op) => Instruction::Vector(op),
        PlainWord::VectorNarrow(op) => Instruction::VectorNarrow(op),
        PlainWord::VectorWide(op) => Instruction::VectorWide(op),
        PlainWord::VectorFloat(op) => Instruction::VectorFloat(op),
    }
}

/// The instruction of a word and a label's name.
pub(crate) fn with_label<'a>(word: NameWord, label: Option<Id<'a>>) -> Instruction<'a>
    ensures word { instruction_word result ≡ words.Name word }
    ensures operands { instruction_operands result ≡ spec.Label (option_map identifier_tree label.entry) }
{
    match word {
        NameWord::Else => Instruction::Else(label),
        NameWord::End => Instruction::End(label),
    }
}

/// The instruction of a word and the type of a block.
pub(crate) fn with_block<'a>(word: BlockWord, block_type: Box<BlockType<'a>>) -> Instruction<'a>
    ensures word { instruction_word result ≡ words.Block word }
    ensures operands { instruction_operands result ≡ spec.Block (block_tree block_type.entry.value) }
{
    match word {
        BlockWord::Block => Instruction::Block(block_type),
        BlockWord::Loop => Instruction::Loop(block_type),
        BlockWord::If => Instruction::If(block_type),
        BlockWord::Try => Instruction::Try(block_type),
    }
}

/// The instruction of a word and an index.
pub(crate) fn with_index<'a>(word: IndexWord, index: Index<'a>) -> Instruction<'a>
    ensures word { instruction_word result ≡ words.Index word }
    ensures operands { instruction_operands result ≡ spec.One (index_tree index.entry) }
{
    match word {
        IndexWord::Catch => Instruction::Catch(index),
        IndexWord::Throw => Instruction::Throw(index),
        IndexWord::Rethrow => Instruction::Rethrow(index),
        IndexWord::Br => Instruction::Br(index),
        IndexWord::BrIf => Instruction::BrIf(index),
        IndexWord::Call => Instruction::Call(index),
        IndexWord::ReturnCall => Instruction::ReturnCall(index),
        IndexWord::CallRef => Instruction::CallRef(index),
        IndexWord::ReturnCallRef => Instruction::ReturnCallRef(index),
        IndexWord::Delegate => Instruction::Delegate(index),
        IndexWord::LocalGet => Instruction::LocalGet(index),
        IndexWord::LocalSet => Instruction::LocalSet(index),
        IndexWord::LocalTee => Instruction::LocalTee(index),
        IndexWord::GlobalGet => Instruction::GlobalGet(index),
        IndexWord::GlobalSet => Instruction::GlobalSet(index),
        IndexWord::RefFunc => Instruction::Gc(GcOp::RefFunc(index)),
        IndexWord::BrOnNull => Instruction::Gc(GcOp::BrOnNull(index)),
        IndexWord::BrOnNonNull => Instruction::Gc(GcOp::BrOnNonNull(index)),
        IndexWord::StructNew => Instruction::Gc(GcOp::StructNew(index)),
        IndexWord::StructNewDefault => Instruction::Gc(GcOp::StructNewDefault(index)),
        IndexWord::ArrayNew => Instruction::Gc(GcOp::ArrayNew(index)),
        IndexWord::ArrayNewDefault => Instruction::Gc(GcOp::ArrayNewDefault(index)),
        IndexWord::ArrayGet => Instruction::Gc(GcOp::ArrayGet(index)),
        IndexWord::ArrayGetS => Instruction::Gc(GcOp::ArrayGetS(index)),
        IndexWord::ArrayGetU => Instruction::Gc(GcOp::ArrayGetU(index)),
        IndexWord::ArraySet => Instruction::Gc(GcOp::ArraySet(index)),
        IndexWord::ArrayFill => Instruction::Gc(GcOp::ArrayFill(ArrayFill { array: index })),
        IndexWord::DataDrop => Instruction::Bulk(BulkOp::DataDrop(index)),
        IndexWord::ElemDrop => Instruction::Bulk(BulkOp::ElemDrop(index)),
    }
}

/// The instruction of a word and two indices. Fails only for want of memory.
pub(crate) fn with_indices<'a>(
    alloc: Global,
    word: IndicesWord,
    first: Index<'a>,
    second: Index<'a>,
) -> Result<Instruction<'a>, AllocError>
    ensures word { IfOk result (λ i. instruction_word i ≡ words.Indices word) }
    ensures operands { IfOk result (λ i. instruction_operands i ≡ spec.Two (index_tree first.entry) (index_tree second.entry)) }
{
    Ok(Instruction::Gc(gc_indices(alloc, word, first, second)?))
}

/// Its operation alone.
fn gc_indices<'a>(
    alloc: Global,
    word: IndicesWord,
    first: Index<'a>,
    second: Index<'a>,
) -> Result<GcOp<'a>, AllocError>
    ensures word { IfOk result (λ op. gc_word op ≡ words.Indices word) }
    ensures operands { IfOk result (λ op. gc_operands op ≡ spec.Two (index_tree first.entry) (index_tree second.entry)) }
{
    match word {
        IndicesWord::StructGet => struct_access(alloc, first, second).map(GcOp::StructGet),
        IndicesWord::StructGetS => struct_access(alloc, first, second).map(GcOp::StructGetS),
        IndicesWord::StructGetU => struct_access(alloc, first, second).map(GcOp::StructGetU),
        IndicesWord::StructSet => struct_access(alloc, first, second).map(GcOp::StructSet),
        IndicesWord::ArrayNewData => {
            let operands = ArrayNewData {
                array: first,
                data_idx: second,
            };
            boxed(alloc, operands).map(GcOp::ArrayNewData)
        }
        IndicesWord::ArrayNewElem => {
            let operands = ArrayNewElem {
                array: first,
                elem_idx: second,
            };
            boxed(alloc, operands).map(GcOp::ArrayNewElem)
        }
        IndicesWord::ArrayCopy => {
            let operands = ArrayCopy {
                dest_array: first,
                src_array: second,
            };
            boxed(alloc, operands).map(GcOp::ArrayCopy)
        }
        IndicesWord::ArrayInitData => array_init(alloc, first, second).map(GcOp::ArrayInitData),
        IndicesWord::ArrayInitElem => array_init(alloc, first, second).map(GcOp::ArrayInitElem),
    }
}

/// The operands of an access to a field.
fn struct_access<'a>(
    alloc: Global,
    struct_type: Index<'a>,
    field: Index<'a>,
) -> Result<Box<StructAccess<'a>>, AllocError>
    ensures { IfOk result (λ b. b.value ≡ record { struct_type = struct_type.entry; field = field.entry }) }
{
    boxed(alloc, StructAccess { struct_type, field })
}

/// The operands of what writes a segment into an array.
fn array_init<'a>(
    alloc: Global,
    array: Index<'a>,
    segment: Index<'a>,
) -> Result<Box<ArrayInit<'a>>, AllocError>
    ensures { IfOk result (λ b. b.value ≡ record { array = array.entry; segment = segment.entry }) }
{
    boxed(alloc, ArrayInit { array, segment })
}

/// A value in a box. Fails only for want of memory.
fn boxed<T: Drop>(alloc: Global, value: T) -> Result<Box<T>, AllocError>
    ensures { IfOk result (λ b. b.value ≡ value) }
{
    Ok(Box::new(alloc, value)?)
}

/// The instruction of a word and what it calls.
pub(crate) fn with_call<'a>(word: IndirectWord, call: Box<CallIndirect<'a>>) -> Instruction<'a>
    ensures word { instruction_word result ≡ words.Indirect word }
    ensures operands { instruction_operands result ≡ spec.Indirect (indirect_tree call.entry.value) }
{
    match word {
        IndirectWord::CallIndirect => Instruction::CallIndirect(call),
        IndirectWord::ReturnCallIndirect => Instruction::ReturnCallIndirect(call),
    }
}

/// The instruction of a word and an index that may be left out.
pub(crate) fn with_optional_index<'a>(
    word: OptionalIndexWord,
    index: Option<Index<'a>>,
) -> Instruction<'a>
    ensures word { instruction_word result ≡ words.OptionalIndex word }
    ensures operands { instruction_operands result ≡ spec.Optional (option_map index_tree index.entry) }
{
    match word {
        OptionalIndexWord::TableGet => Instruction::TableGet(TableArg { dst: index }),
        OptionalIndexWord::TableSet => Instruction::TableSet(TableArg { dst: index }),
        OptionalIndexWord::MemorySize => Instruction::MemorySize(MemoryArg { mem: index }),
        OptionalIndexWord::MemoryGrow => Instruction::MemoryGrow(MemoryArg { mem: index }),
        OptionalIndexWord::MemoryFill => Instruction::Bulk(BulkOp::MemoryFill(MemoryArg {
            mem: index,
        })),
        OptionalIndexWord::TableGrow => Instruction::Bulk(BulkOp::TableGrow(TableArg {
            dst: index,
        })),
        OptionalIndexWord::TableSize => Instruction::Bulk(BulkOp::TableSize(TableArg {
            dst: index,
        })),
        OptionalIndexWord::TableFill => Instruction::Bulk(BulkOp::TableFill(TableArg {
            dst: index,
        })),
    }
}

/// The instruction of a word and the number of a lane.
pub(crate) fn with_lane<'a>(word: LaneWord, lane: LaneArg) -> Instruction<'a>
    ensures word { instruction_word result ≡ words.Lane word }
    ensures operands { instruction_operands result ≡ spec.Lane lane.lane }
{
    Instruction::VectorArg(vector_lane(word, lane))
}

/// Its operation alone.
fn vector_lane<'a>(word: LaneWord, lane: LaneArg) -> VectorArgOp<'a>
    ensures word { vector_arg_word result ≡ words.Lane word }
    ensures operands { vector_arg_operands result ≡ spec.Lane lane.lane }
{
    match word {
        LaneWord::I8x16ExtractLaneS => VectorArgOp::I8x16ExtractLaneS(lane),
        LaneWord::I8x16ExtractLaneU => VectorArgOp::I8x16ExtractLaneU(lane),
        LaneWord::I8x16ReplaceLane => VectorArgOp::I8x16ReplaceLane(lane),
        LaneWord::I16x8ExtractLaneS => VectorArgOp::I16x8ExtractLaneS(lane),
        LaneWord::I16x8ExtractLaneU => VectorArgOp::I16x8ExtractLaneU(lane),
        LaneWord::I16x8ReplaceLane => VectorArgOp::I16x8ReplaceLane(lane),
        LaneWord::I32x4ExtractLane => VectorArgOp::I32x4ExtractLane(lane),
        LaneWord::I32x4ReplaceLane => VectorArgOp::I32x4ReplaceLane(lane),
        LaneWord::I64x2ExtractLane => VectorArgOp::I64x2ExtractLane(lane),
        LaneWord::I64x2ReplaceLane => VectorArgOp::I64x2ReplaceLane(lane),
        LaneWord::F32x4ExtractLane => VectorArgOp::F32x4ExtractLane(lane),
        LaneWord::F32x4ReplaceLane => VectorArgOp::F32x4ReplaceLane(lane),
        LaneWord::F64x2ExtractLane => VectorArgOp::F64x2ExtractLane(lane),
        LaneWord::F64x2ReplaceLane => VectorArgOp::F64x2ReplaceLane(lane),
    }
}

/// The instruction of a word and a memory argument.
pub(crate) fn with_memarg<'a>(word: MemoryWord, memarg: MemArg<'a>) -> Instruction<'a>
    ensures word { instruction_word result ≡ words.Memory word }
    ensures operands { instruction_operands result ≡ spec.Memory (mem_arg_tree memarg.entry) }
{
    match word {
        MemoryWord::Access(op) => Instruction::Access(op, memarg),
        MemoryWord::Atomic(op) => Instruction::Atomic(op, memarg),
        MemoryWord::AtomicRmw(op) => Instruction::AtomicRmw(op, memarg),
        MemoryWord::Vector(word) => Instruction::VectorArg(vector_memory(word, memarg)),
    }
}

/// The instruction of a word, a memory argument and a lane.
pub(crate) fn with_memarg_lane<'a>(
    word: MemoryLaneWord,
    operands: LoadOrStoreLane<'a>,
) -> Instruction<'a>
    ensures word { instruction_word result ≡ words.MemoryLane word }
    ensures operands { instruction_operands result ≡ spec.MemoryLane (mem_arg_tree operands.entry.memarg) operands.entry.lane.lane }
{
    Instruction::VectorArg(vector_memory_lane(word, operands))
}

/// Its operation alone.
fn vector_memory_lane<'a>(word: MemoryLaneWord, operands: LoadOrStoreLane<'a>) -> VectorArgOp<'a>
    ensures word { vector_arg_word result ≡ words.MemoryLane word }
    ensures operands { vector_arg_operands result ≡ spec.MemoryLane (mem_arg_tree operands.entry.memarg) operands.entry.lane.lane }
{
    match word {
        MemoryLaneWord::V128Load8Lane => VectorArgOp::V128Load8Lane(operands),
        MemoryLaneWord::V128Load16Lane => VectorArgOp::V128Load16Lane(operands),
        MemoryLaneWord::V128Load32Lane => VectorArgOp::V128Load32Lane(operands),
        MemoryLaneWord::V128Load64Lane => VectorArgOp::V128Load64Lane(operands),
        MemoryLaneWord::V128Store8Lane => VectorArgOp::V128Store8Lane(operands),
        MemoryLaneWord::V128Store16Lane => VectorArgOp::V128Store16Lane(operands),
        MemoryLaneWord::V128Store32Lane => VectorArgOp::V128Store32Lane(operands),
        MemoryLaneWord::V128Store64Lane => VectorArgOp::V128Store64Lane(operands),
    }
}

/// The operation of a word of a proposal with nothing after it.
pub(crate) fn plain_proposal<'a>(word: PlainProposal) -> ProposalOp<'a>
    ensures word { proposal_word result ≡ words.Proposal (proposal_words.Plain word) }
    ensures operands { proposal_operands result ≡ spec.NoOperands }
{
    match word {
        PlainProposal::Pause => ProposalOp::Pause,
        PlainProposal::RefI31Shared => ProposalOp::RefI31Shared,
    }
}

/// The same of a word and an index.
pub(crate) fn index_proposal<'a>(word: IndexProposal, index: Index<'a>) -> ProposalOp<'a>
    ensures word { proposal_word result ≡ words.Proposal (proposal_words.Index word) }
    ensures operands { proposal_operands result ≡ spec.One (index_tree index.entry) }
{
    match word {
        IndexProposal::ContNew => ProposalOp::ContNew(index),
        IndexProposal::Suspend => ProposalOp::Suspend(index),
        IndexProposal::StructNewDesc => ProposalOp::StructNewDesc(index),
        IndexProposal::StructNewDefaultDesc => ProposalOp::StructNewDefaultDesc(index),
        IndexProposal::RefGetDesc => ProposalOp::RefGetDesc(index),
    }
}

/// The same of a word and two indices.
pub(crate) fn indices_proposal<'a>(
    word: IndicesProposal,
    first: Index<'a>,
    second: Index<'a>,
) -> ProposalOp<'a>
    ensures word { proposal_word result ≡ words.Proposal (proposal_words.Indices word) }
    ensures operands { proposal_operands result ≡ spec.Two (index_tree first.entry) (index_tree second.entry) }
{
    match word {
        IndicesProposal::ContBind => ProposalOp::ContBind(ContBind {
            argument_index: first,
            result_index: second,
        }),
        IndicesProposal::Switch => ProposalOp::Switch(Switch {
            type_index: first,
            tag_index: second,
        }),
    }
}

/// The same of a word, an ordering and an index.
pub(crate) fn ordered_index<'a>(
    word: OrderedIndexProposal,
    operand: Ordered<Index<'a>>,
) -> ProposalOp<'a>
    ensures word { proposal_word result ≡ words.Proposal (proposal_words.OrderedIndex word) }
    ensures operands { proposal_operands result ≡ spec.Ordered (ordering_tree operand.entry.ordering) (spec.One (index_tree operand.entry.inner)) }
{
    match word {
        OrderedIndexProposal::GlobalAtomicGet => ProposalOp::GlobalAtomicGet(operand),
        OrderedIndexProposal::GlobalAtomicSet => ProposalOp::GlobalAtomicSet(operand),
        OrderedIndexProposal::GlobalAtomicRmwAdd => ProposalOp::GlobalAtomicRmwAdd(operand),
        OrderedIndexProposal::GlobalAtomicRmwSub => ProposalOp::GlobalAtomicRmwSub(operand),
        OrderedIndexProposal::GlobalAtomicRmwAnd => ProposalOp::GlobalAtomicRmwAnd(operand),
        OrderedIndexProposal::GlobalAtomicRmwOr => ProposalOp::GlobalAtomicRmwOr(operand),
        OrderedIndexProposal::GlobalAtomicRmwXor => ProposalOp::GlobalAtomicRmwXor(operand),
        OrderedIndexProposal::GlobalAtomicRmwXchg => ProposalOp::GlobalAtomicRmwXchg(operand),
        OrderedIndexProposal::GlobalAtomicRmwCmpxchg => ProposalOp::GlobalAtomicRmwCmpxchg(operand),
        OrderedIndexProposal::ArrayAtomicGet => ProposalOp::ArrayAtomicGet(operand),
        OrderedIndexProposal::ArrayAtomicGetS => ProposalOp::ArrayAtomicGetS(operand),
        OrderedIndexProposal::ArrayAtomicGetU => ProposalOp::ArrayAtomicGetU(operand),
        OrderedIndexProposal::ArrayAtomicSet => ProposalOp::ArrayAtomicSet(operand),
        OrderedIndexProposal::ArrayAtomicRmwAdd => ProposalOp::ArrayAtomicRmwAdd(operand),
        OrderedIndexProposal::ArrayAtomicRmwSub => ProposalOp::ArrayAtomicRmwSub(operand),
        OrderedIndexProposal::ArrayAtomicRmwAnd => ProposalOp::ArrayAtomicRmwAnd(operand),
        OrderedIndexProposal::ArrayAtomicRmwOr => ProposalOp::ArrayAtomicRmwOr(operand),
        OrderedIndexProposal::ArrayAtomicRmwXor => ProposalOp::ArrayAtomicRmwXor(operand),
        OrderedIndexProposal::ArrayAtomicRmwXchg => ProposalOp::ArrayAtomicRmwXchg(operand),
        OrderedIndexProposal::ArrayAtomicRmwCmpxchg => ProposalOp::ArrayAtomicRmwCmpxchg(operand),
    }
}

/// The same of a word, an ordering and an index that may be left out.
pub(crate) fn ordered_optional_index<'a>(
    word: OrderedOptionalIndexProposal,
    operand: Ordered<TableArg<'a>>,
) -> ProposalOp<'a>
    ensures word { proposal_word result ≡ words.Proposal (proposal_words.OrderedOptionalIndex word) }
    ensures operands { proposal_operands result ≡ spec.Ordered (ordering_tree operand.entry.ordering) (spec.Optional (table_arg_tree operand.entry.inner)) }
{
    match word {
        OrderedOptionalIndexProposal::TableAtomicGet => ProposalOp::TableAtomicGet(operand),
        OrderedOptionalIndexProposal::TableAtomicSet => ProposalOp::TableAtomicSet(operand),
        OrderedOptionalIndexProposal::TableAtomicRmwXchg => ProposalOp::TableAtomicRmwXchg(operand),
        OrderedOptionalIndexProposal::TableAtomicRmwCmpxchg => ProposalOp::TableAtomicRmwCmpxchg(
            operand,
        ),
    }
}

/// The same of a word, an ordering and two indices.
pub(crate) fn ordered_indices<'a>(
    word: OrderedIndicesProposal,
    operand: Ordered<StructAccess<'a>>,
) -> ProposalOp<'a>
    ensures word { proposal_word result ≡ words.Proposal (proposal_words.OrderedIndices word) }
    ensures operands { proposal_operands result ≡ spec.Ordered (ordering_tree operand.entry.ordering) (spec.Two (index_tree operand.entry.inner.struct_type) (index_tree operand.entry.inner.field)) }
{
    match word {
        OrderedIndicesProposal::StructAtomicGet => ProposalOp::StructAtomicGet(operand),
        OrderedIndicesProposal::StructAtomicGetS => ProposalOp::StructAtomicGetS(operand),
        OrderedIndicesProposal::StructAtomicGetU => ProposalOp::StructAtomicGetU(operand),
        OrderedIndicesProposal::StructAtomicSet => ProposalOp::StructAtomicSet(operand),
        OrderedIndicesProposal::StructAtomicRmwAdd => ProposalOp::StructAtomicRmwAdd(operand),
        OrderedIndicesProposal::StructAtomicRmwSub => ProposalOp::StructAtomicRmwSub(operand),
        OrderedIndicesProposal::StructAtomicRmwAnd => ProposalOp::StructAtomicRmwAnd(operand),
        OrderedIndicesProposal::StructAtomicRmwOr => ProposalOp::StructAtomicRmwOr(operand),
        OrderedIndicesProposal::StructAtomicRmwXor => ProposalOp::StructAtomicRmwXor(operand),
        OrderedIndicesProposal::StructAtomicRmwXchg => ProposalOp::StructAtomicRmwXchg(operand),
        OrderedIndicesProposal::StructAtomicRmwCmpxchg => ProposalOp::StructAtomicRmwCmpxchg(
            operand,
        ),
    }
}

/// The vector instruction of a word and a memory argument.
fn vector_memory<'a>(word: VectorMemoryWord, memarg: MemArg<'a>) -> VectorArgOp<'a>
    ensures word { vector_arg_word result ≡ words.Memory (memory_words.Vector word) }
    ensures operands { vector_arg_operands result ≡ spec.Memory (mem_arg_tree memarg.entry) }
{
    match word {
        VectorMemoryWord::V128Load => VectorArgOp::V128Load(memarg),
        VectorMemoryWord::V128Load8x8S => VectorArgOp::V128Load8x8S(memarg),
        VectorMemoryWord::V128Load8x8U => VectorArgOp::V128Load8x8U(memarg),
        VectorMemoryWord::V128Load16x4S => VectorArgOp::V128Load16x4S(memarg),
        VectorMemoryWord::V128Load16x4U => VectorArgOp::V128Load16x4U(memarg),
        VectorMemoryWord::V128Load32x2S => VectorArgOp::V128Load32x2S(memarg),
        VectorMemoryWord::V128Load32x2U => VectorArgOp::V128Load32x2U(memarg),
        VectorMemoryWord::V128Load8Splat => VectorArgOp::V128Load8Splat(memarg),
        VectorMemoryWord::V128Load16Splat => VectorArgOp::V128Load16Splat(memarg),
        VectorMemoryWord::V128Load32Splat => VectorArgOp::V128Load32Splat(memarg),
        VectorMemoryWord::V128Load64Splat => VectorArgOp::V128Load64Splat(memarg),
        VectorMemoryWord::V128Store => VectorArgOp::V128Store(memarg),
        VectorMemoryWord::V128Load32Zero => VectorArgOp::V128Load32Zero(memarg),
        VectorMemoryWord::V128Load64Zero => VectorArgOp::V128Load64Zero(memarg),
    }
}

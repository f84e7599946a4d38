//! What instructions say of names (6.5): operands as written, but the table of an indirect call before its type use.
ghost use Rattle.wast_core_instr.specs.InstructionViews.{instruction_tree, proposal_tree};
ghost use Rattle.wast_core_instr.specs.declared.instruction.Instruction.TheVariants as instructions;
ghost use Rattle.wast_meaning.specs.Mentions as spec;

use crate::judge::{Judge, Judgement};
use crate::operands::{
    tell_cast, tell_copy, tell_init, tell_member, tell_resume, tell_resume_throw, tell_two,
};
use crate::tell::{Mentions, Tell, tell_index, tell_index_if, tell_label};
use wast_core_instr::{BulkOp, GcOp, Instruction, ProposalOp, VectorArgOp};
use wast_meaning::Space;

impl Mentions for Instruction<'_> {
    ghost mentions = { λ i. spec.instr_mentions (instruction_tree i) };
}

impl<'a, J: Judge<'a>> Tell<'a, J> for Instruction<'a> {
    fn tell(&self, judge: &J) -> Result<(), J::Fault> {
        match self {
            Instruction::Unreachable
            | Instruction::Nop
            | Instruction::ThrowRef
            | Instruction::Return
            | Instruction::CatchAll
            | Instruction::Drop
            | Instruction::I32Const(_)
            | Instruction::I64Const(_)
            | Instruction::F32Const(_)
            | Instruction::F64Const(_)
            | Instruction::Compare(_)
            | Instruction::Numeric(_)
            | Instruction::Convert(_)
            | Instruction::Vector(_)
            | Instruction::VectorNarrow(_)
            | Instruction::VectorWide(_)
            | Instruction::VectorFloat(_)
            | Instruction::AtomicFence(_) => Ok(()),
            Instruction::Block(block)
            | Instruction::Loop(block)
            | Instruction::If(block)
            | Instruction::Try(block) => block.tell(judge),
            Instruction::TryTable(try_table) => try_table.tell(judge),
            Instruction::Else(label) | Instruction::End(label) => tell_label(label, judge),
            Instruction::Br(label)
            | Instruction::BrIf(label)
            | Instruction::Rethrow(label)
            | Instruction::Delegate(label) => tell_index(Space::Labels, label, judge),
            Instruction::BrTable(labels) => labels.tell(judge),
            Instruction::Catch(tag) | Instruction::Throw(tag) => {
                tell_index(Space::Tags, tag, judge)
            }
            Instruction::Call(function) | Instruction::ReturnCall(function) => {
                tell_index(Space::Functions, function, judge)
            }
            Instruction::CallRef(ty) | Instruction::ReturnCallRef(ty) => {
                tell_index(Space::Types, ty, judge)
            }
            Instruction::CallIndirect(call) | Instruction::ReturnCallIndirect(call) => {
                call.tell(judge)
            }
            Instruction::Select(types) => types.tell(judge),
            Instruction::LocalGet(local)
            | Instruction::LocalSet(local)
            | Instruction::LocalTee(local) => tell_index(Space::Locals, local, judge),
            Instruction::GlobalGet(global) | Instruction::GlobalSet(global) => {
                tell_index(Space::Globals, global, judge)
            }
            Instruction::TableGet(table) | Instruction::TableSet(table) => {
                tell_index_if(Space::Tables, &table.dst, judge)
            }
            Instruction::MemorySize(memory) | Instruction::MemoryGrow(memory) => {
                tell_index_if(Space::Memories, &memory.mem, judge)
            }
            Instruction::Access(_, memarg) => memarg.tell(judge),
            Instruction::Atomic(_, memarg) => memarg.tell(judge),
            Instruction::AtomicRmw(_, memarg) => memarg.tell(judge),
            Instruction::Bulk(op) => op.tell(judge),
            Instruction::Gc(op) => op.tell(judge),
            Instruction::VectorArg(op) => op.tell(judge),
            Instruction::Proposal(op) => op.tell(judge),
        }
    }
}

impl Mentions for BulkOp<'_> {
    ghost mentions = { λ op. spec.instr_mentions (instruction_tree (instructions.Bulk op)) };
}

impl<'a, J: Judge<'a>> Tell<'a, J> for BulkOp<'a> {
    fn tell(&self, judge: &J) -> Result<(), J::Fault> {
        match self {
            BulkOp::DataDrop(segment) => tell_index(Space::Datas, segment, judge),
            BulkOp::ElemDrop(segment) => tell_index(Space::Elems, segment, judge),
            BulkOp::MemoryFill(memory) => tell_index_if(Space::Memories, &memory.mem, judge),
            BulkOp::TableGrow(table) | BulkOp::TableSize(table) | BulkOp::TableFill(table) => {
                tell_index_if(Space::Tables, &table.dst, judge)
            }
            BulkOp::MemoryCopy(copy) => tell_copy(Space::Memories, &copy.memories, judge),
            BulkOp::TableCopy(copy) => tell_copy(Space::Tables, &copy.tables, judge),
            BulkOp::MemoryInit(init) => {
                tell_init(Space::Memories, &init.mem, Space::Datas, &init.data, judge)
            }
            BulkOp::TableInit(init) => {
                tell_init(Space::Tables, &init.table, Space::Elems, &init.elem, judge)
            }
        }
    }
}

impl Mentions for GcOp<'_> {
    ghost mentions = { λ op. spec.instr_mentions (instruction_tree (instructions.Gc op)) };
}

impl<'a, J: Judge<'a>> Tell<'a, J> for GcOp<'a> {
    fn tell(&self, judge: &J) -> Result<(), J::Fault> {
        match self {
            GcOp::RefIsNull
            | GcOp::RefEq
            | GcOp::RefAsNonNull
            | GcOp::ArrayLen
            | GcOp::AnyConvertExtern
            | GcOp::ExternConvertAny
            | GcOp::RefI31
            | GcOp::I31GetS
            | GcOp::I31GetU => Ok(()),
            GcOp::RefFunc(function) => tell_index(Space::Functions, function, judge),
            GcOp::BrOnNull(label) | GcOp::BrOnNonNull(label) => {
                tell_index(Space::Labels, label, judge)
            }
            GcOp::StructNew(ty)
            | GcOp::StructNewDefault(ty)
            | GcOp::ArrayNew(ty)
            | GcOp::ArrayNewDefault(ty)
            | GcOp::ArrayGet(ty)
            | GcOp::ArrayGetS(ty)
            | GcOp::ArrayGetU(ty)
            | GcOp::ArraySet(ty) => tell_index(Space::Types, ty, judge),
            GcOp::ArrayFill(fill) => tell_index(Space::Types, &fill.array, judge),
            GcOp::ArrayNewFixed(new) => tell_index(Space::Types, &new.array, judge),
            GcOp::StructGet(access)
            | GcOp::StructGetS(access)
            | GcOp::StructGetU(access)
            | GcOp::StructSet(access) => tell_member(access, judge),
            GcOp::ArrayNewData(new) => {
                tell_two(Space::Types, &new.array, Space::Datas, &new.data_idx, judge)
            }
            GcOp::ArrayNewElem(new) => {
                tell_two(Space::Types, &new.array, Space::Elems, &new.elem_idx, judge)
            }
            GcOp::ArrayCopy(copy) => {
                tell_two(
                    Space::Types,
                    &copy.dest_array,
                    Space::Types,
                    &copy.src_array,
                    judge,
                )
            }
            GcOp::ArrayInitData(init) => {
                tell_two(
                    Space::Types,
                    &init.array,
                    Space::Datas,
                    &init.segment,
                    judge,
                )
            }
            GcOp::ArrayInitElem(init) => {
                tell_two(
                    Space::Types,
                    &init.array,
                    Space::Elems,
                    &init.segment,
                    judge,
                )
            }
            GcOp::RefNull(heap) => heap.tell(judge),
            GcOp::RefTest(test) => test.ty.tell(judge),
            GcOp::RefCast(cast) => cast.ty.tell(judge),
            GcOp::BrOnCast(cast) => tell_cast(&cast.label, &cast.from_type, &cast.to_type, judge),
            GcOp::BrOnCastFail(cast) => {
                tell_cast(&cast.label, &cast.from_type, &cast.to_type, judge)
            }
        }
    }
}

impl Mentions for VectorArgOp<'_> {
    ghost mentions = { λ op. spec.instr_mentions (instruction_tree (instructions.VectorArg op)) };
}

impl<'a, J: Judge<'a>> Tell<'a, J> for VectorArgOp<'a> {
    fn tell(&self, judge: &J) -> Result<(), J::Fault> {
        match self {
            VectorArgOp::V128Load(memarg)
            | VectorArgOp::V128Load8x8S(memarg)
            | VectorArgOp::V128Load8x8U(memarg)
            | VectorArgOp::V128Load16x4S(memarg)
            | VectorArgOp::V128Load16x4U(memarg)
            | VectorArgOp::V128Load32x2S(memarg)
            | VectorArgOp::V128Load32x2U(memarg)
            | VectorArgOp::V128Load8Splat(memarg)
            | VectorArgOp::V128Load16Splat(memarg)
            | VectorArgOp::V128Load32Splat(memarg)
            | VectorArgOp::V128Load64Splat(memarg)
            | VectorArgOp::V128Store(memarg)
            | VectorArgOp::V128Load32Zero(memarg)
            | VectorArgOp::V128Load64Zero(memarg) => memarg.tell(judge),
            VectorArgOp::V128Load8Lane(access)
            | VectorArgOp::V128Load16Lane(access)
            | VectorArgOp::V128Load32Lane(access)
            | VectorArgOp::V128Load64Lane(access)
            | VectorArgOp::V128Store8Lane(access)
            | VectorArgOp::V128Store16Lane(access)
            | VectorArgOp::V128Store32Lane(access)
            | VectorArgOp::V128Store64Lane(access) => access.memarg.tell(judge),
            VectorArgOp::V128Const(_)
            | VectorArgOp::I8x16ExtractLaneS(_)
            | VectorArgOp::I8x16ExtractLaneU(_)
            | VectorArgOp::I8x16ReplaceLane(_)
            | VectorArgOp::I16x8ExtractLaneS(_)
            | VectorArgOp::I16x8ExtractLaneU(_)
            | VectorArgOp::I16x8ReplaceLane(_)
            | VectorArgOp::I32x4ExtractLane(_)
            | VectorArgOp::I32x4ReplaceLane(_)
            | VectorArgOp::I64x2ExtractLane(_)
            | VectorArgOp::I64x2ReplaceLane(_)
            | VectorArgOp::F32x4ExtractLane(_)
            | VectorArgOp::F32x4ReplaceLane(_)
            | VectorArgOp::F64x2ExtractLane(_)
            | VectorArgOp::F64x2ReplaceLane(_)
            | VectorArgOp::I8x16Shuffle(_) => Ok(()),
        }
    }
}

impl Mentions for ProposalOp<'_> {
    ghost mentions = { λ op. spec.instr_mentions (proposal_tree op) };
}

impl<'a, J: Judge<'a>> Tell<'a, J> for ProposalOp<'a> {
    fn tell(&self, judge: &J) -> Result<(), J::Fault> {
        match self {
            ProposalOp::Pause | ProposalOp::RefI31Shared => Ok(()),
            ProposalOp::ContNew(ty)
            | ProposalOp::StructNewDesc(ty)
            | ProposalOp::StructNewDefaultDesc(ty)
            | ProposalOp::RefGetDesc(ty) => tell_index(Space::Types, ty, judge),
            ProposalOp::Suspend(tag) => tell_index(Space::Tags, tag, judge),
            ProposalOp::ContBind(bind) => tell_two(
                Space::Types,
                &bind.argument_index,
                Space::Types,
                &bind.result_index,
                judge,
            ),
            ProposalOp::Switch(switch) => tell_two(
                Space::Types,
                &switch.type_index,
                Space::Tags,
                &switch.tag_index,
                judge,
            ),
            ProposalOp::MemoryDiscard(memory) => {
                tell_index_if(Space::Memories, &memory.mem, judge)
            }
            ProposalOp::RefCastDescEq(cast) => cast.ty.tell(judge),
            ProposalOp::BrOnCastDescEq(cast) => {
                tell_cast(&cast.label, &cast.from_type, &cast.to_type, judge)
            }
            ProposalOp::BrOnCastDescEqFail(cast) => {
                tell_cast(&cast.label, &cast.from_type, &cast.to_type, judge)
            }
            ProposalOp::Resume(resume) => tell_resume(&resume.type_index, &resume.table, judge),
            ProposalOp::ResumeThrowRef(resume) => {
                tell_resume(&resume.type_index, &resume.table, judge)
            }
            ProposalOp::ResumeThrow(resume) => {
                tell_resume_throw(&resume.type_index, &resume.tag_index, &resume.table, judge)
            }
            ProposalOp::GlobalAtomicGet(global)
            | ProposalOp::GlobalAtomicSet(global)
            | ProposalOp::GlobalAtomicRmwAdd(global)
            | ProposalOp::GlobalAtomicRmwSub(global)
            | ProposalOp::GlobalAtomicRmwAnd(global)
            | ProposalOp::GlobalAtomicRmwOr(global)
            | ProposalOp::GlobalAtomicRmwXor(global)
            | ProposalOp::GlobalAtomicRmwXchg(global)
            | ProposalOp::GlobalAtomicRmwCmpxchg(global) => {
                tell_index(Space::Globals, &global.inner, judge)
            }
            ProposalOp::ArrayAtomicGet(array)
            | ProposalOp::ArrayAtomicGetS(array)
            | ProposalOp::ArrayAtomicGetU(array)
            | ProposalOp::ArrayAtomicSet(array)
            | ProposalOp::ArrayAtomicRmwAdd(array)
            | ProposalOp::ArrayAtomicRmwSub(array)
            | ProposalOp::ArrayAtomicRmwAnd(array)
            | ProposalOp::ArrayAtomicRmwOr(array)
            | ProposalOp::ArrayAtomicRmwXor(array)
            | ProposalOp::ArrayAtomicRmwXchg(array)
            | ProposalOp::ArrayAtomicRmwCmpxchg(array) => {
                tell_index(Space::Types, &array.inner, judge)
            }
            ProposalOp::TableAtomicGet(table)
            | ProposalOp::TableAtomicSet(table)
            | ProposalOp::TableAtomicRmwXchg(table)
            | ProposalOp::TableAtomicRmwCmpxchg(table) => {
                tell_index_if(Space::Tables, &table.inner.dst, judge)
            }
            ProposalOp::StructAtomicGet(access)
            | ProposalOp::StructAtomicGetS(access)
            | ProposalOp::StructAtomicGetU(access)
            | ProposalOp::StructAtomicSet(access)
            | ProposalOp::StructAtomicRmwAdd(access)
            | ProposalOp::StructAtomicRmwSub(access)
            | ProposalOp::StructAtomicRmwAnd(access)
            | ProposalOp::StructAtomicRmwOr(access)
            | ProposalOp::StructAtomicRmwXor(access)
            | ProposalOp::StructAtomicRmwXchg(access)
            | ProposalOp::StructAtomicRmwCmpxchg(access) => tell_member(&access.inner, judge),
        }
    }
}

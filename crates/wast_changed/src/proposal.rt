//! Instructions of proposals.
ghost use Rattle.std.specs.Prelude.{◌≡◌};
ghost use Rattle.wast_core_instr.specs.InstructionViews.{proposal_operands};
ghost use Rattle.wast_core_instr.specs.WordViews.{proposal_word};
ghost use Rattle.wast_meaning.specs.Changed.{operands_changed};
ghost use Rattle.wast_changed.specs.Rows.{row_of};

use crate::changing::Changing;
use crate::operands::{
    change_handlers, change_memory_arg, change_struct_access, change_table_arg,
    change_type_and_index,
};
use crate::typed_operands::change_cast;
use crate::value_types::change_ref_type;
use wast_core_instr::ProposalOp;
use wast_meaning::Space;

/// An instruction of a proposal.
#[tactic(auto, using(crate::proofs::Rows::index_proposal_row, crate::proofs::Rows::indices_proposal_row, crate::proofs::Rows::discard_row, crate::proofs::Rows::ordered_index_row, crate::proofs::Rows::ordered_optional_row, crate::proofs::Rows::ordered_indices_row))]
pub(crate) fn change_proposal<'a, C: Changing<'a>>(change: &C, op: &mut ProposalOp<'a>)
    ensures word { proposal_word op.new ≡ proposal_word op.old }
    ensures operands { proposal_operands op.new ≡ operands_changed (C.change change.now) (row_of (proposal_word op.old)) (proposal_operands op.old) }
{
    match op {
        ProposalOp::Pause | ProposalOp::RefI31Shared => {}
        ProposalOp::ContNew(index) => change.index(Space::Types, index),
        ProposalOp::Suspend(index) => change.index(Space::Tags, index),
        ProposalOp::StructNewDesc(index) => change.index(Space::Types, index),
        ProposalOp::StructNewDefaultDesc(index) => change.index(Space::Types, index),
        ProposalOp::RefGetDesc(index) => change.index(Space::Types, index),
        ProposalOp::ContBind(bind) => {
            change_type_and_index(
                change,
                &mut bind.argument_index,
                Space::Types,
                &mut bind.result_index,
            )
        }
        ProposalOp::Switch(switch) => {
            change_type_and_index(
                change,
                &mut switch.type_index,
                Space::Tags,
                &mut switch.tag_index,
            )
        }
        ProposalOp::MemoryDiscard(memory) => change_memory_arg(change, memory),
        ProposalOp::RefCastDescEq(cast) => change_ref_type(change, &mut cast.ty),
        ProposalOp::GlobalAtomicGet(operand) => change.index(Space::Globals, &mut operand.inner),
        ProposalOp::GlobalAtomicSet(operand) => change.index(Space::Globals, &mut operand.inner),
        ProposalOp::GlobalAtomicRmwAdd(operand) => change.index(Space::Globals, &mut operand.inner),
        ProposalOp::GlobalAtomicRmwSub(operand) => change.index(Space::Globals, &mut operand.inner),
        ProposalOp::GlobalAtomicRmwAnd(operand) => change.index(Space::Globals, &mut operand.inner),
        ProposalOp::GlobalAtomicRmwOr(operand) => change.index(Space::Globals, &mut operand.inner),
        ProposalOp::GlobalAtomicRmwXor(operand) => change.index(Space::Globals, &mut operand.inner),
        ProposalOp::GlobalAtomicRmwXchg(operand) => change.index(
            Space::Globals,
            &mut operand.inner,
        ),
        ProposalOp::GlobalAtomicRmwCmpxchg(operand) => change.index(
            Space::Globals,
            &mut operand.inner,
        ),
        ProposalOp::ArrayAtomicGet(operand) => change.index(Space::Types, &mut operand.inner),
        ProposalOp::ArrayAtomicGetS(operand) => change.index(Space::Types, &mut operand.inner),
        ProposalOp::ArrayAtomicGetU(operand) => change.index(Space::Types, &mut operand.inner),
        ProposalOp::ArrayAtomicSet(operand) => change.index(Space::Types, &mut operand.inner),
        ProposalOp::ArrayAtomicRmwAdd(operand) => change.index(Space::Types, &mut operand.inner),
        ProposalOp::ArrayAtomicRmwSub(operand) => change.index(Space::Types, &mut operand.inner),
        ProposalOp::ArrayAtomicRmwAnd(operand) => change.index(Space::Types, &mut operand.inner),
        ProposalOp::ArrayAtomicRmwOr(operand) => change.index(Space::Types, &mut operand.inner),
        ProposalOp::ArrayAtomicRmwXor(operand) => change.index(Space::Types, &mut operand.inner),
        ProposalOp::ArrayAtomicRmwXchg(operand) => change.index(Space::Types, &mut operand.inner),
        ProposalOp::ArrayAtomicRmwCmpxchg(operand) => change.index(
            Space::Types,
            &mut operand.inner,
        ),
        ProposalOp::TableAtomicGet(operand) => change_table_arg(change, &mut operand.inner),
        ProposalOp::TableAtomicSet(operand) => change_table_arg(change, &mut operand.inner),
        ProposalOp::TableAtomicRmwXchg(operand) => change_table_arg(change, &mut operand.inner),
        ProposalOp::TableAtomicRmwCmpxchg(operand) => change_table_arg(change, &mut operand.inner),
        ProposalOp::StructAtomicGet(operand) => change_struct_access(change, &mut operand.inner),
        ProposalOp::StructAtomicGetS(operand) => change_struct_access(change, &mut operand.inner),
        ProposalOp::StructAtomicGetU(operand) => change_struct_access(change, &mut operand.inner),
        ProposalOp::StructAtomicSet(operand) => change_struct_access(change, &mut operand.inner),
        ProposalOp::StructAtomicRmwAdd(operand) => change_struct_access(change, &mut operand.inner),
        ProposalOp::StructAtomicRmwSub(operand) => change_struct_access(change, &mut operand.inner),
        ProposalOp::StructAtomicRmwAnd(operand) => change_struct_access(change, &mut operand.inner),
        ProposalOp::StructAtomicRmwOr(operand) => change_struct_access(change, &mut operand.inner),
        ProposalOp::StructAtomicRmwXor(operand) => change_struct_access(change, &mut operand.inner),
        ProposalOp::StructAtomicRmwXchg(operand) => change_struct_access(
            change,
            &mut operand.inner,
        ),
        ProposalOp::StructAtomicRmwCmpxchg(operand) => change_struct_access(
            change,
            &mut operand.inner,
        ),
        ProposalOp::BrOnCastDescEq(cast) => {
            let cast = cast.as_mut();
            change_cast(
                change,
                &mut cast.label,
                &mut cast.from_type,
                &mut cast.to_type,
            )
        }
        ProposalOp::BrOnCastDescEqFail(cast) => {
            let cast = cast.as_mut();
            change_cast(
                change,
                &mut cast.label,
                &mut cast.from_type,
                &mut cast.to_type,
            )
        }
        ProposalOp::Resume(resume) => {
            change.index(Space::Types, &mut resume.type_index);
            change_handlers(change, &mut resume.table)
        }
        ProposalOp::ResumeThrowRef(resume) => {
            change.index(Space::Types, &mut resume.type_index);
            change_handlers(change, &mut resume.table)
        }
        ProposalOp::ResumeThrow(resume) => {
            change_type_and_index(
                change,
                &mut resume.type_index,
                Space::Tags,
                &mut resume.tag_index,
            );
            change_handlers(change, &mut resume.table)
        }
    }
}

//! Vector instructions with operands.
ghost use Rattle.std.specs.Prelude.{◌≡◌};
ghost use Rattle.wast_operands.specs.OperandViews.{mem_arg_tree};
ghost use Rattle.wast_core_instr.specs.InstructionViews.{vector_arg_operands};
ghost use Rattle.wast_core_instr.specs.WordViews.{vector_arg_word};
ghost use Rattle.wast_meaning.specs.Changed.{mem_arg_changed, operands_changed};
ghost use Rattle.wast_changed.specs.Rows.{row_of};

use crate::changing::Changing;
use crate::operands::change_mem_arg;
use wast_core_instr::VectorArgOp;
use wast_operands::LoadOrStoreLane;

/// A vector instruction with operands (6.5, memory and vector instructions).
pub(crate) fn change_vector_arg<'a, C: Changing<'a>>(change: &C, op: &mut VectorArgOp<'a>)
    ensures word { vector_arg_word op.new ≡ vector_arg_word op.old }
    ensures operands { vector_arg_operands op.new ≡ operands_changed (C.change change.now) (row_of (vector_arg_word op.old)) (vector_arg_operands op.old) }
{
    match op {
        VectorArgOp::V128Load(memarg) => change_mem_arg(change, memarg),
        VectorArgOp::V128Load8x8S(memarg) => change_mem_arg(change, memarg),
        VectorArgOp::V128Load8x8U(memarg) => change_mem_arg(change, memarg),
        VectorArgOp::V128Load16x4S(memarg) => change_mem_arg(change, memarg),
        VectorArgOp::V128Load16x4U(memarg) => change_mem_arg(change, memarg),
        VectorArgOp::V128Load32x2S(memarg) => change_mem_arg(change, memarg),
        VectorArgOp::V128Load32x2U(memarg) => change_mem_arg(change, memarg),
        VectorArgOp::V128Load8Splat(memarg) => change_mem_arg(change, memarg),
        VectorArgOp::V128Load16Splat(memarg) => change_mem_arg(change, memarg),
        VectorArgOp::V128Load32Splat(memarg) => change_mem_arg(change, memarg),
        VectorArgOp::V128Load64Splat(memarg) => change_mem_arg(change, memarg),
        VectorArgOp::V128Store(memarg) => change_mem_arg(change, memarg),
        VectorArgOp::V128Load32Zero(memarg) => change_mem_arg(change, memarg),
        VectorArgOp::V128Load64Zero(memarg) => change_mem_arg(change, memarg),
        VectorArgOp::V128Load8Lane(access) => change_lane_access(change, access),
        VectorArgOp::V128Load16Lane(access) => change_lane_access(change, access),
        VectorArgOp::V128Load32Lane(access) => change_lane_access(change, access),
        VectorArgOp::V128Load64Lane(access) => change_lane_access(change, access),
        VectorArgOp::V128Store8Lane(access) => change_lane_access(change, access),
        VectorArgOp::V128Store16Lane(access) => change_lane_access(change, access),
        VectorArgOp::V128Store32Lane(access) => change_lane_access(change, access),
        VectorArgOp::V128Store64Lane(access) => change_lane_access(change, access),
        VectorArgOp::V128Const(_)
        | VectorArgOp::I8x16ExtractLaneS(_)
        | VectorArgOp::I8x16ExtractLaneU(_)
        | VectorArgOp::I8x16ReplaceLane(_)
        | VectorArgOp::I16x8ExtractLaneS(_)
        | VectorArgOp::I16x8ExtractLaneU(_)
        | VectorArgOp::I16x8ReplaceLane(_)
        | VectorArgOp::I32x4ExtractLane(_)
        | VectorArgOp::I32x4ReplaceLane(_)
        | VectorArgOp::I64x2ExtractLane(_)
        | VectorArgOp::I64x2ReplaceLane(_)
        | VectorArgOp::F32x4ExtractLane(_)
        | VectorArgOp::F32x4ReplaceLane(_)
        | VectorArgOp::F64x2ExtractLane(_)
        | VectorArgOp::F64x2ReplaceLane(_)
        | VectorArgOp::I8x16Shuffle(_) => {}
    }
}

/// A memory argument and a lane (6.5, memory instructions).
fn change_lane_access<'a, C: Changing<'a>>(change: &C, access: &mut LoadOrStoreLane<'a>)
    ensures memarg { mem_arg_tree access.new.memarg ≡ mem_arg_changed (C.change change.now) (mem_arg_tree access.old.memarg) }
    ensures lane { access.new.lane ≡ access.old.lane }
{
    change_mem_arg(change, &mut access.memarg);
}

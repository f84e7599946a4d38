//! Vector instructions with operands.
ghost use Rattle.std.specs.Prelude.{◌≡◌, []};
ghost use Rattle.wasm_encoder_base.specs.Instr.{in_range};
ghost use Rattle.wasm_encoder_instr.specs.VectorArg.{vector_arg_mnemonic, vector_arg_view};
ghost use Rattle.wast_mnemonics.specs.Mnemonics.{word_mnemonic};
ghost use Rattle.wast_core_instr.specs.InstructionViews.{vector_arg_operands};
ghost use Rattle.wast_core_instr.specs.WordViews.{vector_arg_word};
ghost use Rattle.wast_conversions.specs.Operands.{operands_meant, OperandsAligned};
ghost use Rattle.wast_conversions.specs.Resolved.{OperandsResolved};
ghost use Rattle.wast_conversions.specs.Covered.{operand_forms};
ghost use Rattle.wast_conversions.specs.Rows.{row_of};

use crate::operands::{lane_arg, mem_arg, shuffle, v128_const};
use wast_core_instr::VectorArgOp;

/// A vector instruction with operands (6.5, memory and vector instructions).
pub(crate) fn vector_arg(op: &VectorArgOp<'_>) -> wasm_encoder_instr::VectorArgOp
    requires resolved { OperandsResolved (vector_arg_operands op.now) }
    requires covered { operand_forms (vector_arg_operands op.now) ≡ [] }
    ensures mnemonic { vector_arg_mnemonic result ≡ word_mnemonic (vector_arg_word op.now) }
    ensures operands { (vector_arg_view result).operands ≡ operands_meant (row_of (vector_arg_word op.now)) (vector_arg_operands op.now) }
    ensures sound { OperandsAligned (vector_arg_operands op.now) → in_range (operands_meant (row_of (vector_arg_word op.now)) (vector_arg_operands op.now)) }
{
    match op {
        VectorArgOp::V128Const(value) => wasm_encoder_instr::VectorArgOp::V128Const(v128_const(
            value,
        )),
        VectorArgOp::I8x16Shuffle(lanes) => wasm_encoder_instr::VectorArgOp::I8x16Shuffle(shuffle(
            lanes,
        )),
        VectorArgOp::I8x16ExtractLaneS(lane) => wasm_encoder_instr::VectorArgOp::I8x16ExtractLaneS(
            lane_arg(*lane),
        ),
        VectorArgOp::I8x16ExtractLaneU(lane) => wasm_encoder_instr::VectorArgOp::I8x16ExtractLaneU(
            lane_arg(*lane),
        ),
        VectorArgOp::I8x16ReplaceLane(lane) => wasm_encoder_instr::VectorArgOp::I8x16ReplaceLane(
            lane_arg(*lane),
        ),
        VectorArgOp::I16x8ExtractLaneS(lane) => wasm_encoder_instr::VectorArgOp::I16x8ExtractLaneS(
            lane_arg(*lane),
        ),
        VectorArgOp::I16x8ExtractLaneU(lane) => wasm_encoder_instr::VectorArgOp::I16x8ExtractLaneU(
            lane_arg(*lane),
        ),
        VectorArgOp::I16x8ReplaceLane(lane) => wasm_encoder_instr::VectorArgOp::I16x8ReplaceLane(
            lane_arg(*lane),
        ),
        VectorArgOp::I32x4ExtractLane(lane) => wasm_encoder_instr::VectorArgOp::I32x4ExtractLane(
            lane_arg(*lane),
        ),
        VectorArgOp::I32x4ReplaceLane(lane) => wasm_encoder_instr::VectorArgOp::I32x4ReplaceLane(
            lane_arg(*lane),
        ),
        VectorArgOp::I64x2ExtractLane(lane) => wasm_encoder_instr::VectorArgOp::I64x2ExtractLane(
            lane_arg(*lane),
        ),
        VectorArgOp::I64x2ReplaceLane(lane) => wasm_encoder_instr::VectorArgOp::I64x2ReplaceLane(
            lane_arg(*lane),
        ),
        VectorArgOp::F32x4ExtractLane(lane) => wasm_encoder_instr::VectorArgOp::F32x4ExtractLane(
            lane_arg(*lane),
        ),
        VectorArgOp::F32x4ReplaceLane(lane) => wasm_encoder_instr::VectorArgOp::F32x4ReplaceLane(
            lane_arg(*lane),
        ),
        VectorArgOp::F64x2ExtractLane(lane) => wasm_encoder_instr::VectorArgOp::F64x2ExtractLane(
            lane_arg(*lane),
        ),
        VectorArgOp::F64x2ReplaceLane(lane) => wasm_encoder_instr::VectorArgOp::F64x2ReplaceLane(
            lane_arg(*lane),
        ),
        VectorArgOp::V128Load(memarg) => wasm_encoder_instr::VectorArgOp::V128Load(mem_arg(memarg)),
        VectorArgOp::V128Load8x8S(memarg) => wasm_encoder_instr::VectorArgOp::V128Load8x8S(mem_arg(
            memarg,
        )),
        VectorArgOp::V128Load8x8U(memarg) => wasm_encoder_instr::VectorArgOp::V128Load8x8U(mem_arg(
            memarg,
        )),
        VectorArgOp::V128Load16x4S(memarg) => wasm_encoder_instr::VectorArgOp::V128Load16x4S(
            mem_arg(memarg),
        ),
        VectorArgOp::V128Load16x4U(memarg) => wasm_encoder_instr::VectorArgOp::V128Load16x4U(
            mem_arg(memarg),
        ),
        VectorArgOp::V128Load32x2S(memarg) => wasm_encoder_instr::VectorArgOp::V128Load32x2S(
            mem_arg(memarg),
        ),
        VectorArgOp::V128Load32x2U(memarg) => wasm_encoder_instr::VectorArgOp::V128Load32x2U(
            mem_arg(memarg),
        ),
        VectorArgOp::V128Load8Splat(memarg) => wasm_encoder_instr::VectorArgOp::V128Load8Splat(
            mem_arg(memarg),
        ),
        VectorArgOp::V128Load16Splat(memarg) => wasm_encoder_instr::VectorArgOp::V128Load16Splat(
            mem_arg(memarg),
        ),
        VectorArgOp::V128Load32Splat(memarg) => wasm_encoder_instr::VectorArgOp::V128Load32Splat(
            mem_arg(memarg),
        ),
        VectorArgOp::V128Load64Splat(memarg) => wasm_encoder_instr::VectorArgOp::V128Load64Splat(
            mem_arg(memarg),
        ),
        VectorArgOp::V128Store(memarg) => wasm_encoder_instr::VectorArgOp::V128Store(mem_arg(
            memarg,
        )),
        VectorArgOp::V128Load32Zero(memarg) => wasm_encoder_instr::VectorArgOp::V128Load32Zero(
            mem_arg(memarg),
        ),
        VectorArgOp::V128Load64Zero(memarg) => wasm_encoder_instr::VectorArgOp::V128Load64Zero(
            mem_arg(memarg),
        ),
        VectorArgOp::V128Load8Lane(access) => wasm_encoder_instr::VectorArgOp::V128Load8Lane {
            memarg: mem_arg(&access.memarg),
            lane: lane_arg(access.lane),
        },
        VectorArgOp::V128Load16Lane(access) => wasm_encoder_instr::VectorArgOp::V128Load16Lane {
            memarg: mem_arg(&access.memarg),
            lane: lane_arg(access.lane),
        },
        VectorArgOp::V128Load32Lane(access) => wasm_encoder_instr::VectorArgOp::V128Load32Lane {
            memarg: mem_arg(&access.memarg),
            lane: lane_arg(access.lane),
        },
        VectorArgOp::V128Load64Lane(access) => wasm_encoder_instr::VectorArgOp::V128Load64Lane {
            memarg: mem_arg(&access.memarg),
            lane: lane_arg(access.lane),
        },
        VectorArgOp::V128Store8Lane(access) => wasm_encoder_instr::VectorArgOp::V128Store8Lane {
            memarg: mem_arg(&access.memarg),
            lane: lane_arg(access.lane),
        },
        VectorArgOp::V128Store16Lane(access) => wasm_encoder_instr::VectorArgOp::V128Store16Lane {
            memarg: mem_arg(&access.memarg),
            lane: lane_arg(access.lane),
        },
        VectorArgOp::V128Store32Lane(access) => wasm_encoder_instr::VectorArgOp::V128Store32Lane {
            memarg: mem_arg(&access.memarg),
            lane: lane_arg(access.lane),
        },
        VectorArgOp::V128Store64Lane(access) => wasm_encoder_instr::VectorArgOp::V128Store64Lane {
            memarg: mem_arg(&access.memarg),
            lane: lane_arg(access.lane),
        },
    }
}

ghost use Rattle.std.specs.Prelude.{◌↔◌, IsTrue};
ghost use Rattle.wasm_encoder_instr.specs.VectorArg.{can_encode_vector_arg};

use crate::mem_arg::{Lane, MemArg};
use crate::operand::encode_v128;
use wasm_encoder_base::{Encode, EncodeError, RawBytes, encode_both};
use wasm_encoder_opcodes::Prefixed;

/// Vector instructions with operands: opcodes FD.
#[derive(Clone, Copy, Debug)]
pub enum VectorArgOp {
    V128Load(MemArg),
    V128Load8x8S(MemArg),
    V128Load8x8U(MemArg),
    V128Load16x4S(MemArg),
    V128Load16x4U(MemArg),
    V128Load32x2S(MemArg),
    V128Load32x2U(MemArg),
    V128Load8Splat(MemArg),
    V128Load16Splat(MemArg),
    V128Load32Splat(MemArg),
    V128Load64Splat(MemArg),
    V128Store(MemArg),
    /// 16 bytes, the lowest first.
    V128Const(i128),
    /// The lanes in order.
    I8x16Shuffle([Lane; 16]),
    I8x16ExtractLaneS(Lane),
    I8x16ExtractLaneU(Lane),
    I8x16ReplaceLane(Lane),
    I16x8ExtractLaneS(Lane),
    I16x8ExtractLaneU(Lane),
    I16x8ReplaceLane(Lane),
    I32x4ExtractLane(Lane),
    I32x4ReplaceLane(Lane),
    I64x2ExtractLane(Lane),
    I64x2ReplaceLane(Lane),
    F32x4ExtractLane(Lane),
    F32x4ReplaceLane(Lane),
    F64x2ExtractLane(Lane),
    F64x2ReplaceLane(Lane),
    V128Load8Lane { memarg: MemArg, lane: Lane },
    V128Load16Lane { memarg: MemArg, lane: Lane },
    V128Load32Lane { memarg: MemArg, lane: Lane },
    V128Load64Lane { memarg: MemArg, lane: Lane },
    V128Store8Lane { memarg: MemArg, lane: Lane },
    V128Store16Lane { memarg: MemArg, lane: Lane },
    V128Store32Lane { memarg: MemArg, lane: Lane },
    V128Store64Lane { memarg: MemArg, lane: Lane },
    V128Load32Zero(MemArg),
    V128Load64Zero(MemArg),
}

impl VectorArgOp {
    /// Whether the instruction can be encoded: whether the logarithm of the alignment of its memory argument, if it has one, is below 16.
    pub fn can_encode(&self) -> bool
        ensures { IsTrue result ↔ can_encode_vector_arg self.now }
    {
        match self {
            VectorArgOp::V128Load(memarg)
            | VectorArgOp::V128Load8x8S(memarg)
            | VectorArgOp::V128Load8x8U(memarg)
            | VectorArgOp::V128Load16x4S(memarg)
            | VectorArgOp::V128Load16x4U(memarg)
            | VectorArgOp::V128Load32x2S(memarg)
            | VectorArgOp::V128Load32x2U(memarg)
            | VectorArgOp::V128Load8Splat(memarg)
            | VectorArgOp::V128Load16Splat(memarg)
            | VectorArgOp::V128Load32Splat(memarg)
            | VectorArgOp::V128Load64Splat(memarg)
            | VectorArgOp::V128Store(memarg)
            | VectorArgOp::V128Load32Zero(memarg)
            | VectorArgOp::V128Load64Zero(memarg)
            | VectorArgOp::V128Load8Lane { memarg, .. }
            | VectorArgOp::V128Load16Lane { memarg, .. }
            | VectorArgOp::V128Load32Lane { memarg, .. }
            | VectorArgOp::V128Load64Lane { memarg, .. }
            | VectorArgOp::V128Store8Lane { memarg, .. }
            | VectorArgOp::V128Store16Lane { memarg, .. }
            | VectorArgOp::V128Store32Lane { memarg, .. }
            | VectorArgOp::V128Store64Lane { memarg, .. } => memarg.can_encode(),
            _ => true,
        }
    }
}

/// The opcode and the operands.
impl Encode for VectorArgOp {
    ghost use Rattle.wasm_encoder_base.specs.Instr.{instr_bytes};
    ghost use Rattle.wasm_encoder_instr.specs.VectorArg.{vector_arg_view, can_encode_vector_arg};

    ghost can_encode = { can_encode_vector_arg };

    ghost fits = { λ _. Unit {0} };

    ghost spelling = { λ op. instr_bytes (vector_arg_view op) };

    fn encode(&self, sink: &mut Vec<u8>) -> Result<(), EncodeError> {
        match self {
            VectorArgOp::V128Load(memarg) => encode_both(&Prefixed(0xFD, 0), memarg, sink),
            VectorArgOp::V128Load8x8S(memarg) => encode_both(&Prefixed(0xFD, 1), memarg, sink),
            VectorArgOp::V128Load8x8U(memarg) => encode_both(&Prefixed(0xFD, 2), memarg, sink),
            VectorArgOp::V128Load16x4S(memarg) => encode_both(&Prefixed(0xFD, 3), memarg, sink),
            VectorArgOp::V128Load16x4U(memarg) => encode_both(&Prefixed(0xFD, 4), memarg, sink),
            VectorArgOp::V128Load32x2S(memarg) => encode_both(&Prefixed(0xFD, 5), memarg, sink),
            VectorArgOp::V128Load32x2U(memarg) => encode_both(&Prefixed(0xFD, 6), memarg, sink),
            VectorArgOp::V128Load8Splat(memarg) => encode_both(&Prefixed(0xFD, 7), memarg, sink),
            VectorArgOp::V128Load16Splat(memarg) => encode_both(&Prefixed(0xFD, 8), memarg, sink),
            VectorArgOp::V128Load32Splat(memarg) => encode_both(&Prefixed(0xFD, 9), memarg, sink),
            VectorArgOp::V128Load64Splat(memarg) => encode_both(&Prefixed(0xFD, 10), memarg, sink),
            VectorArgOp::V128Store(memarg) => encode_both(&Prefixed(0xFD, 11), memarg, sink),
            VectorArgOp::V128Const(value) => encode_v128(&Prefixed(0xFD, 12), *value, sink),
            VectorArgOp::I8x16Shuffle(lanes) => encode_both(
                &Prefixed(0xFD, 13),
                &RawBytes(lanes),
                sink,
            ),
            VectorArgOp::I8x16ExtractLaneS(lane) => encode_both(&Prefixed(0xFD, 21), lane, sink),
            VectorArgOp::I8x16ExtractLaneU(lane) => encode_both(&Prefixed(0xFD, 22), lane, sink),
            VectorArgOp::I8x16ReplaceLane(lane) => encode_both(&Prefixed(0xFD, 23), lane, sink),
            VectorArgOp::I16x8ExtractLaneS(lane) => encode_both(&Prefixed(0xFD, 24), lane, sink),
            VectorArgOp::I16x8ExtractLaneU(lane) => encode_both(&Prefixed(0xFD, 25), lane, sink),
            VectorArgOp::I16x8ReplaceLane(lane) => encode_both(&Prefixed(0xFD, 26), lane, sink),
            VectorArgOp::I32x4ExtractLane(lane) => encode_both(&Prefixed(0xFD, 27), lane, sink),
            VectorArgOp::I32x4ReplaceLane(lane) => encode_both(&Prefixed(0xFD, 28), lane, sink),
            VectorArgOp::I64x2ExtractLane(lane) => encode_both(&Prefixed(0xFD, 29), lane, sink),
            VectorArgOp::I64x2ReplaceLane(lane) => encode_both(&Prefixed(0xFD, 30), lane, sink),
            VectorArgOp::F32x4ExtractLane(lane) => encode_both(&Prefixed(0xFD, 31), lane, sink),
            VectorArgOp::F32x4ReplaceLane(lane) => encode_both(&Prefixed(0xFD, 32), lane, sink),
            VectorArgOp::F64x2ExtractLane(lane) => encode_both(&Prefixed(0xFD, 33), lane, sink),
            VectorArgOp::F64x2ReplaceLane(lane) => encode_both(&Prefixed(0xFD, 34), lane, sink),
            VectorArgOp::V128Load8Lane { memarg, lane } => encode_both(
                &Prefixed(0xFD, 84),
                &(memarg, lane),
                sink,
            ),
            VectorArgOp::V128Load16Lane { memarg, lane } => encode_both(
                &Prefixed(0xFD, 85),
                &(memarg, lane),
                sink,
            ),
            VectorArgOp::V128Load32Lane { memarg, lane } => encode_both(
                &Prefixed(0xFD, 86),
                &(memarg, lane),
                sink,
            ),
            VectorArgOp::V128Load64Lane { memarg, lane } => encode_both(
                &Prefixed(0xFD, 87),
                &(memarg, lane),
                sink,
            ),
            VectorArgOp::V128Store8Lane { memarg, lane } => encode_both(
                &Prefixed(0xFD, 88),
                &(memarg, lane),
                sink,
            ),
            VectorArgOp::V128Store16Lane { memarg, lane } => encode_both(
                &Prefixed(0xFD, 89),
                &(memarg, lane),
                sink,
            ),
            VectorArgOp::V128Store32Lane { memarg, lane } => encode_both(
                &Prefixed(0xFD, 90),
                &(memarg, lane),
                sink,
            ),
            VectorArgOp::V128Store64Lane { memarg, lane } => encode_both(
                &Prefixed(0xFD, 91),
                &(memarg, lane),
                sink,
            ),
            VectorArgOp::V128Load32Zero(memarg) => encode_both(&Prefixed(0xFD, 92), memarg, sink),
            VectorArgOp::V128Load64Zero(memarg) => encode_both(&Prefixed(0xFD, 93), memarg, sink),
        }
    }
}

ghost use Rattle.std.specs.Prelude.{◌≡◌, ◌+◌, ◌++◌, ◌<◌};

use crate::prefixed::Prefixed;
use wasm_encoder_base::{Encode, EncodeError};

/// Vector instructions without operands: opcodes FD 160 to 223. Each variant's number is that of its opcode.
#[derive(Clone, Copy, Debug)]
pub enum VectorWideOp {
    I32x4Abs = 160,
    I32x4Neg,
    I32x4AllTrue = 163,
    I32x4Bitmask,
    I32x4ExtendLowI16x8S = 167,
    I32x4ExtendHighI16x8S,
    I32x4ExtendLowI16x8U,
    I32x4ExtendHighI16x8U,
    I32x4Shl,
    I32x4ShrS,
    I32x4ShrU,
    I32x4Add,
    I32x4Sub = 177,
    I32x4Mul = 181,
    I32x4MinS,
    I32x4MinU,
    I32x4MaxS,
    I32x4MaxU,
    I32x4DotI16x8S,
    I32x4ExtMulLowI16x8S = 188,
    I32x4ExtMulHighI16x8S,
    I32x4ExtMulLowI16x8U,
    I32x4ExtMulHighI16x8U,
    I64x2Abs,
    I64x2Neg,
    I64x2AllTrue = 195,
    I64x2Bitmask,
    I64x2ExtendLowI32x4S = 199,
    I64x2ExtendHighI32x4S,
    I64x2ExtendLowI32x4U,
    I64x2ExtendHighI32x4U,
    I64x2Shl,
    I64x2ShrS,
    I64x2ShrU,
    I64x2Add,
    I64x2Sub = 209,
    I64x2Mul = 213,
    I64x2Eq,
    I64x2Ne,
    I64x2LtS,
    I64x2GtS,
    I64x2LeS,
    I64x2GeS,
    I64x2ExtMulLowI32x4S,
    I64x2ExtMulHighI32x4S,
    I64x2ExtMulLowI32x4U,
    I64x2ExtMulHighI32x4U,
}

/// The opcode.
impl Encode for VectorWideOp {
    ghost use Rattle.wasm_encoder_opcodes.specs.VectorWide.{vector_wide_opcode};

    ghost can_encode = { λ _. Unit {0} };

    ghost fits = { λ _. Unit {0} };

    ghost spelling = { vector_wide_opcode };

    fn encode(&self, sink: &mut Vec<u8>) -> Result<(), EncodeError> {
        Prefixed(0xFD, *self as u32).encode(sink)
    }
}

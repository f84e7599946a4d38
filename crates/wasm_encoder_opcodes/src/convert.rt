ghost use Rattle.std.specs.Prelude.{◌≡◌, ◌+◌, ◌++◌, ◌<◌};

use crate::prefixed::Prefixed;
use wasm_encoder_base::{Encode, EncodeError};

/// Conversions of numbers, and the numbers of 128 bits: opcodes A7 to C4, and FC 0 to 7 and 19 to 22. Each variant's number is that of its opcode.
#[derive(Clone, Copy, Debug)]
pub enum ConvertOp {
    I32WrapI64 = 0xA7,
    I32TruncF32S,
    I32TruncF32U,
    I32TruncF64S,
    I32TruncF64U,
    I64ExtendI32S,
    I64ExtendI32U,
    I64TruncF32S,
    I64TruncF32U,
    I64TruncF64S,
    I64TruncF64U,
    F32ConvertI32S,
    F32ConvertI32U,
    F32ConvertI64S,
    F32ConvertI64U,
    F32DemoteF64,
    F64ConvertI32S,
    F64ConvertI32U,
    F64ConvertI64S,
    F64ConvertI64U,
    F64PromoteF32,
    I32ReinterpretF32,
    I64ReinterpretF64,
    F32ReinterpretI32,
    F64ReinterpretI64,
    I32Extend8S,
    I32Extend16S,
    I64Extend8S,
    I64Extend16S,
    I64Extend32S,
    I32TruncSatF32S = 0,
    I32TruncSatF32U,
    I32TruncSatF64S,
    I32TruncSatF64U,
    I64TruncSatF32S,
    I64TruncSatF32U,
    I64TruncSatF64S,
    I64TruncSatF64U,
    I64Add128 = 19,
    I64Sub128,
    I64MulWideS,
    I64MulWideU,
}

/// The opcode.
impl Encode for ConvertOp {
    ghost use Rattle.wasm_encoder_opcodes.specs.Convert.{convert_opcode};

    ghost can_encode = { λ _. Unit {0} };

    ghost fits = { λ _. Unit {0} };

    ghost spelling = { convert_opcode };

    fn encode(&self, sink: &mut Vec<u8>) -> Result<(), EncodeError> {
        let code = *self as u8;
        if code < 0xA7 {
            Prefixed(0xFC, u32::from(code)).encode(sink)
        } else {
            code.encode(sink)
        }
    }
}

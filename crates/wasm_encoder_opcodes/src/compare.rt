ghost use Rattle.std.specs.Prelude.{◌≡◌, ◌+◌, ◌++◌, ◌<◌};

use wasm_encoder_base::{Encode, EncodeError};

/// Comparisons of numbers: opcodes 45 to 66. Each variant's number is that of its opcode.
#[derive(Clone, Copy, Debug)]
pub enum CompareOp {
    I32Eqz = 0x45,
    I32Eq,
    I32Ne,
    I32LtS,
    I32LtU,
    I32GtS,
    I32GtU,
    I32LeS,
    I32LeU,
    I32GeS,
    I32GeU,
    I64Eqz,
    I64Eq,
    I64Ne,
    I64LtS,
    I64LtU,
    I64GtS,
    I64GtU,
    I64LeS,
    I64LeU,
    I64GeS,
    I64GeU,
    F32Eq,
    F32Ne,
    F32Lt,
    F32Gt,
    F32Le,
    F32Ge,
    F64Eq,
    F64Ne,
    F64Lt,
    F64Gt,
    F64Le,
    F64Ge,
}

/// The opcode.
impl Encode for CompareOp {
    ghost use Rattle.wasm_encoder_opcodes.specs.Compare.{compare_opcode};

    ghost can_encode = { λ _. Unit {0} };

    ghost fits = { λ _. Unit {0} };

    ghost spelling = { compare_opcode };

    fn encode(&self, sink: &mut Vec<u8>) -> Result<(), EncodeError> {
        (*self as u8).encode(sink)
    }
}

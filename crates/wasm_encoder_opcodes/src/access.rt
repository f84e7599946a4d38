ghost use Rattle.std.specs.Prelude.{◌≡◌, ◌+◌, ◌++◌, ◌<◌};

use wasm_encoder_base::{Encode, EncodeError};

/// Loads and stores of numbers: opcodes 28 to 3E. Each variant's number is that of its opcode.
#[derive(Clone, Copy, Debug)]
pub enum AccessOp {
    I32Load = 0x28,
    I64Load,
    F32Load,
    F64Load,
    I32Load8S,
    I32Load8U,
    I32Load16S,
    I32Load16U,
    I64Load8S,
    I64Load8U,
    I64Load16S,
    I64Load16U,
    I64Load32S,
    I64Load32U,
    I32Store,
    I64Store,
    F32Store,
    F64Store,
    I32Store8,
    I32Store16,
    I64Store8,
    I64Store16,
    I64Store32,
}

/// The opcode, without the memory argument.
impl Encode for AccessOp {
    ghost use Rattle.wasm_encoder_opcodes.specs.Access.{access_opcode};

    ghost can_encode = { λ _. Unit {0} };

    ghost fits = { λ _. Unit {0} };

    ghost spelling = { access_opcode };

    fn encode(&self, sink: &mut Vec<u8>) -> Result<(), EncodeError> {
        (*self as u8).encode(sink)
    }
}

ghost use Rattle.std.specs.Prelude.{◌≡◌, ◌+◌, ◌++◌, ◌<◌};

use wasm_encoder_base::{Encode, EncodeError, ValType};

/// The type of a block (5.4).
#[derive(Clone, Copy, Debug)]
pub enum BlockType {
    /// No parameters and no results.
    Empty,
    /// One result.
    Result(ValType),
    /// The function type with this index.
    FunctionType(u32),
}

/// 40, the value type, or the index as a signed number.
impl Encode for BlockType {
    ghost use Rattle.wasm_encoder_base.specs.Instr.{block_bytes};
    ghost use Rattle.wasm_encoder_instr.specs.Block.{block_view};

    ghost can_encode = { λ _. Unit {0} };

    ghost fits = { λ _. Unit {0} };

    ghost spelling = { λ block_type. block_bytes (block_view block_type) };

    fn encode(&self, sink: &mut Vec<u8>) -> Result<(), EncodeError> {
        match self {
            BlockType::Empty => 0x40u8.encode(sink),
            BlockType::Result(val_type) => val_type.encode(sink),
            BlockType::FunctionType(index) => i64::from(*index).encode(sink),
        }
    }
}

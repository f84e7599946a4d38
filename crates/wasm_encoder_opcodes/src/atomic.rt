ghost use Rattle.std.specs.Prelude.{◌≡◌, ◌+◌, ◌++◌, ◌<◌};

use crate::prefixed::Prefixed;
use wasm_encoder_base::{Encode, EncodeError};

/// Atomic waits, loads and stores: opcodes FE below 30. Each variant's number is that of its opcode.
#[derive(Clone, Copy, Debug)]
pub enum AtomicOp {
    MemoryAtomicNotify = 0,
    MemoryAtomicWait32,
    MemoryAtomicWait64,
    I32AtomicLoad = 16,
    I64AtomicLoad,
    I32AtomicLoad8U,
    I32AtomicLoad16U,
    I64AtomicLoad8U,
    I64AtomicLoad16U,
    I64AtomicLoad32U,
    I32AtomicStore,
    I64AtomicStore,
    I32AtomicStore8,
    I32AtomicStore16,
    I64AtomicStore8,
    I64AtomicStore16,
    I64AtomicStore32,
}

/// The opcode, without the memory argument.
impl Encode for AtomicOp {
    ghost use Rattle.wasm_encoder_opcodes.specs.Atomic.{atomic_opcode};

    ghost can_encode = { λ _. Unit {0} };

    ghost fits = { λ _. Unit {0} };

    ghost spelling = { atomic_opcode };

    fn encode(&self, sink: &mut Vec<u8>) -> Result<(), EncodeError> {
        Prefixed(0xFE, *self as u32).encode(sink)
    }
}

ghost use Rattle.std.specs.Prelude.{◌≡◌, ◌+◌, ◌++◌, ◌<◌};

use wasm_encoder_base::{Encode, EncodeError};

/// How an atomic instruction is ordered among the others (a proposal). No [`Instruction`](crate::Instruction) has one.
#[derive(Clone, Copy, Debug, PartialEq, Eq, Hash)]
pub enum Ordering {
    SeqCst,
    AcqRel,
}

/// Its byte: 00 or 01.
impl Encode for Ordering {
    ghost use Rattle.wasm_encoder_instr.specs.Ordering.{ordering_bytes};

    ghost can_encode = { λ _. Unit {0} };

    ghost fits = { λ _. Unit {0} };

    ghost spelling = { ordering_bytes };

    fn encode(&self, sink: &mut Vec<u8>) -> Result<(), EncodeError> {
        let byte: u8 = match self {
            Ordering::SeqCst => 0x00,
            Ordering::AcqRel => 0x01,
        };
        byte.encode(sink)
    }
}

/// The ordering of a memory argument: of an instruction that reads or writes, or of one that does both (a proposal).
#[derive(Clone, Copy, Debug, PartialEq, Eq, Hash)]
pub enum MemArgOrdering {
    Op(Ordering),
    Rmw(Ordering),
}

/// The ordering's byte; for an instruction that reads and writes, 00 or 11.
impl Encode for MemArgOrdering {
    ghost use Rattle.wasm_encoder_instr.specs.Ordering.{mem_arg_ordering_bytes};

    ghost can_encode = { λ _. Unit {0} };

    ghost fits = { λ _. Unit {0} };

    ghost spelling = { mem_arg_ordering_bytes };

    fn encode(&self, sink: &mut Vec<u8>) -> Result<(), EncodeError> {
        let byte: u8 = match self {
            MemArgOrdering::Op(Ordering::SeqCst) => 0x00,
            MemArgOrdering::Op(Ordering::AcqRel) => 0x01,
            MemArgOrdering::Rmw(Ordering::SeqCst) => 0x00,
            MemArgOrdering::Rmw(Ordering::AcqRel) => 0x11,
        };
        byte.encode(sink)
    }
}

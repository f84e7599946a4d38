//! Natural alignments (6.5, memory instructions).
ghost use Rattle.std.specs.Prelude.{◌≡◌};
ghost use Rattle.wasm_encoder_base.specs.OperandSyntax.{Mem, MemLane};
ghost use Rattle.wasm_encoder_opcodes.specs.Access.{access_mnemonic};
ghost use Rattle.wasm_encoder_opcodes.specs.Atomic.{atomic_mnemonic};
ghost use Rattle.wasm_encoder_opcodes.specs.AtomicRmw.{atomic_rmw_mnemonic};
ghost use Rattle.wast_mnemonics.specs.TextTable.{Listed};
ghost use Rattle.wast_mnemonics.specs.Words.{alignment_at, word_operands};
ghost use Rattle.wast_mnemonics.specs.Mnemonics.{vector_memory_mnemonic};
ghost use Rattle.wast_mnemonics.specs.declared.word.Word.TheVariants as words;

use crate::word::{MemoryLaneWord, MemoryWord, VectorMemoryWord};
use wasm_encoder_opcodes::{AccessOp, AtomicOp, AtomicRmwOp};

impl MemoryWord {
    /// The alignment, in bytes, of a memory argument that gives none.
    pub fn natural_alignment(self) -> u32
        ensures { word_operands (words.Memory self) ≡ Listed (Mem result) }
    {
        match self {
            MemoryWord::Access(op) => access_alignment(op),
            MemoryWord::Atomic(op) => atomic_alignment(op),
            MemoryWord::AtomicRmw(op) => atomic_rmw_alignment(op),
            MemoryWord::Vector(word) => vector_alignment(word),
        }
    }
}

impl MemoryLaneWord {
    /// The alignment, in bytes, of a memory argument that gives none.
    pub fn natural_alignment(self) -> u32
        ensures { word_operands (words.MemoryLane self) ≡ Listed (MemLane result) }
    {
        match self {
            MemoryLaneWord::V128Load8Lane | MemoryLaneWord::V128Store8Lane => 1,
            MemoryLaneWord::V128Load16Lane | MemoryLaneWord::V128Store16Lane => 2,
            MemoryLaneWord::V128Load32Lane | MemoryLaneWord::V128Store32Lane => 4,
            MemoryLaneWord::V128Load64Lane | MemoryLaneWord::V128Store64Lane => 8,
        }
    }
}

fn access_alignment(op: AccessOp) -> u32
    ensures { result ≡ alignment_at (access_mnemonic op) }
{
    match op {
        AccessOp::I32Load8S
        | AccessOp::I32Load8U
        | AccessOp::I64Load8S
        | AccessOp::I64Load8U
        | AccessOp::I32Store8
        | AccessOp::I64Store8 => 1,
        AccessOp::I32Load16S
        | AccessOp::I32Load16U
        | AccessOp::I64Load16S
        | AccessOp::I64Load16U
        | AccessOp::I32Store16
        | AccessOp::I64Store16 => 2,
        AccessOp::I32Load
        | AccessOp::F32Load
        | AccessOp::I64Load32S
        | AccessOp::I64Load32U
        | AccessOp::I32Store
        | AccessOp::F32Store
        | AccessOp::I64Store32 => 4,
        AccessOp::I64Load | AccessOp::F64Load | AccessOp::I64Store | AccessOp::F64Store => 8,
    }
}

fn atomic_alignment(op: AtomicOp) -> u32
    ensures { result ≡ alignment_at (atomic_mnemonic op) }
{
    match op {
        AtomicOp::I32AtomicLoad8U
        | AtomicOp::I64AtomicLoad8U
        | AtomicOp::I32AtomicStore8
        | AtomicOp::I64AtomicStore8 => 1,
        AtomicOp::I32AtomicLoad16U
        | AtomicOp::I64AtomicLoad16U
        | AtomicOp::I32AtomicStore16
        | AtomicOp::I64AtomicStore16 => 2,
        AtomicOp::MemoryAtomicNotify
        | AtomicOp::MemoryAtomicWait32
        | AtomicOp::I32AtomicLoad
        | AtomicOp::I64AtomicLoad32U
        | AtomicOp::I32AtomicStore
        | AtomicOp::I64AtomicStore32 => 4,
        AtomicOp::MemoryAtomicWait64 | AtomicOp::I64AtomicLoad | AtomicOp::I64AtomicStore => 8,
    }
}

/// The bytes of the seven forms that each operation has, in their order.
const RMW_BYTES: [u32; 7] = [4, 8, 1, 2, 1, 2, 4];

fn atomic_rmw_alignment(op: AtomicRmwOp) -> u32
    ensures { result ≡ alignment_at (atomic_rmw_mnemonic op) }
{
    RMW_BYTES[(op as usize - 30) % 7]
}

fn vector_alignment(word: VectorMemoryWord) -> u32
    ensures { result ≡ alignment_at (vector_memory_mnemonic word) }
{
    match word {
        VectorMemoryWord::V128Load8Splat => 1,
        VectorMemoryWord::V128Load16Splat => 2,
        VectorMemoryWord::V128Load32Splat | VectorMemoryWord::V128Load32Zero => 4,
        VectorMemoryWord::V128Load8x8S
        | VectorMemoryWord::V128Load8x8U
        | VectorMemoryWord::V128Load16x4S
        | VectorMemoryWord::V128Load16x4U
        | VectorMemoryWord::V128Load32x2S
        | VectorMemoryWord::V128Load32x2U
        | VectorMemoryWord::V128Load64Splat
        | VectorMemoryWord::V128Load64Zero => 8,
        VectorMemoryWord::V128Load | VectorMemoryWord::V128Store => 16,
    }
}

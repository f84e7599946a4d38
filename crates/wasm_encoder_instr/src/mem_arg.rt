ghost use Rattle.std.specs.Prelude.{◌≡◌, ◌↔◌, ◌<◌, IsTrue};

use wasm_encoder_base::{Encode, EncodeError, encode_both};

/// The number of a lane of a vector.
pub type Lane = u8;

/// What a memory argument is of.
#[derive(Clone, Copy, Debug, PartialEq, Eq, Hash)]
pub enum MemArgTarget {
    /// The memory with this index.
    Memory(u32),
}

/// Memory 0.
impl Default for MemArgTarget {
    ghost use Rattle.wasm_encoder_instr.specs.declared.mem_arg.MemArgTarget.TheVariants.{Memory};

    ghost is_default = { λ target. target ≡ Memory 0 };

    fn default() -> Self {
        MemArgTarget::Memory(0)
    }
}

/// The memory argument of a load, a store or an atomic instruction (5.4).
#[derive(Clone, Copy, Debug)]
pub struct MemArg {
    /// What is added to the address, in bytes.
    pub offset: u64,
    /// The logarithm of the alignment to the base 2, below 16 where it is encoded.
    pub align: u32,
    pub target: MemArgTarget,
}

impl MemArg {
    /// Whether the argument can be encoded: whether the logarithm of its alignment is below 16.
    pub fn can_encode(&self) -> bool
        ensures { IsTrue result ↔ self.now.align < 16 }
    {
        self.align < 16
    }
}

/// The alignment's logarithm, plus 64 where the memory isn't 0, then that memory; then the offset.
impl Encode for MemArg {
    ghost use Rattle.std.specs.Prelude.{◌<◌};
    ghost use Rattle.wasm_encoder_instr.specs.MemArg.{mem_arg_view};
    ghost use Rattle.wasm_encoder_base.specs.Instr.{mem_arg_bytes};

    ghost can_encode = { λ m. m.align < 16 };

    ghost fits = { λ _. Unit {0} };

    ghost spelling = { λ m. mem_arg_bytes (mem_arg_view m) };

    fn encode(&self, sink: &mut Vec<u8>) -> Result<(), EncodeError> {
        match self.target {
            MemArgTarget::Memory(0) => encode_both(&self.align, &self.offset, sink),
            MemArgTarget::Memory(memory) => (self.align + 64, memory, self.offset).encode(sink),
        }
    }
}

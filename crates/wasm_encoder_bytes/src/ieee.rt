//! Floats by their bits.

ghost use Rattle.std.specs.Prelude.{◌≡◌};
ghost use Rattle.std.specs.Int.{w32, w64, to_le_bytes};
ghost use Rattle.wasm_encoder_bytes.specs.Ieee.{ieee32_bits, ieee64_bits};

use crate::encode::Encode;
use crate::error::EncodeError;

/// A float of 32 bits (5.2.3); its spelling is these, the low byte first.
#[derive(Clone, Copy, Debug, PartialEq, Eq, Hash)]
pub struct Ieee32 {
    bits: u32,
}

impl Ieee32 {
    /// The float with these bits.
    pub const fn new(bits: u32) -> Self
        ensures { ieee32_bits result ≡ bits }
    {
        Ieee32 { bits }
    }

    /// The bits of the float.
    pub const fn bits(self) -> u32
        ensures { result ≡ ieee32_bits self }
    {
        let Ieee32 { bits } = self;
        bits
    }
}

impl Encode for Ieee32 {
    ghost use Rattle.wasm_encoder_bytes.specs.Ieee.{ieee32_bits};

    ghost can_encode = { λ _. Unit {0} };

    ghost fits = { λ _. Unit {0} };

    ghost spelling = { λ float. to_le_bytes w32 (ieee32_bits float) };

    fn encode(&self, sink: &mut Vec<u8>) -> Result<(), EncodeError> {
        let four = self.bits.to_le_bytes();
        sink.extend_from_slice(&four)?;
        Ok(())
    }
}

/// A float of 64 bits (5.2.3); its spelling is these, the low byte first.
#[derive(Clone, Copy, Debug, PartialEq, Eq, Hash)]
pub struct Ieee64 {
    bits: u64,
}

impl Ieee64 {
    /// The float with these bits.
    pub const fn new(bits: u64) -> Self
        ensures { ieee64_bits result ≡ bits }
    {
        Ieee64 { bits }
    }

    /// The bits of the float.
    pub const fn bits(self) -> u64
        ensures { result ≡ ieee64_bits self }
    {
        let Ieee64 { bits } = self;
        bits
    }
}

impl Encode for Ieee64 {
    ghost use Rattle.wasm_encoder_bytes.specs.Ieee.{ieee64_bits};

    ghost can_encode = { λ _. Unit {0} };

    ghost fits = { λ _. Unit {0} };

    ghost spelling = { λ float. to_le_bytes w64 (ieee64_bits float) };

    fn encode(&self, sink: &mut Vec<u8>) -> Result<(), EncodeError> {
        let eight = self.bits.to_le_bytes();
        sink.extend_from_slice(&eight)?;
        Ok(())
    }
}

//! Operands that are no value of their own elsewhere, as they are encoded.

ghost use Rattle.std.specs.Int.{w128, to_le_bytes, cast_unsigned};
ghost use Rattle.std.specs.Prelude.{◌≡◌, ◌++◌};
ghost use Rattle.wasm_encoder_base.specs.Encodes.{Encodes};
ghost use Rattle.wasm_encoder_base.specs.Instr.{cast_byte};

use crate::catch::Catch;
use wasm_encoder_base::{Encode, EncodeError, RawBytes, RefType, ValType, encode_both};

/// A list of value types.
#[derive(Clone, Copy)]
pub struct ValTypes<'a>(pub &'a [ValType]);

impl Encode for ValTypes<'_> {
    ghost use Rattle.std.specs.Prelude.{◌<◌, ◌^◌, length, map};
    ghost use Rattle.wasm_encoder_base.specs.Bytes.{counted};
    ghost use Rattle.wasm_encoder_base.specs.Types.{val_bytes};
    ghost use Rattle.wasm_encoder_base.specs.Views.{val_view};

    ghost can_encode = { λ _. Unit {0} };

    ghost fits = { λ types. length types.0.now < 2 ^ 32 };

    ghost spelling = { λ types. counted val_bytes (map val_view types.0.now) };

    #[tactic(auto, using(wasm_encoder_base::proofs::Mapped::counted_view))]
    fn encode(&self, sink: &mut Vec<u8>) -> Result<(), EncodeError> {
        self.0.encode(sink)
    }
}

/// A list of catch clauses.
#[derive(Clone, Copy)]
pub struct Catches<'a>(pub &'a [Catch]);

impl Encode for Catches<'_> {
    ghost use Rattle.std.specs.Prelude.{◌<◌, ◌^◌, length, map};
    ghost use Rattle.wasm_encoder_base.specs.Bytes.{counted};
    ghost use Rattle.wasm_encoder_base.specs.Instr.{catch_bytes};
    ghost use Rattle.wasm_encoder_instr.specs.Catch.{catch_view};

    ghost can_encode = { λ _. Unit {0} };

    ghost fits = { λ catches. length catches.0.now < 2 ^ 32 };

    ghost spelling = { λ catches. counted catch_bytes (map catch_view catches.0.now) };

    #[tactic(auto, using(wasm_encoder_base::proofs::Mapped::counted_view))]
    fn encode(&self, sink: &mut Vec<u8>) -> Result<(), EncodeError> {
        self.0.encode(sink)
    }
}

/// Appends an opcode and 128 bits, the low byte first; refused, the sink's bytes are unchanged.
pub fn encode_v128<A: Encode>(
    opcode: &A,
    value: i128,
    sink: &mut Vec<u8>,
) -> Result<(), EncodeError>
    requires { A.can_encode opcode.now }
    ensures { Encodes (A.spelling opcode.now ++ to_le_bytes w128 (cast_unsigned w128 value)) (A.fits opcode.now × Unit {0}) sink.old.items sink.new.items result }
{
    encode_both(opcode, &RawBytes(&low_bytes_first(value)), sink)
}

/// The bytes of a number of 128 bits, the low one first.
fn low_bytes_first(value: i128) -> [u8; 16]
    ensures { result ≡ to_le_bytes w128 (cast_unsigned w128 value) }
{
    let bits = value.cast_unsigned();
    bits.to_le_bytes()
}

/// The operands of a branch on a cast.
#[derive(Clone, Copy)]
pub struct Cast {
    pub label: u32,
    pub source: RefType,
    pub target: RefType,
}

/// Which of the types is nullable, the label, and the two heap types.
impl Encode for Cast {
    ghost use Rattle.wasm_encoder_base.specs.Instr as binary;
    ghost use Rattle.wasm_encoder_base.specs.Views.{ref_view};

    ghost can_encode = { λ _. Unit {0} };

    ghost fits = { λ _. Unit {0} };

    ghost spelling = { λ cast. binary.operand_bytes (binary.Cast cast.label (ref_view cast.source) (ref_view cast.target)) };

    fn encode(&self, sink: &mut Vec<u8>) -> Result<(), EncodeError> {
        encode_both(
            &cast_byte(self.source.nullable, self.target.nullable),
            &(self.label, self.source.heap_type, self.target.heap_type),
            sink,
        )
    }
}

/// 1 where the source is nullable, and 2 where the target is.
fn cast_byte(source: bool, target: bool) -> u8
    ensures { result ≡ cast_byte source target }
{
    match (source, target) {
        (false, false) => 0,
        (true, false) => 1,
        (false, true) => 2,
        (true, true) => 3,
    }
}

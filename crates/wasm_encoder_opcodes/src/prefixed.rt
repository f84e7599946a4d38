ghost use Rattle.std.specs.Prelude.{◌≡◌, ◌+◌, ◌++◌, ◌∷◌};

use wasm_encoder_base::{Encode, EncodeError, encode_both};

/// An opcode of two parts: a prefix, which is a byte, and a number.
#[derive(Clone, Copy, Debug)]
pub struct Prefixed(pub u8, pub u32);

/// The prefix, then the number's shortest unsigned LEB128.
impl Encode for Prefixed {
    ghost use Rattle.wasm_encoder_base.specs.Leb.{uleb};

    ghost can_encode = { λ _. Unit {0} };

    ghost fits = { λ _. Unit {0} };

    ghost spelling = { λ opcode. opcode.0 ∷ uleb opcode.1 };

    fn encode(&self, sink: &mut Vec<u8>) -> Result<(), EncodeError> {
        let Prefixed(prefix, number) = self;
        encode_both(prefix, number, sink)
    }
}

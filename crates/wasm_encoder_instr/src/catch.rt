use wasm_encoder_base::{Encode, EncodeError, encode_both};

/// A clause of a `try_table` (5.4): what is caught, and the label that is branched to.
#[derive(Clone, Copy, Debug)]
pub enum Catch {
    /// Exceptions of the tag.
    One { tag: u32, label: u32 },
    /// Exceptions of the tag, with a reference to the exception.
    OneRef { tag: u32, label: u32 },
    /// All exceptions.
    All { label: u32 },
    /// All exceptions, with a reference to the exception.
    AllRef { label: u32 },
}

/// 00 tag label, 01 tag label, 02 label, or 03 label.
impl Encode for Catch {
    ghost use Rattle.wasm_encoder_base.specs.Instr.{catch_bytes};
    ghost use Rattle.wasm_encoder_instr.specs.Catch.{catch_view};

    ghost can_encode = { λ _. Unit {0} };

    ghost fits = { λ _. Unit {0} };

    ghost spelling = { λ catch. catch_bytes (catch_view catch) };

    fn encode(&self, sink: &mut Vec<u8>) -> Result<(), EncodeError> {
        match self {
            Catch::One { tag, label } => encode_both(&0x00u8, &(tag, label), sink),
            Catch::OneRef { tag, label } => encode_both(&0x01u8, &(tag, label), sink),
            Catch::All { label } => encode_both(&0x02u8, label, sink),
            Catch::AllRef { label } => encode_both(&0x03u8, label, sink),
        }
    }
}

use wasm_encoder_base::{Encode, EncodeError, encode_both};

/// What a resumed continuation does where a tag is suspended to (a proposal). No [`Instruction`](crate::Instruction) has one.
#[derive(Clone, Debug, Drop)]
pub enum Handle {
    /// Branches to the label.
    OnLabel { tag: u32, label: u32 },
    /// Switches.
    OnSwitch { tag: u32 },
}

/// 00 tag label, or 01 tag.
impl Encode for Handle {
    ghost use Rattle.wasm_encoder_instr.specs.Handle.{handle_bytes};

    ghost can_encode = { λ _. Unit {0} };

    ghost fits = { λ _. Unit {0} };

    ghost spelling = { handle_bytes };

    fn encode(&self, sink: &mut Vec<u8>) -> Result<(), EncodeError> {
        match self {
            Handle::OnLabel { tag, label } => encode_both(&0x00u8, &(tag, label), sink),
            Handle::OnSwitch { tag } => encode_both(&0x01u8, tag, sink),
        }
    }
}

//! Entries of the type section (WebAssembly 3.0, 5.5.4).

ghost use Rattle.std.specs.Prelude.{◌≡◌, ◌++◌, ◌∷◌, length, map};

use wasm_encoder_base::{Encode, EncodeError, FieldType, SubType, ValType};

/// A function type by its parameters and results.
#[derive(Clone, Copy, Debug)]
pub struct Signature<'a> {
    pub params: &'a [ValType],
    pub results: &'a [ValType],
}

/// 60, the parameters and the results.
impl Encode for Signature<'_> {
    ghost use Rattle.std.specs.Prelude.{◌<◌, ◌^◌, length};
    ghost use Rattle.wasm_encoder_items.specs.TypeEntries.{entry_bytes};
    ghost use Rattle.wasm_encoder_items.specs.EntryViews.{signature_view, SignatureFits};

    ghost can_encode = { λ _. Unit {0} };

    ghost fits = { SignatureFits };

    ghost spelling = { λ s. entry_bytes (signature_view s) };

    #[tactic(auto, using(wasm_encoder_base::proofs::Mapped::counted_view))]
    fn encode(&self, sink: &mut Vec<u8>) -> Result<(), EncodeError> {
        (0x60u8, (self.params, self.results)).encode(sink)
    }
}

/// A structure type by its fields.
#[derive(Clone, Copy, Debug)]
pub struct Fields<'a>(pub &'a [FieldType]);

/// 5F and the fields.
impl Encode for Fields<'_> {
    ghost use Rattle.std.specs.Prelude.{◌<◌, ◌^◌, length};
    ghost use Rattle.wasm_encoder_items.specs.TypeEntries.{entry_bytes};
    ghost use Rattle.wasm_encoder_items.specs.EntryViews.{fields_view};

    ghost can_encode = { λ _. Unit {0} };

    ghost fits = { λ fields. length fields.0.now < 2 ^ 32 };

    ghost spelling = { λ fields. entry_bytes (fields_view fields) };

    #[tactic(auto, using(wasm_encoder_base::proofs::Mapped::counted_view))]
    fn encode(&self, sink: &mut Vec<u8>) -> Result<(), EncodeError> {
        (0x5Fu8, self.0).encode(sink)
    }
}

/// Types that may name each other.
#[derive(Clone, Copy, Debug)]
pub struct Group<'a>(pub &'a [SubType]);

/// 4E and the types.
impl Encode for Group<'_> {
    ghost use Rattle.std.specs.Prelude.{◌<◌, ◌^◌, length};
    ghost use Rattle.wasm_encoder_items.specs.TypeEntries.{entry_bytes};
    ghost use Rattle.wasm_encoder_items.specs.EntryViews.{group_view, GroupFits};

    ghost can_encode = { λ _. Unit {0} };

    ghost fits = { GroupFits };

    ghost spelling = { λ group. entry_bytes (group_view group) };

    #[tactic(auto, using(wasm_encoder_base::proofs::Mapped::counted_view))]
    fn encode(&self, sink: &mut Vec<u8>) -> Result<(), EncodeError> {
        (0x4Eu8, self.0).encode(sink)
    }
}

//! Limits and their flags (WebAssembly 3.0, 5.3).

ghost use Rattle.std.specs.Prelude.{◌≡◌, ◌≤◌, ◌++◌, ◌∷◌};
ghost use Rattle.wasm_encoder_items.specs.EntityTypes.{flag, limits_flags};
ghost use Rattle.wasm_encoder_items.specs.Views.{limits_view};

use wasm_encoder_base::{Encode, EncodeError};

/// How large a table or memory is, and what its addresses and pages are.
#[derive(Clone, Copy)]
pub struct Limits {
    pub minimum: u64,
    pub maximum: Option<u64>,
    pub shared: bool,
    pub is_64: bool,
    pub page_size_log2: Option<u32>,
}

impl Limits {
    /// 1 maximum, 2 shared, 4 addresses of 64 bits, 8 page size.
    fn flags(&self) -> u8
        ensures { result ≡ limits_flags (limits_view self.now) }
    {
        flag(self.maximum.is_some(), 1)
            + flag(self.shared, 2)
            + flag(self.is_64, 4)
            + flag(self.page_size_log2.is_some(), 8)
    }
}

/// The flags, the minimum, and the maximum and the page size where there are any.
impl Encode for Limits {
    ghost use Rattle.wasm_encoder_items.specs.EntityTypes.{limits_bytes};
    ghost use Rattle.wasm_encoder_items.specs.Views.{limits_view};

    ghost can_encode = { λ _. Unit {0} };

    ghost fits = { λ _. Unit {0} };

    ghost spelling = { λ l. limits_bytes (limits_view l) };

    fn encode(&self, sink: &mut Vec<u8>) -> Result<(), EncodeError> {
        let sizes = (self.minimum, (self.maximum, self.page_size_log2));
        (self.flags(), sizes).encode(sink)
    }
}

/// The bit where it is set, else 0.
pub fn flag(is_set: bool, bit: u8) -> u8
    ensures value { result ≡ flag is_set bit }
    ensures bound { result ≤ bit }
{
    if is_set { bit } else { 0 }
}

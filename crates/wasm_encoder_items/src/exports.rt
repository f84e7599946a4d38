//! Exports (WebAssembly 3.0, 5.5.10).

ghost use Rattle.std.specs.Prelude.{◌≡◌, ◌∷◌, []};

use wasm_encoder_base::{Encode, EncodeError};

/// What is exported; each number is its byte.
#[derive(Clone, Copy, Debug, PartialEq, Eq, Hash)]
pub enum ExportKind {
    Func = 0x00,
    Table = 0x01,
    Memory = 0x02,
    Global = 0x03,
    Tag = 0x04,
}

impl Encode for ExportKind {
    ghost use Rattle.wasm_encoder_items.specs.Imports.{export_code};
    ghost use Rattle.wasm_encoder_items.specs.Views.{export_kind_view};

    ghost can_encode = { λ _. Unit {0} };

    ghost fits = { λ _. Unit {0} };

    ghost spelling = { λ kind. export_code (export_kind_view kind) ∷ [] };

    fn encode(&self, sink: &mut Vec<u8>) -> Result<(), EncodeError> {
        (*self as u8).encode(sink)
    }
}

/// An export: its name, and what of which index it is.
#[derive(Clone, Copy, Debug)]
pub struct Export<'a> {
    pub name: &'a str,
    pub kind: ExportKind,
    pub index: u32,
}

/// The name, the kind and the index.
impl Encode for Export<'_> {
    ghost use Rattle.std.specs.Prelude.{◌<◌, ◌^◌, length};
    ghost use Rattle.wasm_encoder_items.specs.Imports.{export_bytes};
    ghost use Rattle.wasm_encoder_items.specs.Views.{export_view};

    ghost can_encode = { λ _. Unit {0} };

    ghost fits = { λ e. length e.name.now < 2 ^ 32 };

    ghost spelling = { λ e. export_bytes (export_view e) };

    fn encode(&self, sink: &mut Vec<u8>) -> Result<(), EncodeError> {
        (self.name, (self.kind, self.index)).encode(sink)
    }
}

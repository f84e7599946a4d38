//! Tables and globals with their initialisers (WebAssembly 3.0, 5.5.7 and 5.5.9).

ghost use Rattle.std.specs.Prelude.{◌≡◌, ◌++◌, ◌∷◌};

use crate::types::{GlobalType, TableType};
use wasm_encoder_base::{Encode, EncodeError};
use wasm_encoder_code::ConstExpr;

/// A table whose elements have the same value at first.
#[derive(Clone, Debug, Drop)]
pub struct InitTable<'a> {
    pub ty: TableType,
    pub init: &'a ConstExpr,
}

/// 40 00, the type and the value.
impl Encode for InitTable<'_> {
    ghost use Rattle.wasm_encoder_items.specs.Segments.{table_item, ended};
    ghost use Rattle.wasm_encoder_items.specs.SegmentViews.{init_table_view};

    ghost can_encode = { λ _. Unit {0} };

    ghost fits = { λ _. Unit {0} };

    ghost spelling = { λ t. table_item ended (init_table_view t) };

    fn encode(&self, sink: &mut Vec<u8>) -> Result<(), EncodeError> {
        (0x40u8, (0x00u8, (self.ty, self.init))).encode(sink)
    }
}

/// A global and its value at first.
#[derive(Clone, Debug, Drop)]
pub struct InitGlobal<'a> {
    pub ty: GlobalType,
    pub init: &'a ConstExpr,
}

/// The type and the value.
impl Encode for InitGlobal<'_> {
    ghost use Rattle.wasm_encoder_items.specs.Segments.{global_item, ended};
    ghost use Rattle.wasm_encoder_items.specs.SegmentViews.{init_global_view};

    ghost can_encode = { λ _. Unit {0} };

    ghost fits = { λ _. Unit {0} };

    ghost spelling = { λ g. global_item ended (init_global_view g) };

    fn encode(&self, sink: &mut Vec<u8>) -> Result<(), EncodeError> {
        (self.ty, self.init).encode(sink)
    }
}

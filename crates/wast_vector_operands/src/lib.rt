//! Lanes, floats as they are written, and constants of 128 bits: operands of instructions (WebAssembly Core Specification 3.0,
//! 6.5). A part of the crate `wast_operands`.
//!
//! Each type is read by its production. [`FloatLit`] and [`V128Const`] are looked for too, as values of data segments are. So of
//! `v128.const i32x4 1 2 3 -1` the operand is an `I32x4` of four lanes, and its bytes ([`V128Const::to_le_bytes`]) end in
//! `ff ff ff ff`. Floats keep their text, and a vector of them has no bytes here.
//! What `wast_operands` needs of the parser is handed on.
//!
//! # What has to be believed
//!
//! | File of `specs/` | Says |
//! |---|---|
//! | `VectorTree`, `VectorSyntax` | vectors and their shapes as trees, and the productions |
//! | `VectorViews` | what the grammar sees of each type; the bytes of a vector |
#![tactic(auto)]

mod bytes;
mod vector;

pub use vector::{FloatLit, I8x16Shuffle, LaneArg, V128Const};
pub use wast_parser::{
    Cursor, Error, Id, Index, Item, ItemRef, Keyword, KeywordName, Meaning, Parse, Parser, Peek,
    Span, WordSet, list_of, magnitude, pair,
};

//! What the sections of a module hold: the types of tables, memories, globals and tags, imports, exports and segments
//! (WebAssembly Core Specification 3.0, 5.3 and 5.5).
//!
//! It is the lower part of `wasm_encoder`, which hands on what its users need.
#![tactic(auto)]

mod copies;
mod data;
mod elements;
mod entries;
mod exports;
mod imports;
pub mod laws;
mod limits;
mod tables;
mod types;

pub use data::{DataSegment, DataSegmentMode};
pub use elements::{ElementMode, ElementSegment, Elements};
pub use entries::{Fields, Group, Signature};
pub use exports::{Export, ExportKind};
pub use imports::{Import, ImportCompact, Imports};
pub use tables::{InitGlobal, InitTable};
pub use types::{EntityType, GlobalType, MemoryType, TableType, TagKind, TagType};

//! The sections of a module (WebAssembly Core Specification 3.0, 5.5.2): each is a list of items, built by calls that append one, but for
//! the start section and the count of data segments, which are a number each.
//!
//! A call that appends an item is refused for want of memory, or as too large where a count or a length in the item, or the
//! count of items with it, would be past 4294967295; refused, the section is as it was.
//!
//! It is the middle part of `wasm_encoder`, which hands on all that is here.
#![tactic(auto)]

mod code;
mod data;
mod elements;
mod exports;
mod functions;
mod globals;
mod imports;
pub mod laws;
mod memories;
mod start;
mod tables;
mod tags;
mod types;

pub use code::CodeSection;
pub use data::DataSection;
pub use elements::ElementSection;
pub use exports::ExportSection;
pub use functions::FunctionSection;
pub use globals::GlobalSection;
pub use imports::ImportSection;
pub use memories::MemorySection;
pub use start::{DataCountSection, StartSection};
pub use tables::TableSection;
pub use tags::TagSection;
pub use types::{CoreTypeEncoder, TypeSection};

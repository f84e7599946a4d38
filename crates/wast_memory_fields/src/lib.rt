//! Memories and data segments of a module (WebAssembly Core Specification 3.0, 6.6), as trees: [`Memory`], [`Data`].
//!
//! Each is read by its production, with its parentheses; nothing is written out: `(memory (data "x"))` stays one field. Names
//! aren't resolved.
//!
//! What has to be believed: `specs/MemoryViews`, which tree each Rust type is; the productions stand in `wast_field_syntax`.
#![tactic(auto)]

mod data;
mod memory;

pub use data::{Data, DataKind};
pub use memory::{Memory, MemoryKind};

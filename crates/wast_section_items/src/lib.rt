//! What stands in the sections of a module (WebAssembly Core Specification 3.0, 6.6 and 5.5).
//!
//! [`SectionItem`] is what stands in a section: it appends to one of the encoder the items of a binary that it stands for: of
//! `(global i32 (i32.const 7))` a global with its type and its value at first. A function stands in two sections: [`Func`](wast_fields::Func) in that
//! of types of functions, [`FuncBody`] in that of bodies.
//!
//! Fields are to be ready: resolved, with nothing inline in place of what they define, and covered, with no form that has no bytes here.
//! What is refused is want of memory, and as too large a count or a length that is past 4294967295.
//!
//! # What has to be believed
//!
//! | File of `specs/` | Says |
//! |---|---|
//! | `Ready` | which fields are ready |
//! | `Fits` | in which items each count and each length is at most 4294967295 |
//! | `Sound` | in which functions each number is in the range of its binary field; of other items, `IsModule` of `wasm_layout` says it |
//! | `Appends` | what appending items leaves in a section |
//! | `One` | that what is ready stands for one item |
//!
//! Which items fields stand for is said by `FieldsMeant` of `wast_meant`. `Parts` serves private contracts.
#![tactic(auto)]

mod adding;
mod body;
mod constant;
mod data;
mod elem;
mod export;
mod func;
mod global;
mod import;
mod item;
mod memory;
mod table;
mod tag;
mod type_item;

pub use body::{FuncBody, local_types};
pub use item::SectionItem;

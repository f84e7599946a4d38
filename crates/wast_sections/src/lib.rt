//! The fields of a module as sections of the encoder (WebAssembly Core Specification 3.0, 6.6 and 5.5).
//!
//! One function for each section goes over all fields, and answers the section of what they hold, in their order: [`types`] of
//! `(type (func)) (rec (type (func)))` the section of a type and a group. A section that nothing stands in is empty, and [`start`] answers none
//! then.
//!
//! Fields are to be ready: resolved, with nothing inline in place of what they define, and covered, with no form that has no bytes here.
//! What is refused is want of memory, and as too large a count or a length that is past 4294967295.
//!
//! # What has to be believed
//!
//! | File of `specs/` | Says |
//! |---|---|
//! | `Holds` | which section is that of items |
//!
//! Which items fields stand for is said by `FieldsMeant` of `wast_meant`, which fields are ready, and in which items counts and lengths
//! fit, by `Ready` and `Fits` of `wast_section_items`. `Parts` serves private contracts.
#![tactic(auto)]

mod fields;
mod sections;

pub use sections::{
    codes, datas, elements, exports, functions, globals, imports, memories, start, tables, tags,
    types,
};

//! Laws of what encodes trees (WebAssembly Core Specification 3.0, 6.6), and no code: what holds of the fields that a tree is resolved to, so that
//! the conversions of `wast_conversions` can be called on them.
//!
//! # What has to be believed
//!
//! | File of `specs/` | Says |
//! |---|---|
//! | `Ready` | fields in which nothing stands inline, indices that are encoded are numbers, and uses have their types |
//! | `Formed` | fields whose alignments, branch hints and constant expressions are well formed |
//! | `Orderings` | what stands behind orderings of atomic instructions |
//! | `Bounds` | how many functions, instructions and names there may be |
//! | `Laws` | the statements of the law functions |
//!
//! The rest is in the crates below: `Resolved`, `Covered` and `Operands` of `wast_conversions` say of types and instructions what is asked where
//! one is converted, `Covered` of `wast_meant` which forms of fields have no binary, and `Demands`, `WellFormed` and `Numbered` of
//! `wast_meaning` what fields keep to, and what they are resolved to.
#![tactic(auto)]

pub mod laws;

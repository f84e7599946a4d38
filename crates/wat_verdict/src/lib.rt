//! What an input of the assembler is worth (WebAssembly Core Specification 3.0, chapter 6): the first condition that it fails, or the module
//! that it means, whose binary `wasm_layout` lays out, or the pieces of a binary that it spells. It has definitions and laws, and no code.
//!
//! # What has to be believed
//!
//! | File of `specs/` | Says |
//! |---|---|
//! | `Registered` | the annotations that are read |
//! | `Spells` | which tree a text spells |
//! | `Naming` | the first demand of names that isn't met |
//! | `Verdict` | the conditions and their order, what an input is accepted as, and which bytes are its binary |
//! | `Laws` | the statements of the law functions, but for those below |
//! | `Alike` | texts whose tokens agree, or differ by a renaming of identifiers, and what they have in common |
//! | `Spaced` | texts that differ by spaces over a comment, and what they have in common |
//!
//! What a tree means, and what it must keep to, is said by `wast_meaning`, `wast_conversions` and `wast_meant`.
#![tactic(auto)]

pub mod laws;

//! The first form of a module that has no binary here (WebAssembly Core Specification 3.0, 6.4 to 6.6).
//!
//! A text may have forms of the proposals on stack switching, shared types, custom descriptors and exact types, literals of floating-point
//! numbers, memory arguments of arrays, orderings of atomic accesses, and others, which are read and resolved, and not encoded.
//! [`uncovered`] answers the first, in the order of the text, and of instructions as they are unfolded: where the keyword of its field
//! stands, and what it is called; in an instruction that is the mnemonic.
//!
//! ```text
//! uncovered(&module) // (func (result f32) f32.const 1.5): the place of `func`, and "f32.const"
//! ```
//!
//! Fields are gone through as they are written: what they are written out as has the same forms at the same places. No memory is
//! taken, no name is looked up, and nothing is changed.
//!
//! # What has to be believed
//!
//! | File of `specs/` | Says |
//! |---|---|
//! | `First` | the first of forms, and what is seen of an answer |
//!
//! Which forms there are is said by `Covered` of `wast_conversions`, of types and instructions, and `Covered` of `wast_meant`, of fields
//! and modules. `Told` serves private contracts: what is told of an instruction.
#![tactic(auto)]

mod fields;
mod form;
mod imports;
mod instructions;
mod mnemonics;
mod module;
mod operands;
mod types;

pub use module::uncovered;

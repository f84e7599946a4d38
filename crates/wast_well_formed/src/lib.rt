//! What trees of modules must keep to beside names (WebAssembly Core Specification 3.0, 3.4.13, 6.5 and 6.6, modules, and the proposal on
//! branch hints).
//!
//! Not every tree that a text spells is so, and one that is made by hand may not be either. Of a field:
//!
//! - alignments are powers of two below 65536, in bytes;
//! - branch hints rise, each stands on an instruction, and their values are below 128;
//! - a constant expression closes each block that it opens, and no other;
//! - a memory with its segment inline has pages of 2 to a power below 64 bytes;
//! - no start function stands before it where it is one.
//!
//! [`field_formed`] tells whether one field is so, and [`is_start`] whether it is a start function. Nothing is changed, no memory is taken,
//! and no name is looked up: that names that are made up are bound is left to others.
//!
//! # What has to be believed
//!
//! | File of `specs/` | Says |
//! |---|---|
//! | `Views` | which turn of the definitions a [`Turn`] is |
//!
//! What a field keeps to is the definitions' own, those of `wast_meaning`'s file `WellFormed`.
#![tactic(auto)]

mod alignment;
mod expression;
mod field;
mod parts;
mod turn;

pub use field::{field_formed, is_start};
pub use turn::Turn;

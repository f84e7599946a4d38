//! Fields whose type uses have their types (WebAssembly Core Specification 3.0, 6.6, type uses).
//!
//! [`expand`] gives each type use without an index the number of the type that it takes, and appends the types that uses imply as fields;
//! [`expand_in_place`] does so with fields in their place. [`InPlace`] and [`by_value`] do work on a value in its place for those who have it
//! by value. Refused is what finds no memory, and, told as that, more than 4294967295 types; of fields in their place some may be changed then.
//!
//! # What has to be believed
//!
//! What fields are expanded to is said by `wast_meaning`'s file `Numbered`. `Expanding` of `specs/` serves private contracts: it says what
//! fields are expanded to by types that are known.
#![tactic(auto)]

mod expanded;
mod implied_field;
mod in_place;
mod taking;

pub use expanded::{expand, expand_in_place};
pub use in_place::{InPlace, by_value};

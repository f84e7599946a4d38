//! The index spaces of a module, and what its items must keep to (WebAssembly Core Specification 3.0, 6.1.3 and 6.6, modules).
//!
//! [`Spaces::of`] numbers the items of fields, and refuses the first that bears the name of another, segments aside, and likewise fields of
//! structures; [`Spaces::space`] answers one of the spaces, and [`Spaces::fields_of`] that of the fields of a type. [`check_order`] refuses
//! a list of fields in which an import stands behind a definition of a function, a table, a memory, a global or a tag; an import may be a
//! field of its own or stand inline. [`param_counts`] tells with how many parameters the locals of a function begin, by its type, of
//! which [`count_at`] answers one.
//!
//! ```text
//! (func) (import "m" "f" (func))
//! ```
//!
//! is an error at the word `import`, and `(func) (func (import "m" "f"))` at the second word `func`:
//!
//! ```text
//! import after function
//! ```
//!
//! `(func $f) (func $f)` is an error at the second `$f`:
//!
//! ```text
//! duplicate func identifier
//! ```
//!
//! # What has to be believed
//!
//! | File of `specs/` | Says |
//! |---|---|
//! | `Views` | which index spaces a [`Spaces`] is |
//! | `Joins` | what joining items to spaces leaves, and what is refused |
//! | `Params` | how many parameters a type has |
//!
//! The demands are those of `wast_meaning`'s file `Demands`, and how they are told those of `wast_names`' file `Demand`.
#![tactic(auto)]

mod order;
mod params;
mod spaces;

pub use order::check_order;
pub use params::{count_at, param_counts};
pub use spaces::Spaces;

//! What trees of modules must keep to, those that are made by hand too (WebAssembly Core Specification 3.0, 3.4.13, 6.5, 6.6.1 and
//! 6.6, modules, and the proposal on branch hints).
//!
//! Beside what `wast_well_formed` tests, a name that is made up means something wherever an index mentions it: an item of its index space bears
//! it, a block that is open there, a parameter or local of the function, or a field of the type. No complaint can tell a name that no text
//! spells. [`first_breach_of`] tells where the first field of a module stands that doesn't keep to all that.
//!
//! No memory is taken, and nothing is changed. Names that are read are looked up nowhere, so a module that a text spells costs one walk;
//! each mention of a name that is made up costs a search of the fields, or of the instructions before it.
//!
//! # What has to be believed
//!
//! Which names are made up is said by `wast_meaning`'s file `Made`, what a field keeps to by its file `WellFormed`, and what a module keeps
//! to by its file `Modules`. The files of this crate, `Bound` and `Places`, serve private contracts.
#![tactic(auto)]

mod body;
mod breach;
mod items;
mod known;
mod labels;
mod locals;
mod outside;
mod parts;
mod place;
mod types;

pub use breach::first_breach_of;

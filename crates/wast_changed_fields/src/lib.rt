//! Fields of modules with what becomes of each index in the indices' place (WebAssembly Core Specification 3.0, 6.6); nothing else of them
//! changes, though of a field the recorded places of instructions aren't promised, for `field_tree` doesn't have them.
//!
//! [`change_field`] rewrites a field in its place as a [`wast_changed::Rewriting`] says: outside of expressions by what becomes of an index,
//! in constant expressions and bodies by what it does with those. [`change_fields`] does so with each of a list, and [`change_expression`]
//! with each instruction of an expression alike, whose recorded places stay. Want of memory is the only refusal, and of what was given nothing is promised then.
//!
//! # What has to be believed
//!
//! The fields with other indices are those of `Changed` of `wast_meaning`, expressions and the changes of a rewriting those of `Rewritten`
//! of `wast_changed`.
#![tactic(auto)]

mod definition;
mod expression;
mod field;
mod segment;

pub use expression::change_expression;
pub use field::{change_field, change_fields};

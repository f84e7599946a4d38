//! Numbers for the indices of types, instructions and bodies (WebAssembly Core Specification 3.0, 6.1.3), where index spaces are known.
//!
//! [`Numbering`] is what is known outside of instructions: the index spaces of a module, and how many parameters each of its types has, which
//! [`param_counts`] counts. As a [`wast_changed::Rewriting`] it puts the number that an index means in its place; in a body an index of a local
//! means a parameter or local of the function, and one of a label a block that is open where it stands. An index that means nothing is left.
//! Refused is what finds no memory, and, told as that, what has no number: the parameter, local or open block behind 4294967295 others.
//!
//! # What has to be believed
//!
//! Which number an index means is said by `Numbered` of `wast_meaning`. The files of `specs/` serve contracts of this crate and the next:
//! `Place`, `Params` and `Steps` say what is known where indices become numbers.
#![tactic(auto)]

mod body;
mod locals;
mod numbering;
mod params;
mod place;
mod step;

pub use params::param_counts;
pub use place::Numbering;

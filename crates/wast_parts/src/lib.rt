//! One walk over whole fields, which tells a judge the parts of each (WebAssembly Core Specification 3.0, 6.6), in the order in which
//! names are looked up.
//!
//! A field is parts in order: what it says of names by itself, which are mentions of `wast_mentions`, constant expressions, and
//! the function that it defines. A [`PartJudge`] is a judge of mentions that also judges an expression and a function as a whole: how names
//! are looked up in these is its own business, and so are labels and locals. [`tell_parts`] goes through the parts of a field, and ends
//! at the first that the judge refuses; [`tell_all_parts`] does so with each of a list of fields.
//!
//! ```
//! tell_parts(&field, &judge)?; // (elem (table $t) (offset global.get $g) func $f): Refers(Tables, $t), the offset, Refers(Functions, $f)
//! ```
//!
//! Exports that stand inline say nothing, nor do memories and custom fields.
//!
//! # What has to be believed
//!
//! What a judge answers is said by `Judging` of `wast_mentions`, and which parts a field is by `wast_meaning`'s file `Mentions`.
#![tactic(auto)]

mod constants;
mod definitions;
mod fields;
mod judge;
mod said;
mod segments;

pub use fields::{tell_all_parts, tell_parts};
pub use judge::{PartJudge, PartJudgement};

//! One walk over the trees of types, instructions and imports, which tells a judge what each says of names (WebAssembly Core
//! Specification 3.0, 6.3.5, 6.4, 6.5 and 6.6), in the order in which names are looked up.
//!
//! A [`Mention`] is an index of a space, the field of a struct type, a type use, or the name of a block that is repeated. A [`Judge`]
//! says of each whether all that it asks is so, by a [`Judgement`] of its own: what each mention asks, which of that is so, and what a
//! fault tells. [`Tell::tell`] goes through the mentions of a tree, and ends at the first that the judge refuses. So what has to be
//! known of names can be tested without going over trees again, and nothing here knows what a name means.
//!
//! ```
//! instruction.tell(&judge)?; // (call_indirect $t (type $f)): Refers(Tables, $t), Uses((type $f))
//! ```
//!
//! A type use as a part of a field or an instruction is one mention; what it says itself are those of the [`TypeUse`]: its index, then
//! the types of its signature.
//!
//! # What has to be believed
//!
//! | File of `specs/` | Says |
//! |---|---|
//! | `Judging` | what a judge answers of mentions |
//! | `Views` | which mention of the definitions a [`Mention`] is |
//!
//! What each tree says is the definitions' own, those of `wast_meaning`'s file `Mentions`.
//!
//! [`TypeUse`]: wast_signatures::TypeUse
#![tactic(auto)]

mod imports;
mod instructions;
mod judge;
mod mention;
mod operands;
mod tell;
mod types;

pub use judge::{Judge, Judgement};
pub use mention::Mention;
pub use tell::{Mentions, Tell, tell_each, tell_index_if, tell_indices};

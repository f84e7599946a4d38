//! What the text of a module says of its custom sections and branch hints, as sections of the encoder's module (WebAssembly Core Specification
//! 3.0, 5.5.3 and the appendix on custom sections and annotations; branch hinting; the tool conventions on producers and dynamic linking).
//!
//! [`put_customs`] appends to the sections of a module those that custom fields have at a place: of `(@custom "n" "ab" "c")` the
//! section called `n` with the data `abc`; of `(@producers ..)` a field for each kind of which there are producers, languages
//! first, then kits, then what processed the module; of `(@dylink.0 ..)` the subsections, one after the other.
//!
//! [`put_hints`] appends the section `metadata.code.branch_hint`, if a function has hints: so of
//!
//! ```text
//! (import "m" "f" (func)) (func (param i32) local.get 0 (@metadata.code.branch_hint "\01") if end)
//! ```
//!
//! it says that function 1 has one hint, 1, at byte 3 of its body, behind the count of its locals and `local.get 0`.
//!
//! [`add_section`] appends one section, whichever it is.
//!
//! # What has to be believed
//!
//! | File of `specs/` | Says |
//! |---|---|
//! | `Parts` | the custom sections that fields have at a place |
//! | `Hints` | the section of branch hints that fields have; which numbers in it fit; bodies that can be encoded |
//!
//! The pieces are those that the module meant has at its stops (`CustomsMeant` of `wast_meant`, `Layout` of `wasm_layout`). `Hinted`, and the
//! other definitions of `Parts`, serve private contracts. Of the lemmas in `proofs/` what encodes trees may use:
//!
//! | File of `proofs/` | Says |
//! |---|---|
//! | `Ready` | bodies of functions that are resolved and have no form without bytes can be encoded |
#![tactic(auto)]

mod bodies;
mod custom;
mod customs;
mod dylink;
mod functions;
mod hints;
mod place;
mod producers;
mod section;

pub use custom::joined;
pub use customs::put_customs;
pub use hints::put_hints;
pub use section::add_section;

//! Laws of whole texts and of binaries (WebAssembly Core Specification 3.0), and no code: where a branch hint and its instruction stand in a
//! binary, and what a text is worth of which bodies of functions are written flat, or fields are written out.
//!
//! # What has to be believed
//!
//! | File of `specs/` | Says |
//! |---|---|
//! | `HintPlaces` | that a module has a hint, and where in a binary it is listed and its instruction begins |
//! | `Unnamed` | the bytes of a module but the section of names, and the statement of `without_names` |
//! | `Bounds` | two texts that aren't refused before they are read |
//! | `Flat` | which tokens are those of a text with bodies written flat |
//! | `Laws` | the statements of `folding` |
//! | `Written` | texts of which one spells the fields of the other written out, and the statement of `written_out` |
//! | `HintExamples`, `RenamedExamples`, `FlatExamples`, `WrittenExamples` | a hint, and pairs of texts that differ so, by hand |
#![tactic(auto)]

pub mod laws;

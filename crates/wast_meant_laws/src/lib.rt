//! Laws over what `wast_meant` says of trees (WebAssembly Core Specification 3.0, 6.6), and no code: what becomes of conditions, modules and
//! binaries where names and places are others, that a module without names doesn't depend on them, and where custom sections stand among
//! the sections of a module that fields stand for.
//!
//! # What has to be believed
//!
//! | File of `specs/` | Says |
//! |---|---|
//! | `Laws` | the statements of the law functions |
//! | `Renamed` | renamings of names and places, renamed trees, and names of maps that are renamed |
//! | `Stops` | what stands at each stop of a module |
//!
//! Fields with other names and places are those of `wast_resolve_laws` (`Renamed`). The module meant is said by `wast_meant` (`Meaning`),
//! its layout, and the module without names, by `wasm_layout` (`Layout`, `Lays`), breaches by `wast_meaning` (`WellFormed`). Of the lemmas
//! behind the laws, in
//! `proofs/`, laws of whole texts and what encodes trees may use:
//!
//! | File of `proofs/` | Says |
//! |---|---|
//! | `Free` | the free theorem of `wast_resolve_laws` for what looks at names by two tests, relations among it |
//! | `Renamed`, `Trees` | conditions and modules of renamed fields, and of renamed trees |
//! | `Bare`, `Unnamed` | a module without names is the same for any names, and its pieces are those of the module but for the section of names |
//! | `Woven`, `Gaps`, `AtStops` | the pieces of a module stop by stop, and its gaps |
#![tactic(auto)]

pub mod laws;

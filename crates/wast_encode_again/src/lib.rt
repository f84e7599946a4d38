//! Laws of encoding a module once more (WebAssembly Core Specification 3.0, 6.6), and no code: what `EncodeOptions::encode_module` of `wast_encode`
//! leaves of a module whose names it resolved can be encoded again, and is answered as the module is.
//!
//! # What has to be believed
//!
//! | File of `specs/` | Says |
//! |---|---|
//! | `Laws` | the statement of the law function |
//!
//! What encoding a tree answers, and what it leaves of it, is said by `wast_encode` (`Encoded`), what a tree is resolved to by
//! `wast_resolve` (`Whole`).
#![tactic(auto)]

pub mod laws;

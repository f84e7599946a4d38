//! Binaries as they are meant (WebAssembly Core Specification 3.0, chapter 5), over what the crates `wasm_encoder_*` say of their parts: which
//! bytes are the binary of an abstract module, and what a reader of bytes finds. It has definitions and laws, and no code.
//!
//! # What has to be believed
//!
//! | File of `specs/` | Says |
//! |---|---|
//! | `AbstractModule` | a module without names for indices, with the names, branch hints and custom sections that a binary may hold |
//! | `Section` | the kinds of sections, their numbers and their order |
//! | `Present` | which sections a module has |
//! | `Layout` | what each section holds, where custom sections stand, and the bytes of a module |
//! | `IsModule` | which numbers are in the ranges of their binary fields |
//! | `Lays` | which bytes are the binary of a module, and which modules a reader finds; a module without its names |
//! | `Laws` | the statements of the law functions |
//! | `Examples` | modules and bytes by hand |
//!
//! Of the lemmas in `proofs/`, what encodes modules may use:
//!
//! | File of `proofs/` | Says |
//! |---|---|
//! | `Spelled` | segments, tables and globals are spelled alike where their expressions are instructions and where they are the bytes of these |
#![tactic(auto)]

pub mod laws;

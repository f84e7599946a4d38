//! An assembler for the text format of WebAssembly (WebAssembly Core Specification 3.0, chapter 6).
//!
//! [`assemble`] answers the binary of the module that a text spells, or else the first condition that the text fails;
//! [`run`] does so from a reader to a writer, [`run_program`] as a program does, and [`render`] tells a fault. [`Wat`] is a text as a
//! tree, which a parser reads, and [`encode_wat`] makes its binary.
//!
//! The text `(module (func (export "a")))` gives these bytes, which is a row of `wat_rows`:
//!
//! ```text
//! 00 61 73 6d 01 00 00 00 01 04 01 60 00 00 03 02 01 00 07 05 01 01 61 00 00 0a 04 01 02 00 0b
//! ```
//!
//! Its laws are the functions of [`laws`]: each input has one verdict, a text one meaning, a module one binary and a binary
//! one reading, and two plain texts have equal binaries exactly where they mean the same module; folding leaves what a text means, renaming
//! and writing out leave all of it but names, and branch hints stand at their instructions.
#![tactic(auto)]

mod assembler;
mod fault;
pub mod laws;
mod program;
mod renderer;
mod runner;
mod text;

pub use assembler::{assemble, encode_wat};
pub use fault::Fault;
pub use program::run_program;
pub use renderer::render;
pub use runner::run;
pub use text::Wat;
pub use wast_encode::{EncodeFault, EncodeOptions};
pub use wast_lexer::Span;
pub use wast_parser_base::Error;
pub use wat_io::Counted;

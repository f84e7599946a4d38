//! Strings of the text format (WebAssembly Core Specification 3.0, 6.3.3): a part of the crate `wast_lexer`.
//!
//! [`string_end`] tells where a string ends, [`string_value`] the bytes that it stands for, and without memory [`is_text`]
//! whether these are a text, and [`stands_for`] whether they are those. All read a string from left to right, one
//! character or escape at a time.
//!
//! An example: `"\u{1F600}"` stands for the bytes f0 9f 98 80; it is a row of the program `wast_rows`.
//!
//! The law: behind its first quote, a scan reads just the strings, and the bytes that each stands for
//! ([`laws::one_meaning`]).
#![tactic(auto)]

mod error;
pub mod laws;
mod piece;
mod string;
mod utf8;

pub use error::LexError;
pub use string::{is_text, stands_for, string_end, string_value};

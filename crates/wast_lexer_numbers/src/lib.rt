//! Numbers of the text format (WebAssembly Core Specification 3.0, 6.3.1 and 6.3.2), as they are written: a part of the
//! crate `wast_lexer`. What a number stands for is not told here.
//!
//! [`number`] tells whether a word is a number and of which kind; [`integer`] and [`float`] answer its parts: sign, base,
//! digits, fraction, exponent, payload, each as it is written.
//!
//! An example: `-0xfF_0` is a negative hexadecimal integer with the digits `fF_0`; it is a row of the program `wast_rows`.
//!
//! The law: the scan finds the kind of each number, and finds none elsewhere ([`laws::scans_numbers`]).
#![tactic(auto)]

mod kind;
pub mod laws;
mod parts;
mod read;
mod scan;

pub use kind::{FloatKind, IntegerKind, NumberKind, SignToken};
pub use parts::{Float, Integer};
pub use read::{float, integer};
pub use scan::number;

//! Values of data segments (WebAssembly Core Specification 3.0, 6.6, data segments, and the proposal of numeric values in data segments).
//!
//! A [`DataVal`] is read by its production: a string, or numbers behind their type, as `(i16 -1 0x102)`, which is the bytes
//! `ff ff 02 01`. Integers, and vectors of them, are kept as their bytes, of each the low byte first. Floats, and vectors of
//! which one has lanes that are floats, are read and counted, and have no bytes here.
//!
//! # What has to be believed
//!
//! | File of `specs/` | Says |
//! |---|---|
//! | `DataTree`, `DataSyntax` | a value as a tree, its bytes and how many they are; the productions |
//! | `DataViews` | which tree each Rust type is |
#![tactic(auto)]

mod bytes;
mod syntax;
mod value;

pub use value::DataVal;

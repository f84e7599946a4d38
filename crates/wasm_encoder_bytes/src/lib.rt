//! The spelling of values in bytes (WebAssembly Core Specification 3.0, 5.1.3 and 5.2): LEB128, names, lists, floats by
//! their bits. It is the lower part of `wasm_encoder_base`, which hands on all that is public here.
//!
//! [`Encode`] appends a value's spelling to a vector of bytes; refused, the vector is as it was. Every LEB128 that is
//! written is the shortest one. [`read_u32`] and [`read_s33`] read such numbers back.
//!
//! Spellings are put together: a pair or a triple is its values one after another, an `Option` what there may be,
//! [`RawBytes`] bytes as they are, [`Part`] a part with its size before it. [`EncodedList`] is a list whose items are
//! encoded as they are appended; sections are built of these.
//!
//! ```
//! let mut sink = Vec::new(alloc);
//! 624485u32.encode(&mut sink)?;
//! (-123456i32).encode(&mut sink)?;
//! "abc".encode(&mut sink)?;
//! [1u32, 128].as_slice().encode(&mut sink)?;
//! ```
//!
//! leaves the bytes `E5 8E 26`, `C0 BB 78`, `03 61 62 63` and `02 01 80 01` in `sink`.
//!
//! The laws: [`laws::shortest`], what is written for a number decodes to it, and nothing shorter does;
//! [`laws::one_reading`], numbers, names and lists are told apart by their bytes; [`laws::lists`], a list built item by
//! item is the list of these items; [`laws::spelling_examples`], the bytes above.
#![tactic(auto)]

mod adding;
mod encode;
mod error;
mod ieee;
pub mod laws;
mod leb;
mod list;
mod part;
mod reading;

pub use adding::{Added, rolled_back};
pub use encode::{Encode, encode_both, encode_sized};
pub use error::EncodeError;
pub use ieee::{Ieee32, Ieee64};
pub use leb::encoding_size;
pub use list::EncodedList;
pub use part::{Measure, Part, RawBytes};
pub use reading::{read_s33, read_u32};

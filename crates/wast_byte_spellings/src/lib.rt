//! What a text spells, in bytes (WebAssembly Core Specification 3.0, 5.1.3 and 5.2): [`Encode`] appends the spelling of a
//! value to a vector of bytes, with the LEB128 of `wasm_encoder_bytes`; refused, the vector is as it was.
//!
//! ```
//! let mut sink = Vec::new(alloc);
//! (624485u32, "abc").encode(&mut sink)?;
//! ```
//!
//! leaves the bytes `E5 8E 26 03 61 62 63` in `sink`.
#![tactic(auto)]

mod encode;

pub use encode::Encode;
pub use wasm_encoder_bytes::EncodeError;

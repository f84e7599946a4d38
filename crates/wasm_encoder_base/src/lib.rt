//! The base of the encoder (WebAssembly Core Specification 3.0, chapter 5): the trait [`Encode`], types, the numbers of
//! sections, and in `specs/` the one table of all instructions.
//!
//! A value's spelling is its bytes in a WebAssembly binary. [`Encode::encode`] appends it to a vector of bytes; refused,
//! the vector is as it was. Every LEB128 that is written is the shortest one.
//!
//! ```
//! let mut sink = Vec::new(alloc);
//! let func_type = FuncType::new(alloc, &[ValType::I32, ValType::I64], &[ValType::F32])?;
//! func_type.encode(&mut sink)?;
//! ```
//!
//! leaves the bytes `60 02 7F 7E 01 7D` in `sink`.
//!
//! The laws: [`laws::shortest`] and [`laws::one_reading`] of numbers, names and lists; [`laws::one_type`],
//! [`laws::one_instruction`], types, instructions and expressions are told apart by their bytes;
//! [`laws::distinct_entries`], [`laws::distinct_uncovered`], no two entries of the table of instructions, or of the list
//! of those that are refused as uncovered, are the same; [`laws::short_forms`], [`laws::examples`], bytes and entries by
//! hand, those above among them.
#![tactic(auto)]

pub mod laws;
mod section;
mod types;

pub use item_lists::{Bytes, Items, OwnedItems};
pub use section::{Section, SectionId};
pub use types::{
    AbstractHeapType, ArrayType, CompositeType, FieldType, FuncType, HeapType, RefType,
    StorageType, StructType, SubType, ValType,
};
pub use wasm_encoder_bytes::{
    Added, Encode, EncodeError, EncodedList, Ieee32, Ieee64, Measure, Part, RawBytes, encode_both,
    encode_sized, encoding_size, read_s33, read_u32, rolled_back,
};

//! Opcodes of the instructions without operands of their own (WebAssembly Core Specification 3.0, 5.4): a part of the
//! crate `wasm_encoder_instr`.
//!
//! A value is encoded as its opcode in the one table of `wasm_encoder_base`: a byte, or a prefix and a number
//! ([`Prefixed`]). That is the whole instruction, save at [`AccessOp`], [`AtomicOp`] and [`AtomicRmwOp`]: there a memory
//! argument stands after it, which the value doesn't hold.
//!
//! ```
//! let mut sink = Vec::new(alloc);
//! CompareOp::I32LtS.encode(&mut sink)?;
//! VectorFloatOp::I8x16RelaxedSwizzle.encode(&mut sink)?;
//! ```
//!
//! leaves the bytes `48` and `FD 80 02` in `sink`.
//!
//! The law: [`laws::listed`], each opcode is that of the entry in the table with the operation's mnemonic.
#![tactic(auto)]

mod access;
mod atomic;
mod atomic_rmw;
mod compare;
mod convert;
pub mod laws;
mod numeric;
mod prefixed;
mod vector;
mod vector_float;
mod vector_narrow;
mod vector_wide;

pub use access::AccessOp;
pub use atomic::AtomicOp;
pub use atomic_rmw::AtomicRmwOp;
pub use compare::CompareOp;
pub use convert::ConvertOp;
pub use numeric::NumericOp;
pub use prefixed::Prefixed;
pub use vector::VectorOp;
pub use vector_float::VectorFloatOp;
pub use vector_narrow::VectorNarrowOp;
pub use vector_wide::VectorWideOp;

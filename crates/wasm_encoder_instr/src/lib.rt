//! The instructions of WebAssembly as values, and their bytes (WebAssembly Core Specification 3.0, 5.4). It is the lower
//! part of `wasm_encoder_code`, which hands on all that is public here.
//!
//! An [`Instruction`] is an opcode of the one table of `wasm_encoder_base` with operands of its kind, and is encoded as
//! that opcode and those operands; refused, the vector of bytes is as it was. [`Instruction::can_encode`] is the test of
//! what `encode` asks: the logarithm of a memory argument's alignment is below 16. Families of instructions without
//! operands, or with a memory argument alone, are enums of the part `wasm_encoder_opcodes`, which are handed on.
//!
//! ```
//! let mut sink = Vec::new(alloc);
//! Instruction::Numeric(NumericOp::F64Sqrt).encode(&mut sink)?;
//! ```
//!
//! leaves the byte `9F` in `sink`.
//!
//! The law: [`laws::listed`], the table's entry of each instruction's opcode has the instruction's mnemonic, and operands
//! of its kind; of the entries of `ref.test` and `ref.cast`, those with null are the nullable ones'.
#![tactic(auto)]

mod block;
mod bulk;
mod catch;
mod gc;
mod handle;
mod instruction;
pub mod laws;
mod mem_arg;
mod operand;
mod ordering;
mod vector_arg;

pub use block::BlockType;
pub use bulk::BulkOp;
pub use catch::Catch;
pub use gc::GcOp;
pub use handle::Handle;
pub use instruction::Instruction;
pub use mem_arg::{Lane, MemArg, MemArgTarget};
pub use ordering::{MemArgOrdering, Ordering};
pub use vector_arg::VectorArgOp;
pub use wasm_encoder_opcodes::{
    AccessOp, AtomicOp, AtomicRmwOp, CompareOp, ConvertOp, NumericOp, VectorFloatOp,
    VectorNarrowOp, VectorOp, VectorWideOp,
};

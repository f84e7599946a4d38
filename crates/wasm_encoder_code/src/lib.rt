//! Bodies of functions and constant expressions (WebAssembly Core Specification 3.0, 5.4 and 5.5.13), and the
//! instructions of the part `wasm_encoder_instr`.
//!
//! A [`Function`] is a body: its locals, and the instructions that are appended. [`Function::instructions`] lends it to an
//! [`InstructionSink`], which appends to any vector of bytes; its calls chain. A [`ConstExpr`] is an expression without
//! its `end`, which `encode` appends.
//!
//! A call refuses with `EncodeError::TooLarge` exactly where, memory found, a count or length in what it makes or appends is
//! past 4294967295, and with `EncodeError::Memory` where a growth found no memory. It then leaves the bytes as they were, save
//! that a `with_` call of an expression takes it and then drops it.
//!
//! ```
//! let mut bytes = Vec::new(alloc);
//! InstructionSink::new(&mut bytes).i32_add()?.end()?;
//! let mut function = Function::new(alloc, &[])?;
//! function.instructions().local_get(0)?.end()?;
//! ```
//!
//! leaves `6A 0B` in `bytes`, and `00 20 00 0B` in the body: no locals, `local.get 0`, `end`.
//!
//! The laws: [`laws::one_body`] and [`laws::one_expression`], bodies and expressions are told apart by their bytes;
//! [`laws::runs`], joined locals are the runs of these locals; [`laws::bodies`], what [`Function::new`] makes of runs
//! begins a body; [`laws::places`], where an instruction of a body begins; [`laws::listed`], each instruction is that of
//! an entry of the table of instructions.
#![tactic(auto)]

mod const_expr;
mod function;
pub mod laws;
mod locals;
mod sink;

pub use const_expr::ConstExpr;
pub use function::Function;
pub use sink::InstructionSink;
pub use wasm_encoder_base::Added;
pub use wasm_encoder_instr::{
    AccessOp, AtomicOp, AtomicRmwOp, BlockType, BulkOp, Catch, CompareOp, ConvertOp, GcOp, Handle,
    Instruction, Lane, MemArg, MemArgOrdering, MemArgTarget, NumericOp, Ordering, VectorArgOp,
    VectorFloatOp, VectorNarrowOp, VectorOp, VectorWideOp,
};

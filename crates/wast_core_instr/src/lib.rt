//! Instructions of the text format with their operands (WebAssembly Core Specification 3.0, 6.5), and expressions of them.
//!
//! An [`Instruction`] has a variant for each mnemonic; those of one family stand behind a variant of their own, as they do in the
//! encoder, whose operations without operands they are. It is read by its word, which says what operands stand behind it. An
//! [`Expression`] is what folded and flat items unfold to: `(i32.add (i32.const 1) (i32.const 2))` and
//! `i32.const 1 i32.const 2 i32.add` are one. The types of operands stand in the parts `wast_operands` and
//! `wast_typed_operands`, how expressions are read in `wast_expressions`, and words in `wast_mnemonics`. This crate hands on the
//! operands of the first two, the encoder's operations that stand in an [`Instruction`], and [`BranchHint`], [`Steps`] and the laws of
//! expressions ([`laws`]); not the types of the text.
//!
//! # What has to be believed
//!
//! | File of `specs/` | Says |
//! |---|---|
//! | `InstructionTree`, `InstructionSyntax` | instructions as trees, and the production |
//! | `InstructionGroups` | which groups instructions head, and those that groups make |
//! | `WordViews`, `InstructionViews` | which word each variant has, and what the grammar sees of it |
//! | `ExpressionViews` | what the grammar sees of expressions |
#![tactic(auto)]

mod bulk;
mod compose;
mod expression;
mod gc;
mod instruction;
mod memarg;
mod operation;
mod parse;
mod proposal;
mod vector_arg;

pub use bulk::BulkOp;
pub use expression::Expression;
pub use gc::GcOp;
pub use instruction::Instruction;
pub use proposal::ProposalOp;
pub use vector_arg::VectorArgOp;
pub use wasm_encoder_opcodes::{
    AccessOp, AtomicOp, AtomicRmwOp, CompareOp, ConvertOp, NumericOp, VectorFloatOp,
    VectorNarrowOp, VectorOp, VectorWideOp,
};
pub use wast_expressions::{BranchHint, Steps, laws};
pub use wast_operands::{
    ArrayCopy, ArrayFill, ArrayInit, ArrayNewData, ArrayNewElem, ArrayNewFixed, BrTableIndices,
    ContBind, FloatLit, Handle, I8x16Shuffle, LaneArg, LoadOrStoreLane, MemArg, MemArgOrdering,
    MemArgTarget, MemoryArg, MemoryCopy, MemoryInit, Ordered, Ordering, Resume, ResumeTable,
    ResumeThrow, ResumeThrowRef, StructAccess, Switch, TableArg, TableCopy, TableInit, V128Const,
};
pub use wast_typed_operands::{
    BlockType, BrOnCast, BrOnCastDescEq, BrOnCastDescEqFail, BrOnCastFail, CallIndirect, RefCast,
    RefCastDescEq, RefTest, SelectTypes, TryTable, TryTableCatch, TryTableCatchKind,
};

//! Operands of instructions in which no type stands (WebAssembly Core Specification 3.0, 6.5).
//!
//! Each type is read by its production; a memory argument, whose natural alignment the instruction says, by a function of its
//! own. An index that may be left out and is stands for index 0, and is `None`. So of `memory.copy 1 2` the operands are 1,
//! where to, and 2, where from; and of `i32.load offset=8` the memory argument has the offset 8, the alignment 4 and no target.
//! Lanes, floats and vectors stand in the part `wast_vector_operands`.
//!
//! # What has to be believed
//!
//! | File of `specs/` | Says |
//! |---|---|
//! | `OperandTree`, `OperandSyntax` | the operands as trees, and the productions |
//! | `OperandViews` | what the grammar sees of each type |
#![tactic(auto)]

mod index;
mod mem_arg;
mod number;
mod ordering;
mod resume;

pub use index::{
    ArrayCopy, ArrayFill, ArrayInit, ArrayNewData, ArrayNewElem, ArrayNewFixed, BrTableIndices,
    MemoryArg, MemoryCopy, MemoryInit, StructAccess, TableArg, TableCopy, TableInit,
};
pub use mem_arg::{LoadOrStoreLane, MemArg, MemArgOrdering, MemArgTarget};
pub use ordering::{Ordered, Ordering, Unordered};
pub use resume::{ContBind, Handle, Resume, ResumeTable, ResumeThrow, ResumeThrowRef, Switch};
pub use wast_vector_operands::{FloatLit, I8x16Shuffle, LaneArg, V128Const};

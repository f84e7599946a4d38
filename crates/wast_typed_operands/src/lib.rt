//! Operands of instructions in which types stand (WebAssembly Core Specification 3.0, 6.5).
//!
//! Each type is read by its production. A block type has a label and a type use without identifiers and names; an indirect call
//! a table before or behind such a use: `1 (type 0)` and `(type 0) 1` are one value, places aside; `1` alone is a table, with a
//! use of no tokens. What `wast_core_instr` needs of value types and of the parser is handed on.
//!
//! # What has to be believed
//!
//! | File of `specs/` | Says |
//! |---|---|
//! | `TypedTree`, `TypedSyntax` | the operands as trees, and the productions |
//! | `TypedViews` | what the grammar sees of each type |
#![tactic(auto)]

mod block;
mod call;
mod cast;
mod catch;
mod keyword;
mod select;

pub use block::{BlockType, TryTable};
pub use call::CallIndirect;
pub use cast::{
    BrOnCast, BrOnCastDescEq, BrOnCastDescEqFail, BrOnCastFail, RefCast, RefCastDescEq, RefTest,
};
pub use catch::{TryTableCatch, TryTableCatchKind};
pub use select::SelectTypes;
pub use wast_signatures::{Cursor, Error, HeapType, Id, Index, Meaning, Parse, Parser, Span, pair};

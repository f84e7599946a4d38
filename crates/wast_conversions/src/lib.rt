//! From trees of the text format to the values of the encoder (WebAssembly Core Specification 3.0, 6.4 to 6.6 and 5.3 to 5.5).
//!
//! Each function takes a tree that is resolved, in which each index is a number and each use of a type has its index, and that is
//! covered, in which no form stands that has no bytes here. It answers the encoder's value, or the number, that the tree stands for:
//! [`val_type`] the type of values of `(ref null 3)`, [`table_arg`] 0 where no table is written, [`instruction`] `i32.const -1` of
//! `i32.const 0xffffffff`. What makes lists takes an allocator, and is refused only for want of memory, but for [`const_expr`] and
//! [`push_instruction`]: they write instructions, and refuse a count in them past 4294967295 too. [`push_encoded`] takes an
//! instruction of the encoder, and [`as_u32`] a count, a place or an index of any size, and refuses one past 4294967295.
//!
//! An alignment becomes its logarithm. It can be encoded where it is a power of two below 65536.
//!
//! The clauses `sound` say that the numbers in what a tree stands for are in the ranges of their binary fields, as `IsModule` of
//! `wasm_layout` asks, and that an instruction is one of the table, with operands of its kind; where an alignment is in it, as above.
//! A list whose conversion was refused has not been read whole, so nothing is said of it.
//!
//! # What has to be believed
//!
//! | File of `specs/` | Says |
//! |---|---|
//! | `Types` | the types of a binary that types stand for, and those of imports and exports |
//! | `Operands` | the operands of a binary's instruction that operands stand for; which alignments are well formed |
//! | `Instructions` | the instructions of a binary that instructions stand for |
//! | `Resolved` | trees in which each index is a number |
//! | `Covered` | the forms in trees that have no bytes here, and what they are called |
//!
//! `Rows` serves private contracts: what the table says of a word's operands, which of two entries an instruction is of, and the bytes of what it
//! stands for.
#![tactic(auto)]

mod body;
mod bulk;
mod expression;
mod gc;
mod indices;
mod instructions;
mod items;
mod operands;
mod types;
mod vector_arg;

pub use body::{push_encoded, push_instruction};
pub use expression::const_expr;
pub use indices::{all_indices, as_u32, index, optional_index};
pub use instructions::instruction;
pub use items::{entity_type, export_kind, global_type, memory_type, table_type};
pub use operands::{
    array_fill, block_type, catch, lane_arg, mem_arg, memory_arg, ordering, shuffle, table_arg,
    v128_const,
};
pub use types::{
    array_type, field_type, func_type, heap_type, ref_type, storage_type, struct_type, sub_type,
    type_index, val_type,
};

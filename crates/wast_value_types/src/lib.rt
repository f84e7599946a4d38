//! The types of values, heaps, tables, memories and globals as trees, and their syntax (WebAssembly Core Specification 3.0,
//! 6.4). A part of the crate `wast_signatures`.
//!
//! [`ValType`], [`RefType`], [`HeapType`] and [`AbstractHeapType`] are read and looked for, the others are read. Types of
//! proposals, which are shared, exact or of continuations, are read into the tree too. Indices in types are not resolved.
//! Two heap, reference or value types are equal exactly where their trees are, wherever their indices stand, so `funcref` is
//! `(ref null func)` ([`laws::equal_types`]); equal ones hash alike.
//!
//! What it hands on of `wast_words` reads keywords and looks for them, or is of the parser, for those that stand on this crate.
//!
//! # What has to be believed
//!
//! | File of `specs/` | Says |
//! |---|---|
//! | `ValueTree` | the trees |
//! | `ValueSyntax` | which tokens spell them, and what they begin with |
//! | `ValueViews` | what the grammar sees of each Rust type |
//! | `Unplaced`, `Laws` | types without places; the statement of the law function |
//! | `Nameless` | types in which no name stands, whose copies want no memory |
#![tactic(auto)]

mod global_type;
mod heap_type;
pub mod keyword;
pub mod laws;
mod limits;
mod ref_type;
mod storage_type;
mod table_type;
mod val_type;

pub use global_type::GlobalType;
pub use heap_type::{AbstractHeapType, HeapType};
pub use limits::{Limits, address_type};
pub use ref_type::RefType;
pub use storage_type::{FieldType, StorageType};
pub use table_type::{MemoryType, TableType, page_size};
pub use val_type::ValType;
pub use wast_words::{
    Cursor, Error, Group, Id, Index, Item, Keyword, KeywordName, LParen, Meaning, NameAnnotation,
    Parse, Parser, Peek, Span, Word, Words, Written, closed, closed_or, find, group_of, list_of,
    optional, or_peek, pair,
};

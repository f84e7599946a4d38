//! Types of the text format (WebAssembly Core Specification 3.0, 6.4 and 6.6, type uses), as trees: those of values, heaps, tables,
//! memories and globals, which stand in `wast_value_types`, signatures, type uses and fields of structures, which stand in
//! `wast_signatures`, composite types and type definitions.
//!
//! Each type is read where its production is spelled, and is then the one value that the tokens spell. The forms of proposals
//! are read too: `(shared ..)`, `(cont ..)`, `(exact ..)`, `(describes ..)` and `(descriptor ..)`. A production is read with the
//! parentheses that stand in it: a [`FunctionType`] is `(param i32) (result i64)`, an [`InnerTypeKind`] `(func (param i32))`.
//! [`CompositeType`] reads `(shared ..)` around that at any depth, without recursion; what is shared twice is shared.
//!
//! # What has to be believed
//!
//! | File of `specs/` | Says |
//! |---|---|
//! | `ValueTree`, `TypeTree` | the abstract syntax trees |
//! | `ValueSyntax`, `TypeSyntax` | the productions |
//! | `ValueViews`, `SignatureViews`, `TypeViews` | what the grammar sees of each Rust type |
#![tactic(auto)]

mod composite;
mod definition;
pub mod keyword;

pub use composite::{ArrayType, CompositeType, ContType, InnerTypeKind, StructType};
pub use definition::{Rec, TypeDef, TypeItem};
pub use wast_signatures::{
    Body, FunctionType, FunctionTypeNoNames, Grouped, Param, Several, StructField, TypeUse,
    join_groups,
};
pub use wast_value_types::{
    AbstractHeapType, FieldType, GlobalType, HeapType, Limits, MemoryType, RefType, StorageType,
    TableType, ValType, page_size,
};

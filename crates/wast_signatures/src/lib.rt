//! Signatures, type uses and fields of structures as trees, and their syntax (WebAssembly Core Specification 3.0, 6.4.5, 6.4.6
//! and 6.6, type uses). A part of the crate `wast_core_types`.
//!
//! Each is read where its production is spelled, and is then the one value that the tokens spell. A production is read with the
//! parentheses that stand in it: a [`FunctionType`] is `(param i32) (result i64)`.
//!
//! A parameter `(param $x i32)` has an identifier, `(param (@name "n") i32)` a name where the annotation is registered, and
//! `(param i32 i64)` are two without either. `(type 0) (param i32)` is a [`TypeUse`], whose signature is there where a group of
//! parameters or results is written, an empty one too. [`FunctionTypeNoNames`] is a signature that allows no identifiers and no
//! names.
//!
//! [`Grouped`] is a [`Body`] behind a word in parentheses, [`Several`] what one of several groups holds of a list, as parameters or
//! each [`StructField`] of a group, and [`join_groups`] joins these. The trees and productions of all composite types and type
//! definitions (6.4.6 and 6.4.7) stand beside those of signatures; what reads them is `wast_core_types`. What those that stand on this crate need
//! of value types and of the parser is handed on.
//!
//! # What has to be believed
//!
//! | File of `specs/` | Says |
//! |---|---|
//! | `TypeTree` | the abstract syntax trees |
//! | `TypeSyntax` | the productions |
//! | `SignatureViews` | what the grammar sees of each Rust type |
#![tactic(auto)]

mod group;
mod join;
pub mod keyword;
mod signature;
mod struct_field;
mod type_use;

pub use group::{Body, Grouped, value_of};
pub use join::{Several, join as join_groups};
pub use signature::{FunctionType, FunctionTypeNoNames, Param};
pub use struct_field::StructField;
pub use type_use::TypeUse;
pub use wast_value_types::{
    AbstractHeapType, Cursor, Error, FieldType, GlobalType, Group, HeapType, Id, Index, Item,
    KeywordName, LParen, Limits, Meaning, MemoryType, NameAnnotation, Parse, Parser, Peek, RefType,
    Span, StorageType, TableType, ValType, closed, closed_or, group_of, list_of, or_peek,
    page_size, pair,
};

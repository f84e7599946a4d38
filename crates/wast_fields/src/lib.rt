//! The fields of a module that define something, and segments (WebAssembly Core Specification 3.0, 6.6), as trees.
//!
//! Each field is read by its production, with its parentheses. A [`Func`], a [`Table`], a [`Memory`], a [`Global`] or a [`Tag`]
//! defines something: `(func $f (export "f") (param i32))`. Its exports stand inline, and its kind says whether it is imported, by
//! an `InlineImport` of `wast_exports`, or has its contents inline; nothing is written out: `(memory (data "x"))` stays one field.
//! [`Elem`] and [`Data`] are segments. Names aren't resolved.
//!
//! The parts: `wast_field_syntax` (trees and productions), `wast_func_fields`, `wast_memory_fields` and `wast_table_fields`.
#![tactic(auto)]

pub use wast_field_syntax::keyword;
pub use wast_func_fields::{
    Func, FuncKind, Global, GlobalKind, Local, LocalParser, Tag, TagKind, laws,
};
pub use wast_memory_fields::{Data, DataKind, Memory, MemoryKind};
pub use wast_table_fields::{Elem, ElemKind, ElemPayload, Table, TableKind};

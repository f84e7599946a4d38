//! Any field of a module (WebAssembly Core Specification 3.0, 6.6), as a tree.
//!
//! A [`ModuleField`] is any field, read by its production, with its parentheses. Fields that define something, as [`Func`] and
//! [`Table`], and the segments [`Elem`] and [`Data`] come from `wast_fields`, and [`Start`] names the start function. Names aren't
//! resolved.
//!
//! The parts, of which this crate hands on the types of trees: `wast_fields`, `wast_imports`, `wast_exports`, `wast_customs`,
//! `wast_data`. Types of the text and instructions have crates of their own, `wast_core_types` and `wast_core_instr`; it hands on
//! the types of these that stand in public fields of its own types and of its parts', and [`TypeDef`] and [`Instruction`].
//!
//! # What has to be believed
//!
//! | File of `specs/` | Says |
//! |---|---|
//! | `FieldSyntax` | the productions of the start function and of fields as such |
//! | `ModuleFieldViews` | which tree of `FieldTree` of `wast_field_syntax` each Rust type is |
//!
//! `FieldWords` serves private contracts.
#![tactic(auto)]

mod field;
mod field_word;
pub mod keyword;
mod start;

pub use field::ModuleField;
pub use start::Start;
pub use wast_core_instr::{Expression, Instruction};
pub use wast_core_types::{
    FunctionType, GlobalType, MemoryType, Rec, RefType, TableType, TypeDef, TypeItem, TypeUse,
    ValType,
};
pub use wast_customs::{
    Custom, CustomPlace, CustomPlaceAnchor, Dylink0, Dylink0Subsection, Producer, ProducerKind,
    Producers, RawCustomSection,
};
pub use wast_data::DataVal;
pub use wast_exports::{Export, ExportKind, ExportName, InlineExport, InlineImport};
pub use wast_fields::{
    Data, DataKind, Elem, ElemKind, ElemPayload, Func, FuncKind, Global, GlobalKind, Local,
    LocalParser, Memory, MemoryKind, Table, TableKind, Tag, TagKind,
};
pub use wast_imports::{
    ExportType, Head, ImportGroup1Item, ImportGroup2Item, ImportItems, Imports, ItemKind, ItemSig,
    TagType,
};

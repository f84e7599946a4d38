//! Modules (WebAssembly Core Specification 3.0, 6.6), as trees.
//!
//! A [`Module`] is `(module ..)`, or the pieces of a binary, and a [`TextModule`] what a whole text is: that, or fields alone. Names
//! aren't resolved.
//!
//! Its part is `wast_module_fields`, with [`ModuleField`], any field. It hands on the types of that, and those that it hands on.
//!
//! # What has to be believed
//!
//! | File of `specs/` | Says |
//! |---|---|
//! | `ModuleSyntax` | the productions of modules and of whole texts |
//! | `ModuleViews` | which tree of `FieldTree` of `wast_field_syntax` each Rust type is |
//! | `Laws` | the statements of the law functions |
//!
//! `FieldsAlone` serves private contracts. The crate also hands on `FieldSyntax` and `ModuleFieldViews` of `wast_module_fields`.
#![tactic(auto)]

pub mod keyword;
pub mod laws;
mod module;
mod text;

pub use module::{Module, ModuleKind};
pub use text::TextModule;
pub use wast_module_fields::{
    Custom, CustomPlace, CustomPlaceAnchor, Data, DataKind, DataVal, Dylink0, Dylink0Subsection,
    Elem, ElemKind, ElemPayload, Export, ExportKind, ExportName, ExportType, Expression, Func,
    FuncKind, FunctionType, Global, GlobalKind, GlobalType, Head, ImportGroup1Item,
    ImportGroup2Item, ImportItems, Imports, InlineExport, InlineImport, Instruction, ItemKind,
    ItemSig, Local, LocalParser, Memory, MemoryKind, MemoryType, ModuleField, Producer,
    ProducerKind, Producers, RawCustomSection, Rec, RefType, Start, Table, TableKind, TableType,
    Tag, TagKind, TagType, TypeDef, TypeItem, TypeUse, ValType,
};

//! What the readers of fields that define something, and of segments, have in common (WebAssembly Core Specification 3.0, 6.6): the
//! trees of all fields and the productions, the words, and readers of their parts.
//!
//! The fields stand in `wast_func_fields`, `wast_memory_fields` and `wast_table_fields`; `wast_fields` hands on all. What these three
//! need of what stands in fields and of the parser is handed on here.
//!
//! # What has to be believed
//!
//! | File of `specs/` | Says |
//! |---|---|
//! | `FieldTree` | all fields, and modules, as trees |
//! | `DefinitionSyntax` | what fields that define something have in common; the expressions in fields |
//! | `FuncSyntax`, `TableSyntax`, `ElemSyntax`, `DataSyntax` | the productions |
//! | `InlineViews` | which tree an import has that stands inline |
#![tactic(auto)]

pub mod keyword;
mod list;
mod look;
mod segment;
mod sizes;

pub use list::full_list;
pub use look::{InstructionGroup, or_begins};
pub use segment::{UseOf, parse_use};
pub use sizes::parse_sizes;
pub use wast_core_instr::Expression;
pub use wast_data::DataVal;
pub use wast_exports::{InlineExport, InlineImport};
pub use wast_imports::Head;
pub use wast_parser::{
    Error, Id, Index, Keyword, KeywordName, LParen, Meaning, NameAnnotation, Parse, Parser, Span,
    closed, closed_or, list_of, required,
};

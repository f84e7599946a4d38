//! Imports, and what imports and exports are of (WebAssembly Core Specification 3.0, 6.4.13 and 6.6, imports).
//!
//! An [`ItemSig`] is an external type in its parentheses, with what it is called: `(func $f (param i32))`, `(memory 1)`. An
//! [`Imports`] is a single import, `(import "module" "name" (func))`, or by a proposal several of one module, each with its item,
//! `(import "module" (item "a" (func)) (item "b" (memory 1)))`, or all of one item, which is called nothing,
//! `(import "module" (item "a") (item "b") (func))`. An [`ExportType`] is `(export "name" (func))`. [`Head`] is what a field or
//! an item is called. Each of these is read by its production.
//!
//! # What has to be believed
//!
//! | File of `specs/` | Says |
//! |---|---|
//! | `ImportTree`, `ImportSyntax` | the trees, and the productions |
//! | `ImportViews` | which tree each Rust type is; the items that an import has |
#![tactic(auto)]

mod export_type;
mod head;
mod import;
mod item;
mod member;

pub use export_type::ExportType;
pub use head::Head;
pub use import::{ImportGroup1Item, ImportGroup2Item, ImportItems, Imports};
pub use item::{ItemKind, ItemSig, TagType, expected_behind_use, parse_exact};

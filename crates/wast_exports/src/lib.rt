//! Exports, and the exports and imports that stand inline in other fields (WebAssembly Core Specification 3.0, 6.6).
//!
//! [`Export`] is `(export "name" (func $f))`; [`InlineExport`] is as many `(export "name")` as are written, and
//! [`InlineImport`] is `(import "module" "field")`. Each is read by its production.
//!
//! # What has to be believed
//!
//! | File of `specs/` | Says |
//! |---|---|
//! | `Exports` | their trees and productions |
//! | `ExportViews` | which tree each Rust type is |
#![tactic(auto)]

mod export;
mod inline;
pub mod keyword;

pub use export::{Export, ExportKind};
pub use inline::{ExportName, InlineExport, InlineImport};

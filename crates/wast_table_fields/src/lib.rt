//! Tables and element segments of a module (WebAssembly Core Specification 3.0, 6.6), as trees: [`Table`], [`Elem`].
//!
//! Each is read by its production, with its parentheses; nothing is written out: `(table funcref (elem $f))` stays one field.
//! Names aren't resolved.
//!
//! What has to be believed: `specs/ElemViews`, which tree each Rust type is; the productions stand in `wast_field_syntax`.
#![tactic(auto)]

mod elem;
mod element;
mod table;

pub use elem::{Elem, ElemKind, ElemPayload};
pub use table::{Table, TableKind};

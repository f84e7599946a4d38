//! Custom fields of a module (WebAssembly Core Specification 3.0, appendix on custom sections and annotations, and the tool
//! conventions on producers and dynamic linking).
//!
//! Each type is read by its production. [`Custom`] is `(@custom ..)`, `(@producers ..)` or `(@dylink.0 ..)`; these annotations
//! have to be registered by the caller. The subsections of a [`Dylink0`] encode as what follows their number and size; neighbours
//! that speak of exports, or of imports, are read as one, and no entry is lost ([`laws::joining_keeps`]).
//!
//! # What has to be believed
//!
//! | File of `specs/` | Says |
//! |---|---|
//! | `CustomTree`, `CustomSyntax` | custom fields as trees, and their productions |
//! | `DylinkSyntax`, `Dylink` | the groups of `dylink.0`; how neighbours are joined, and the bytes of each subsection |
//! | `Laws` | the statement of the law function |
//! | `CustomViews` | which tree each Rust type is |
#![tactic(auto)]

mod custom;
mod custom_syntax;
mod dylink;
mod dylink_syntax;
mod flag;
mod keyword;
pub mod laws;
mod place;
mod producers;
mod subsection;

pub use custom::{Custom, RawCustomSection};
pub use dylink::{Dylink0, Dylink0Subsection};
pub use place::{CustomPlace, CustomPlaceAnchor};
pub use producers::{Producer, ProducerKind, Producers};

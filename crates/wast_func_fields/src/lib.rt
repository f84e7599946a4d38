//! Functions, globals and tags of a module (WebAssembly Core Specification 3.0, 6.6), as trees: [`Func`], [`Global`], [`Tag`].
//!
//! Each is read by its production, with its parentheses: `(func $f (export "f") (param i32))`. Its exports stand inline, and its
//! kind says whether it is imported, by an `InlineImport` of `wast_exports`, or has its contents inline. Names aren't resolved.
//!
//! What has to be believed: `specs/FuncViews`, which tree each Rust type is; the productions stand in `wast_field_syntax`. The
//! law: [`laws::locals`].
#![tactic(auto)]

mod func;
mod global;
pub mod laws;
mod local;
mod tag;

pub use func::{Func, FuncKind};
pub use global::{Global, GlobalKind};
pub use local::{Local, LocalParser};
pub use tag::{Tag, TagKind};

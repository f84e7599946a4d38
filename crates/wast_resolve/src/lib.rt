//! Lists of fields resolved: each type use has its type, and each index is a number, or the first demand of names that isn't met is
//! refused (WebAssembly Core Specification 3.0, 6.1.3 and 6.6, type uses).
//!
//! [`types::expand`] gives each type use without an index the number of the type that it takes, and appends the types that uses imply
//! as fields. The use of a block without parameters and with at most one result stays as it is.
//!
//! ```text
//! (type $t (func (param i32)))
//! (func (param i32) (block (result i32 i32) ..))
//! ```
//!
//! become
//!
//! ```text
//! (type $t (func (param i32)))
//! (func (type 0) (param i32) (block (type 1) (result i32 i32) ..))
//! (type (func (result i32 i32)))
//! ```
//!
//! [`names::resolve`] tests all demands on names, and makes each index the number that it means. So of `(func $f (call $f))` it makes
//! `(func $f (call 0))`, and `(func (call $x))` is refused at byte 12 by
//!
//! ```text
//! unknown func: failed to find name `$x`
//! ```
//!
//! [`resolve()`] writes fields out first, and does both; [`ResolveModule`] does so with a module in its place, which keeps why it is refused.
//! It also tells whether a module, one that is made by hand too, is well formed.
//! So `(memory (export "m") (data "ab"))` becomes, where `$gensym` stands for the name that is made,
//!
//! ```text
//! (memory $gensym 1 1)
//! (export "m" (memory 0))
//! (data (memory 0) (i32.const 0) "ab")
//! ```
//!
//! Fields are rewritten in their place, by what becomes of each index, wherever one stands; nothing else of them changes (`wast_changed_fields`,
//! `wast_expanded`, `wast_numbered`), though the recorded places of instructions aren't promised, for `field_tree` doesn't have them.
//! Want of memory is refused too: for the names that are gathered, and for the types that uses take.
//!
//! # What has to be believed
//!
//! | File of `specs/` | Says |
//! |---|---|
//! | `Resolving` | the index spaces in which a [`names::Resolver`] looks, and that names mean what they mean in fields |
//! | `Whole` | what fields and modules are resolved to where a counter makes the names of what has none, and what a module that is refused keeps |
//!
//! The laws are those of the crate's parts ([`laws`]): what names mean and what is demanded of them stays where fields are written out,
//! where uses have their types, and where names are others.
//!
//! What fields are expanded to and numbered as is said by `wast_meaning`'s file `Numbered`, and demands by its file `Demands`. The other
//! file of `specs/` serves private contracts: `Known` says when index spaces are those of fields.
#![tactic(auto)]

pub mod laws;
mod module;
pub mod names;
mod numbered;
mod whole;

pub use module::ResolveModule;
pub use names::Ns;
pub use wast_deinline::deinline_import_export;
pub use wast_names::{Namespace, resolve_error};
pub use whole::{Names, resolve};

/// The types that uses take.
pub mod types {
    pub use wast_expanded::expand;
}

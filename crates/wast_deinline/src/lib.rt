//! Fields of a module without inline parts (WebAssembly Core Specification 3.0, 6.6: abbreviations).
//!
//! [`deinline_import_export::run`] writes fields out: what stands inline in a definition becomes fields of their own.
//!
//! ```text
//! (memory (export "m") (data "ab"))
//! ```
//!
//! is written out as
//!
//! ```text
//! (memory $gensym 1 1) (export "m" (memory $gensym)) (data (memory $gensym) (i32.const 0) "ab")
//! ```
//!
//! where `$gensym` is a name that was made, and differs from all that are written in the text, and from those that the same counter made before.
//!
//! # What has to be believed
//!
//! | File of `specs/` | Says |
//! |---|---|
//! | `Definitions` | of which fields nothing stands inline (`stands_alone`); the rest of it serves private contracts |
//! | `Laws` | the statements of the law functions |
//!
//! The rest is in `wast_meaning`: `Written` says what fields are written out as, `Made` which names are made, and `Fresh` when names are fresh.
//!
//! The laws: the names that are made are fresh, where none of the fields' has been made later ([`laws::fresh_names`]); what is written
//! out is written out as itself ([`laws::written_again`]).
#![tactic(auto)]

mod definition;
pub mod deinline_import_export;
pub mod laws;
mod sizes;
mod split;

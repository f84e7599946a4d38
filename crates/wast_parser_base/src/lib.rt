//! What the calls of a parser of the text format hand out (WebAssembly Core Specification 3.0, chapter 6), with no parser.
//!
//! [`Error`] says what is wrong with a text, and where; given the text, it shows the place as [`push_place`] does. [`Id`] and
//! [`Index`] are names and indices as they are written: equal ones hash alike, wherever they stand. [`Gensym`] makes names where
//! none was written.
//!
//! ```
//! let mut error = Error::new(Span::from_offset(1), String::from_str(alloc, "expected `(`")?);
//! error.set_text("\t(")?;
//! ```
//!
//! is displayed as
//!
//! ```text
//! expected `(`
//!      --> <anon>:1:2
//!       |
//!     1 |     (
//!       |     ^
//! ```
//!
//! The laws: identifiers are equal exactly where their names are and their generations ([`laws::equal_identifiers`]); made
//! names differ from each other and from each that was read ([`laws::made_names_differ`]).
#![tactic(auto)]

mod error;
mod gensym;
mod id;
mod index;
pub mod laws;
mod reason;
mod snippet;

pub use error::Error;
pub use gensym::{Exhausted, Gensym};
pub use id::Id;
pub use index::{Index, ItemRef, NameAnnotation};
pub use reason::lexical_text;
pub use snippet::push_place;

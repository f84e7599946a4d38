//! The types of a module that no field writes and that uses imply (WebAssembly Core Specification 3.0, 6.5, control instructions, and 6.6,
//! type uses), and which type each use without an index takes.
//!
//! A use that has no index takes the first plain type with its signature: a final function type without a supertype and outside groups.
//! Where there is none, one is added behind all written types. Names of parameters are no part of a signature, and its indices are the
//! same where they are written alike: the same number, or the same identifier. The use of a block without parameters and with at most
//! one result needs no type.
//!
//! [`Implied::of`] gathers the types of a module's fields; [`Implied::types`] are those to add, in order, each at the place of the field
//! that uses it first; [`Implied::number_of`] tells which type a use takes. Fields are only borrowed. Signatures are kept in order, so
//! that n of them cost n log n whatever they are. [`word_code`] is what an abstract heap type is there. [`is_short`] tells which signature
//! needs no type as a block's, and [`copied_types`] copies the types of a list.
//!
//! # What has to be believed
//!
//! | File of `specs/` | Says |
//! |---|---|
//! | `Shapes` | signatures without places and names of parameters |
//! | `Views` | what is known of the types that an [`Implied`] holds |
//! | `Known` | the same, and what types and uses add to it |
//!
//! Which types are implied, and which type a use takes, is said by `wast_meaning`'s file `Implied`.
#![tactic(auto)]

mod fields;
mod gathered;
mod key;
mod uses;

pub use gathered::{Implied, ImpliedType, copied_types, is_short};
pub use key::word_code;

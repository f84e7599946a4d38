//! What the names of a module must keep to (WebAssembly Core Specification 3.0, 6.1.3, 6.5, and 6.6, type uses and modules).
//!
//! [`ordered_spaces`] and [`check_mentions`] refuse the first demand of the fields of a module that isn't met, one behind the other in this order:
//!
//! 1. imports stand before definitions of functions, tables, memories, globals and tags;
//! 2. no item bears the name of an earlier one of its index space, segments aside, and no field that of an earlier one of its structure;
//! 3. in the order of the text, each name that is mentioned means something, each signature beside the index of a type is that type's,
//!    and each name that is repeated behind a block is that block's; that no two parameters or locals of a function bear one name is asked
//!    behind the types of its locals.
//!
//! ```text
//! (func (call $f)) (import "m" "f" (func))
//! ```
//!
//! is an error at the word `import`, and without it one at `$f`: `` unknown func: failed to find name `$f` ``. Fields are only borrowed.
//! [`ordered_spaces`] asks 1 and 2, and answers the index spaces; [`check_mentions`] asks 3, where these and the types that uses imply
//! are at hand.
//!
//! The parts: `wast_spaces`, index spaces; `wast_implied`, the types that uses imply; `wast_scopes`, what is known at a place; `wast_parts`,
//! the walk over fields.
//!
//! # What has to be believed
//!
//! The demands are those of `wast_meaning`'s file `Demands`, and how they are told those of `wast_names`' file `Demand`.
#![tactic(auto)]

mod names;

pub use names::{check_mentions, ordered_spaces};

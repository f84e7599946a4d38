//! What is known at a place of a module's code, and the test of what is mentioned there (WebAssembly Core Specification 3.0, 6.1.3, 6.5,
//! and 6.6, type uses and functions).
//!
//! A [`Scope`] knows the index spaces of a module, its function types ([`Signatures`]), and in a function the locals; a [`Place`] knows in
//! addition the [`Labels`] of the blocks that are open. Whether what is mentioned at a place is so says [`check_mention`] outside
//! expressions, [`check_constant`] of a constant expression, and [`check_func`] of a function: a name means something, a signature is that
//! of the type that stands beside it, and a name behind `end` or `else` is that of the block. A fault tells of the first that isn't so.
//!
//! ```text
//! (func (block $a) (br $a))
//! ```
//!
//! is an error at the second `$a`: `` unknown label: failed to find name `$a` ``. `(type $t (func)) (func (type $t) (param i32))` is one at
//! the second `$t`: `inline function type doesn't match type reference`; and `(func block $a end $b)` one at `$b`:
//! `mismatching labels between end and block`.
//!
//! Nothing is looked for one by one: a look-up of a label takes the time of one in an ordered map, at any depth of blocks.
//!
//! # What has to be believed
//!
//! | File of `specs/` | Says |
//! |---|---|
//! | `Known` | what is known, seen by look-ups, and what is demanded by it |
//! | `Numbered` | signatures as numbered, and which are the same |
//! | `Open` | blocks that are open, and the levels of their names |
//! | `Signatures`, `NumberedViews`, `Views` | what is known by a [`Scope`] and a [`Place`] |
//! | `Laws` | the laws below |
//!
//! The laws tie them to the definitions of `wast_meaning`'s files `Scope` and `Demands`: what is demanded by what a scope tells is what is
//! demanded in the scope ([`laws::told`]), and what is known outside functions is what the scope of a module tells ([`laws::module`]).
#![tactic(auto)]

mod block;
mod body;
mod labels;
pub mod laws;
mod numbered;
mod place;
mod scope;
mod signatures;

pub use body::{check_constant, check_func, check_mention};
pub use labels::Labels;
pub use place::Place;
pub use scope::Scope;
pub use signatures::Signatures;

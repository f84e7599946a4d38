//! Trees rewritten in their place: what becomes of each index, wherever one stands; nothing else of them changes.
//!
//! [`Changing`] says what becomes of an index, and each `change_` function puts that in the place of the indices of a tree: of types, type
//! uses, operands, instructions ([`change_instruction`]), imports ([`change_imports`]). [`Each`] and [`TryEach`] say what becomes of an
//! item of a list, [`turn_list`] and [`try_turn_list`] make it of all. Only a type use without an index may want memory, for the index that
//! it takes, so want of memory is the only refusal; a tree for which it was wanted may be changed in part.
//!
//! [`Rewriting`] says what becomes of whole fields, by what becomes of an index outside of expressions, and of constant expressions and bodies,
//! whose instructions keep their recorded places: `wast_changed_fields` rewrites fields by it, whose trees (`field_tree`) don't have these
//! places, so of whole fields they aren't promised.
//!
//! # What has to be believed
//!
//! The trees with other indices are those of `Changed` of `wast_meaning`. `Memory` says what may want memory, and `Rewritten` which
//! changes a [`Rewriting`] of whole fields makes and what an expression is changed to. `Instructions`, which have a type use, and `Rows`, what
//! the table says stands after a word, serve private contracts.
#![tactic(auto)]

mod bulk;
mod changing;
mod gc;
mod imports;
mod instruction;
mod list;
mod operands;
mod proposal;
mod rewriting;
mod typed_operands;
mod types;
mod value_types;
mod vector_arg;

pub use changing::{Changing, change_optional};
pub use imports::change_imports;
pub use instruction::change_instruction;
pub use list::{ByChange, Each, TryEach, change_indices, try_turn_list, turn_list};
pub use rewriting::Rewriting;
pub use types::{change_rec, change_type_item, change_type_use};
pub use value_types::{change_global_type, change_ref_type, change_table_type, change_val_type};

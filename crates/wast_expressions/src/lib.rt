//! Expressions, folded and flat (WebAssembly Core Specification 3.0, 6.5), over any set of instructions.
//!
//! An instruction type says by [`Operation`] which tokens spell it, which group it heads, and what would go on with it, and by
//! [`ParseOperation`] that it is read so. Over it [`parse_items`] reads items up to an
//! end, [`parse_folded_instruction`] an instruction behind its operands, [`parse_plain`] the same, where the word of a block opens nothing, and
//! [`parse_offset`] the offset of data. What they answer are [`Instructions`]: in the order in which they are carried out, with an `end` for each
//! block and an `else` for each second arm, and the hints by the indices of the instructions that bear them. All are read by loops with a stack of
//! their own, so no depth of groups is too deep; [`parse_counted`] counts the turns.
//!
//! Hints are shown only where the annotation `metadata.code.branch_hint` is registered.
//!
//! # What has to be believed
//!
//! | File of `specs/` | Says |
//! |---|---|
//! | `Items` | items as they are written, and the instructions that they unfold to, with their hints |
//! | `Expressions` | which tokens spell hints, groups, items, expressions, plain groups and offsets |
//! | `Heeds` | what is asked of a syntax of instructions, beside its law |
//! | `Views` | what the grammar sees of the types of the code |
//! | `Laws` | the statements of the law functions |
//!
//! `Machine` and `Partial` serve private contracts, but that `Machine` says what a turn is that [`parse_counted`] counts, and `hint_tree` of
//! `Partial` which hint a [`BranchHint`] is.
#![tactic(auto)]

mod data;
mod expression;
mod hint;
pub mod laws;
mod look;
mod offset;
mod operation;
mod stack;
mod steps;
mod token;
mod turn;

pub use data::parse_offset;
pub use expression::{parse_counted, parse_items};
pub use hint::BranchHint;
pub use offset::{parse_folded_instruction, parse_plain};
pub use operation::{GroupKind, MadeKind, Operation, Origin, ParseOperation};
pub use stack::Instructions;
pub use steps::Steps;

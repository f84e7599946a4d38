//! What the fields of a module mean before they are encoded (WebAssembly Core Specification 3.0, 6.1.3, 6.5 and 6.6): the
//! definitions that resolving names rests on. Of code there is [`Space`] alone.
//!
//! All of it but `Made` and what a module is refused with is over names of any type with a test, and over places of any type. Names are
//! compared by the test alone, and places not at all. Names that are made up come from a function that is given: the name for the field
//! at a position.
//!
//! Demands and complaints, the places of names, index spaces, and what an index means in one, are those of `wast_names`.
//!
//! # What has to be believed
//!
//! In this order:
//!
//! | File of `specs/` | Says |
//! |---|---|
//! | `Written` | fields without inline parts |
//! | `Mentions` | what each tree says of names, in the order in which it is looked up |
//! | `Spaces` | the items of fields, what they are called in complaints, and which number a name means |
//! | `Implied` | the types that uses without an index take, and those that they imply |
//! | `Scope` | what is known at a place; labels, locals |
//! | `Demands` | what names must keep to, in order |
//! | `WellFormed` | what trees must keep to beside names |
//! | `Changed`, `Numbered` | fields whose uses have their types and whose indices are numbers |
//! | `Settled` | fields that resolving leaves as they are, where nothing stands inline |
//! | `Made` | the names that are made up |
//! | `Fresh` | when names that are made up are fresh |
//! | `Modules` | the fields of whole modules, and their breaches |
//! | `Views` | which index space a [`Space`] is |
//!
//! `proofs/Examples` has worked examples, a few for each rule, and `proofs/Operands` one for each kind of row of operands with indices.
//! `proofs/Words` has short words for the trees of these examples. The other files of `proofs/` have lemmas for the code that meets these
//! definitions:
//!
//! | File of `proofs/` | Says |
//! |---|---|
//! | `Again` | what is written out is written out as itself |
//! | `Counter` | fields written out one after the other, with a counter for the fresh names |
//! | `Walked` | the index spaces that are reached behind all items tell the numbers of names |
//! | `Taken` | the types that uses take and imply, one use after the other |
//! | `Labels` | labels as a stack |
//! | `Hints` | hints are the same told one after the other |
//! | `Settled`, `SettledFields`, `Resolved` | settled fields without inline parts are resolved to themselves |
#![tactic(auto)]

mod space;

pub use space::Space;

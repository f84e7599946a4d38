//! What trees of modules mean (WebAssembly Core Specification 3.0, 6.6): the abstract module that a tree stands for, whose binary `wasm_layout`
//! lays out, and which forms have no binary. It has definitions and laws, and no code.
//!
//! # What has to be believed
//!
//! | File of `specs/` | Says |
//! |---|---|
//! | `FieldsMeant` | fields as items of sections |
//! | `NamesMeant` | identifiers and annotations as name maps, and branch hints |
//! | `CustomsMeant` | custom fields as custom sections, and where these stand |
//! | `Covered` | the forms of fields that have no binary, and the first of a module |
//! | `Meaning` | the module that fields stand for, and what they have to keep to |
//! | `Binary` | names as bytes |
//! | `Means`, `Plain` | the names that are made for fields that have none, what a text is worth, and of which texts the binary is read as the module meant |
//! | `Laws` | the statement of the law function, and what follows where texts spell one tree at most |
//! | `ExampleTrees`, `Examples`, `InstructionExamples`, `SegmentExamples` | trees and binaries by hand |
//!
//! What types, operands and instructions stand for, and which forms in them have no binary, is said by `wast_conversions`' files `Types`, `Operands`,
//! `Instructions` and `Covered`. The rest is in `wast_meaning`: `Written` says what fields are written out as, `Numbered` which types uses take and
//! which numbers indices become, `Demands` what is demanded of names, `WellFormed` what beside names. The lemmas of `proofs/OneMeaning` are for laws
//! of whole texts.
#![tactic(auto)]

pub mod laws;

//! The name section of a module whose fields are resolved (WebAssembly Core Specification 3.0, appendix, Name Section).
//!
//! [`name_section`] gathers the names that identifiers and annotations give: of the module; of functions, types, tables, memories, globals,
//! element segments, data segments and tags; of locals and labels by function, of fields and parameters by type, and of parameters by tag.
//! So the section of
//!
//! ```text
//! (module $m (func $f (param $x i32) (block $b)))
//! ```
//!
//! says that the module is called `m`, function 0 `f`, and in it local 0 `x` and label 0 `b`. An annotation `@name` counts before an identifier,
//! and a name that was made for a field is none. A module in which nothing has a name has no section.
//!
//! # What has to be believed
//!
//! | File of `specs/` | Says |
//! |---|---|
//! | `Maps` | which maps a module has, and the data of their section |
//! | `Fits` | when they can be written |
//!
//! Which names stand in which map is said by `wast_meant`'s file `NamesMeant`, and how they are written by `wasm_layout`'s file `Layout`. The
//! other files of `specs/` serve private contracts: `Given`, `Gathered` and `Locals` say which names are gathered, `Numbered`, `Listed` and
//! `Subsections` how they are numbered and encoded, `Kinds` what contracts see of the code's types.
#![tactic(auto)]

mod given;
mod groups;
mod inner_map;
mod inside;
mod items;
mod kinds;
mod labels;
mod locals;
mod names;
mod number;
mod params;
mod section;
mod subsections;
mod types;

pub use section::name_section;

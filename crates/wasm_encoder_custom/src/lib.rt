//! Custom sections of a module: names, producers, linking, core dumps, branch hints, and those whose data is given
//! (WebAssembly Core Specification 3.0, 5.5.3 and the appendix on custom sections; the tool conventions of WebAssembly).
//!
//! A section is built by calls that add to it. Each answers `Added`, which holds the section for a further call. It refuses
//! with `EncodeError::TooLarge` exactly where, memory found, a count or length in what is added, or, where the section has a count, the number
//! of what was added, is past 4294967295, and with `EncodeError::Memory` where a growth found no memory; refused, the section is
//! unchanged. `encode` appends what follows the section's number 0: the size, the name and the data; of a [`RawCustomSection`] the bytes
//! that were given.
//!
//! ```
//! let mut names = NameMap::new(alloc);
//! names.append(0, "f")?;
//! let mut section = NameSection::new(alloc);
//! section.functions(&names)?;
//! section.encode(&mut bytes)?; // 0b 04 6e 61 6d 65 01 04 01 00 01 66
//! ```
//!
//! The order of sections and subsections, rising indices, distinct names, the values of hints, the flags of symbols, and bytes that
//! are given raw are left to the caller.
//! That what is added is told apart by its bytes, save in a linking section and by [`NameSection::raw`], and that the
//! constants of [`SymbolTable`] are the flags of the tool conventions, is proved in [`laws`].
#![tactic(auto)]

mod branch_hints;
mod custom;
mod dump;
pub mod laws;
mod linking;
mod name_map;
mod names;
mod producers;
mod symbols;

pub use branch_hints::{BranchHint, BranchHints};
pub use custom::{CustomSection, RawCustomSection};
pub use dump::{
    CoreDumpInstancesSection, CoreDumpModulesSection, CoreDumpSection, CoreDumpStackSection,
    CoreDumpValue,
};
pub use linking::LinkingSection;
pub use name_map::{IndirectNameMap, NameMap};
pub use names::NameSection;
pub use producers::{ProducersField, ProducersSection};
pub use symbols::{DataSymbolDefinition, SymbolTable};
pub use wasm_encoder_base::Added;

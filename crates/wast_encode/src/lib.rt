//! Modules as binaries (WebAssembly Core Specification 3.0, 6.6 and chapter 5).
//!
//! [`EncodeOptions::encode_module`] makes the binary of a module: its names are resolved first, what stands inline is written out, and its
//! fields are encoded section by section, with the custom sections between them at their places, branch hints, and the section of names.
//! So of
//!
//! ```text
//! (module (func $f))
//! ```
//!
//! it makes `00 61 73 6d 01 00 00 00  01 04 01 60 00 00  03 02 01 00  0a 04 01 02 00 0b  00 0b 04 6e 61 6d 65 01 04 01 00 01 66`.
//!
//! The crate hands on what it stands on: the resolving of names, the conversions of types, instructions and operands to the encoder's, and
//! what stands in sections; and laws of branch hints, name maps and renaming ([`laws`]).
//!
//! A conversion asks of its tree that each index is a number, that each use of a type has its index, but that of a block without
//! parameters and with at most one result, and that no form stands in it that has no binary here. What makes lists is refused only for
//! want of memory, but for [`const_expr`]: it asks for alignments that are powers of two below 65536 as well, and refuses a count past
//! 4294967295 too.
//!
//! # What has to be believed
//!
//! | File of `specs/` | Says |
//! |---|---|
//! | `Encoded` | what encoding a tree answers, and what it leaves of the tree |
//!
//! Which module a tree stands for is said by `Meaning` of `wast_meant`, which bytes are its binary by `Lays` of `wasm_layout`, and what a
//! tree is resolved to by `Whole` of `wast_resolve`. The other files of `specs/` serve private contracts: `Faults` says what contracts see
//! of errors, and `Resolved` what is known of modules that are resolved.
#![tactic(auto)]

mod fault;
pub mod laws;
mod options;

pub use fault::EncodeFault;
pub use options::EncodeOptions;
pub use wast_conversions::{
    array_fill, array_type, block_type, catch, const_expr, entity_type, export_kind, field_type,
    func_type, global_type, heap_type, index, instruction, lane_arg, mem_arg, memory_arg,
    memory_type, ordering, ref_type, shuffle, storage_type, struct_type, sub_type, table_arg,
    table_type, v128_const, val_type,
};
pub use wast_resolve::{
    Names, Namespace, Ns, ResolveModule, deinline_import_export, names, resolve, resolve_error,
    types,
};
pub use wast_section_items::{FuncBody, SectionItem};
pub use wast_uncovered::uncovered;

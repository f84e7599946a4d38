//! The encoder of WebAssembly modules (WebAssembly Core Specification 3.0, chapter 5): a [`Module`], its sections, and what
//! they hold. It hands on what its users need of the crates that it stands on.
//!
//! Most sections are lists of items, built by calls that append one. Each answers `Added`, which holds the section for a
//! further call; those of `CoreTypeEncoder` answer nothing. Such a call refuses with `EncodeError::TooLarge` exactly where,
//! memory found, a count or length in the item, or, where the section has a count, the number of the items, is past 4294967295, and with
//! `EncodeError::Memory` where a growth found no memory; refused, the section is unchanged. `encode` appends what follows
//! the section's number: the size, the count where there is one, and the items; of a [`RawCustomSection`] the bytes that were given. It and
//! `Module::section` refuse a section of which that size is past 4294967295 as too large. `len`, `is_empty`, `byte_len` and `finish` take no memory.
//!
//! A module that exports the function `f`, which adds two numbers (the program `first_module` writes it):
//!
//! ```
//! let mut types = TypeSection::new(alloc);
//! types.ty().function(&[ValType::I32, ValType::I32], &[ValType::I32])?;
//! let mut functions = FunctionSection::new(alloc);
//! functions.function(0)?;
//! let mut exports = ExportSection::new(alloc);
//! exports.export("f", ExportKind::Func, 0)?;
//! let mut body = Function::new(alloc, &[])?;
//! body.instructions().local_get(0)?.local_get(1)?.i32_add()?.end()?;
//! let mut codes = CodeSection::new(alloc);
//! codes.function(&body)?;
//! let mut module = Module::new(alloc)?;
//! module.section(&types)?;
//! module.section(&functions)?;
//! module.section(&exports)?;
//! module.section(&codes)?;
//! module.finish()
//! // 00 61 73 6d 01 00 00 00  01 07 01 60 02 7f 7f 01 7f  03 02 01 00  07 05 01 01 66 00 00
//! // 0a 09 01 07 00 20 00 20 01 6a 0b
//! ```
//!
//! The order of sections, that each stands once, the ranges of indices and the validity of a module are left to the
//! caller. That what a section of a kind holds (of a custom section, its name and its data) is told apart by its bytes,
//! where no item is given as bytes and each expression in the items closes the blocks that it opens and no other, is
//! proved in [`laws`].
#![tactic(auto)]

pub mod laws;
mod module;

pub use module::Module;
pub use wasm_encoder_base::{
    AbstractHeapType, Added, ArrayType, Bytes, CompositeType, Encode, EncodeError, FieldType,
    FuncType, HeapType, Ieee32, Ieee64, Items, OwnedItems, RefType, Section, SectionId,
    StorageType, StructType, SubType, ValType, encoding_size, read_s33, read_u32,
};
pub use wasm_encoder_code::{
    AccessOp, AtomicOp, AtomicRmwOp, BlockType, BulkOp, Catch, CompareOp, ConstExpr, ConvertOp,
    Function, GcOp, Handle, Instruction, InstructionSink, Lane, MemArg, MemArgOrdering,
    MemArgTarget, NumericOp, Ordering, VectorArgOp, VectorFloatOp, VectorNarrowOp, VectorOp,
    VectorWideOp,
};
pub use wasm_encoder_custom::{
    BranchHint, BranchHints, CoreDumpInstancesSection, CoreDumpModulesSection, CoreDumpSection,
    CoreDumpStackSection, CoreDumpValue, CustomSection, DataSymbolDefinition, IndirectNameMap,
    LinkingSection, NameMap, NameSection, ProducersField, ProducersSection, RawCustomSection,
    SymbolTable,
};
pub use wasm_encoder_items::{
    DataSegment, DataSegmentMode, ElementMode, ElementSegment, Elements, EntityType, ExportKind,
    GlobalType, Import, ImportCompact, Imports, MemoryType, TableType, TagKind, TagType,
};
pub use wasm_encoder_sections::{
    CodeSection, CoreTypeEncoder, DataCountSection, DataSection, ElementSection, ExportSection,
    FunctionSection, GlobalSection, ImportSection, MemorySection, StartSection, TableSection,
    TagSection, TypeSection,
};

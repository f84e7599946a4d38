//! Whole modules.

use crate::calls::Calls;
use crate::entities::{GLOBAL, MEMORY, TABLE_OF_ONE, TAG};
use crate::print_row;
use row_page::Page;
use std::alloc::Global;
use std::borrow::CowStr;
use wasm_encoder::{
    Bytes, CodeSection, ConstExpr, CustomSection, DataCountSection, DataSection, ElementSection,
    Elements, EncodeError, EntityType, ExportKind, ExportSection, FunctionSection, GlobalSection,
    ImportSection, Items, MemorySection, Module, Section, StartSection, TableSection, TagSection,
    TypeSection,
};

pub fn print_rows(page: &Page) {
    print_row(page, "no sections", no_sections(page.alloc()));
    print_row(page, "every section", every_section(page.alloc()));
}

fn no_sections(alloc: Global) -> Result<Vec<u8>, EncodeError> {
    let module = Module::new(alloc)?;
    Ok(module.finish())
}

/// A module with each kind of section, in their order.
fn every_section(alloc: Global) -> Result<Vec<u8>, EncodeError> {
    match ConstExpr::i32_const(alloc, 0) {
        Ok(zero) => every_section_with(alloc, &zero),
        Err(error) => Err(error),
    }
}

/// Globals and segments hold this value.
fn every_section_with(alloc: Global, zero: &ConstExpr) -> Result<Vec<u8>, EncodeError> {
    let mut module = Module::new(alloc)?;
    let mut calls = Calls::new();
    add_types(alloc, &mut module, &mut calls);
    add_imports(alloc, &mut module, &mut calls);
    add_functions(alloc, &mut module, &mut calls);
    add_tables(alloc, &mut module, &mut calls);
    add_memories(alloc, &mut module, &mut calls);
    add_tags(alloc, &mut module, &mut calls);
    add_globals(alloc, &mut module, &mut calls, zero);
    add_exports(alloc, &mut module, &mut calls);
    add_elements(alloc, &mut module, &mut calls, zero);
    add_code(alloc, &mut module, &mut calls);
    add_data(alloc, &mut module, &mut calls, zero);
    add_custom(&mut module, &mut calls);
    calls.note_copy(module.clone());
    calls.with(module.finish())
}

/// Adds a section.
fn add<S: Section + Drop>(module: &mut Module, calls: &mut Calls, section: S)
    requires { S.Encode.can_encode section }
{
    calls.note(module.section(&section));
}

fn add_types(alloc: Global, module: &mut Module, calls: &mut Calls) {
    let mut section = TypeSection::new(alloc);
    calls.note(section.ty().function(&[], &[]));
    add(module, calls, section);
}

fn add_imports(alloc: Global, module: &mut Module, calls: &mut Calls) {
    let mut section = ImportSection::new(alloc);
    calls.note(section.import("m", "f", EntityType::Function(0)));
    add(module, calls, section);
}

fn add_functions(alloc: Global, module: &mut Module, calls: &mut Calls) {
    let mut section = FunctionSection::new(alloc);
    calls.note(section.function(0));
    add(module, calls, section);
}

fn add_tables(alloc: Global, module: &mut Module, calls: &mut Calls) {
    let mut section = TableSection::new(alloc);
    calls.note(section.table(TABLE_OF_ONE));
    add(module, calls, section);
}

fn add_memories(alloc: Global, module: &mut Module, calls: &mut Calls) {
    let mut section = MemorySection::new(alloc);
    calls.note(section.memory(MEMORY));
    add(module, calls, section);
}

fn add_tags(alloc: Global, module: &mut Module, calls: &mut Calls) {
    let mut section = TagSection::new(alloc);
    calls.note(section.tag(TAG));
    add(module, calls, section);
}

fn add_globals(alloc: Global, module: &mut Module, calls: &mut Calls, zero: &ConstExpr) {
    let mut section = GlobalSection::new(alloc);
    calls.note(section.global(GLOBAL, zero));
    add(module, calls, section);
}

/// Behind exports stands the start function.
fn add_exports(alloc: Global, module: &mut Module, calls: &mut Calls) {
    let mut section = ExportSection::new(alloc);
    calls.note(section.export("g", ExportKind::Func, 1));
    add(module, calls, section);
    add(module, calls, StartSection { function_index: 1 });
}

/// Behind element segments stands the count of data segments.
fn add_elements(alloc: Global, module: &mut Module, calls: &mut Calls, zero: &ConstExpr) {
    let mut section = ElementSection::new(alloc);
    let functions = Elements::Functions(Items::borrowed(&[1]));
    calls.note(section.active(None, zero, functions));
    add(module, calls, section);
    add(module, calls, DataCountSection { count: 1 });
}

fn add_code(alloc: Global, module: &mut Module, calls: &mut Calls) {
    let mut section = CodeSection::new(alloc);
    calls.note(section.raw(&[0x00, 0x0B]));
    add(module, calls, section);
}

fn add_data(alloc: Global, module: &mut Module, calls: &mut Calls, zero: &ConstExpr) {
    let mut section = DataSection::new(alloc);
    calls.note(section.active(0, zero, b"a"));
    add(module, calls, section);
}

fn add_custom(module: &mut Module, calls: &mut Calls) {
    let section = CustomSection {
        name: CowStr::Borrowed("x"),
        bytes: Bytes::borrowed(&[]),
    };
    add(module, calls, section);
}

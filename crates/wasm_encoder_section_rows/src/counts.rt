//! How many items sections have, and how many bytes a module.

use crate::calls::Calls;
use crate::print_number;
use row_page::Page;
use std::alloc::Global;
use wasm_encoder::{
    DataCountSection, EncodeError, EntityType, FunctionSection, ImportSection, Imports, Items,
    Module, StartSection,
};
use wasm_encoder_custom::{BranchHints, CoreDumpInstancesSection, CoreDumpModulesSection};

pub fn print_rows(page: &Page) {
    let alloc = page.alloc();
    print_number(page, "functions counted", functions(alloc));
    print_number(page, "imports counted", imports(alloc));
    print_number(page, "modules counted", modules(alloc));
    print_number(page, "instances counted", instances(alloc));
    print_number(page, "functions with hints counted", hints(alloc));
    writeln!(page, "no hints: {}", no_hints(alloc));
    print_number(
        page,
        "bytes of a module with two sections",
        module_length(alloc),
    );
}

fn functions(alloc: Global) -> Result<usize, EncodeError> {
    let mut calls = Calls::new();
    let mut section = FunctionSection::new(alloc);
    calls.note(section.function(0));
    calls.note(section.function(1));
    calls.with(section.len() as usize)
}

/// A group is one.
fn imports(alloc: Global) -> Result<usize, EncodeError> {
    let mut calls = Calls::new();
    let mut section = ImportSection::new(alloc);
    calls.note(section.imports(Imports::Compact2 {
        module: "m",
        ty: EntityType::Function(0),
        names: Items::borrowed(&["a"]),
    }));
    calls.with(section.len() as usize)
}

fn modules(alloc: Global) -> Result<usize, EncodeError> {
    let mut calls = Calls::new();
    let mut section = CoreDumpModulesSection::new(alloc);
    calls.note(section.module("a"));
    calls.with(section.len() as usize)
}

fn instances(alloc: Global) -> Result<usize, EncodeError> {
    let mut calls = Calls::new();
    let mut section = CoreDumpInstancesSection::new(alloc);
    calls.note(section.instance(0, &[], &[]));
    calls.with(section.len() as usize)
}

fn hints(alloc: Global) -> Result<usize, EncodeError> {
    let mut calls = Calls::new();
    let mut section = BranchHints::new(alloc);
    calls.note(section.function_hints(0, &[]));
    calls.with(section.len() as usize)
}

fn no_hints(alloc: Global) -> bool {
    BranchHints::new(alloc).is_empty()
}

fn module_length(alloc: Global) -> Result<usize, EncodeError> {
    let mut module = Module::new(alloc)?;
    add_sections(&mut module)?;
    Ok(module.finish().len())
}

fn add_sections(module: &mut Module) -> Result<(), EncodeError> {
    module
        .section(&StartSection { function_index: 0 })?
        .target
        .section(&DataCountSection { count: 0 })?;
    Ok(())
}

//! Imports, groups of them, and exports.

use crate::calls::Calls;
use crate::entities::{GLOBAL, MEMORY, TABLE_OF_ONE, TAG};
use crate::print_row;
use row_page::Page;
use std::alloc::{AllocError, Global};
use wasm_encoder::{
    EncodeError, EntityType, ExportKind, ExportSection, GlobalType, Import, ImportCompact,
    ImportSection, Imports, Items, MemoryType, TagType,
};

pub fn print_rows(page: &Page) {
    let alloc = page.alloc();
    print_row(page, "imports", imports(alloc));
    print_row(page, "imports of a module", group(alloc));
    print_row(page, "imports of a type", typed_group(alloc));
    print_row(page, "exports", exports(alloc));
}

fn imports(alloc: Global) -> Result<Vec<u8>, EncodeError> {
    let mut calls = Calls::new();
    let mut section = ImportSection::new(alloc);
    add_imports(&mut section, &mut calls);
    calls.note_copy(section.clone());
    calls.encoded(alloc, section)
}

/// One of each kind.
fn add_imports(section: &mut ImportSection, calls: &mut Calls) {
    add_import(section, calls, "f", EntityType::Function(0));
    add_import(section, calls, "t", TABLE_OF_ONE);
    add_import(section, calls, "e", BOUNDED_MEMORY);
    add_import(section, calls, "g", VARIABLE);
    add_import(section, calls, "x", TAG_OF_SECOND_TYPE);
}

fn add_import<T: Into<EntityType>>(
    section: &mut ImportSection,
    calls: &mut Calls,
    name: &str,
    ty: T,
) {
    calls.note(section.import("m", name, ty));
}

const BOUNDED_MEMORY: MemoryType = MemoryType {
    maximum: Some(2),
    ..MEMORY
};

const VARIABLE: GlobalType = GlobalType {
    mutable: true,
    ..GLOBAL
};

const TAG_OF_SECOND_TYPE: TagType = TagType {
    func_type_idx: 1,
    ..TAG
};

/// Of a list that is borrowed; one that is owned is copied, and an import alone.
fn group(alloc: Global) -> Result<Vec<u8>, EncodeError> {
    let mut calls = Calls::new();
    let mut section = ImportSection::new(alloc);
    add_group(&mut section, &mut calls, compact(Items::borrowed(ITEMS)));
    note_copy_of_owned(&mut calls, owned_items(alloc));
    note_copy_of(&mut calls, &Imports::Single(FUNCTION));
    calls.encoded(alloc, section)
}

const ITEM: ImportCompact<'static> = ImportCompact {
    name: "a",
    ty: EntityType::Function(0),
};

const ITEMS: &[ImportCompact<'static>] = &[
    ITEM,
    ImportCompact {
        name: "b",
        ty: EntityType::Global(GLOBAL),
    },
];

fn add_group(section: &mut ImportSection, calls: &mut Calls, imports: Imports<'static>) {
    calls.note(section.imports(imports));
}

fn compact(items: Items<'static, ImportCompact<'static>>) -> Imports<'static> {
    Imports::Compact1 { module: "m", items }
}

fn owned_items(alloc: Global) -> Result<Vec<ImportCompact<'static>>, AllocError> {
    Ok(Vec::from_array(alloc, [ITEM])?)
}

/// Copies a group that owns its list.
fn note_copy_of_owned(calls: &mut Calls, items: Result<Vec<ImportCompact<'static>>, AllocError>) {
    match items {
        Ok(items) => note_copy_of(calls, &compact(Items::owned(items))),
        Err(error) => calls.note_copy::<()>(Err(error)),
    }
}

fn note_copy_of(calls: &mut Calls, imports: &Imports<'static>) {
    calls.note_copy(imports.clone());
}

const FUNCTION: Import<'static> = Import {
    module: "m",
    name: "f",
    ty: EntityType::Function(0),
};

fn typed_group(alloc: Global) -> Result<Vec<u8>, EncodeError> {
    let mut calls = Calls::new();
    let mut section = ImportSection::new(alloc);
    add_group(&mut section, &mut calls, typed(&["a", "b"]));
    add_group(&mut section, &mut calls, Imports::Single(FUNCTION));
    calls.encoded(alloc, section)
}

fn typed(names: &'static [&'static str]) -> Imports<'static> {
    Imports::Compact2 {
        module: "m",
        ty: GLOBAL.into(),
        names: Items::borrowed(names),
    }
}

fn exports(alloc: Global) -> Result<Vec<u8>, EncodeError> {
    let mut calls = Calls::new();
    let mut section = ExportSection::new(alloc);
    for (name, kind, index) in EXPORTS {
        calls.note(section.export(name, *kind, *index));
    }
    calls.note_copy(section.clone());
    calls.encoded(alloc, section)
}

const EXPORTS: &[(&str, ExportKind, u32)] = &[
    ("f", ExportKind::Func, 0),
    ("t", ExportKind::Table, 1),
    ("m", ExportKind::Memory, 2),
    ("g", ExportKind::Global, 3),
    ("x", ExportKind::Tag, 4),
];

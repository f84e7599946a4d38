//! Functions, tables, memories, tags and globals.

use crate::calls::Calls;
use crate::print_row;
use row_page::Page;
use std::alloc::Global;
use wasm_encoder::{
    AbstractHeapType, ConstExpr, EncodeError, FunctionSection, GlobalSection, GlobalType, HeapType,
    Ieee32, Ieee64, MemorySection, MemoryType, RefType, TableSection, TableType, TagKind,
    TagSection, TagType, ValType,
};

pub fn print_rows(page: &Page) {
    let alloc = page.alloc();
    print_row(page, "functions", functions(alloc));
    print_row(page, "tables", tables(alloc));
    print_row(page, "memories", memories(alloc));
    print_row(page, "tags", tags(alloc));
    print_row(page, "globals", globals(alloc));
}

fn functions(alloc: Global) -> Result<Vec<u8>, EncodeError> {
    let mut calls = Calls::new();
    let mut section = FunctionSection::new(alloc);
    calls.note(section.function(0));
    calls.note(section.function(128));
    calls.note_copy(section.clone());
    calls.encoded(alloc, section)
}

/// A table of 32-bit indices that isn't shared.
const TABLE: TableType = TableType {
    element_type: RefType::FUNCREF,
    table64: false,
    minimum: 0,
    maximum: None,
    shared: false,
};

/// The last but one has 64-bit indices.
const TABLES: &[TableType] = &[
    TABLE,
    TableType {
        element_type: RefType::EXTERNREF,
        minimum: 1,
        maximum: Some(2),
        ..TABLE
    },
    TableType {
        element_type: RefType {
            nullable: true,
            heap_type: HeapType::Abstract(AbstractHeapType::Any),
        },
        table64: true,
        ..TABLE
    },
    TableType {
        maximum: Some(5),
        shared: true,
        ..TABLE
    },
];

pub const TABLE_OF_ONE: TableType = TableType {
    minimum: 1,
    ..TABLE
};

/// A table of references that aren't null.
const FUNCTIONS: TableType = TableType {
    element_type: RefType {
        nullable: false,
        heap_type: HeapType::Abstract(AbstractHeapType::Func),
    },
    ..TABLE_OF_ONE
};

fn tables(alloc: Global) -> Result<Vec<u8>, EncodeError> {
    match ConstExpr::ref_func(alloc, 0) {
        Ok(init) => tables_with(alloc, &init),
        Err(error) => Err(error),
    }
}

/// The last has this initial value.
fn tables_with(alloc: Global, init: &ConstExpr) -> Result<Vec<u8>, EncodeError> {
    let mut calls = Calls::new();
    let mut section = TableSection::new(alloc);
    for table in TABLES {
        calls.note(section.table(*table));
    }
    calls.note(section.table_with_init(FUNCTIONS, init));
    calls.note_copy(init.clone());
    calls.note_copy(section.clone());
    calls.encoded(alloc, section)
}

/// A memory of 32-bit addresses.
pub const MEMORY: MemoryType = MemoryType {
    minimum: 1,
    maximum: None,
    memory64: false,
    shared: false,
    page_size_log2: None,
};

/// Each flag of limits.
const MEMORIES: &[MemoryType] = &[
    MEMORY,
    MemoryType {
        maximum: Some(256),
        ..MEMORY
    },
    MemoryType {
        maximum: Some(2),
        shared: true,
        ..MEMORY
    },
    MemoryType {
        minimum: 0,
        memory64: true,
        ..MEMORY
    },
    MemoryType {
        maximum: Some(2),
        memory64: true,
        ..MEMORY
    },
    MemoryType {
        page_size_log2: Some(0),
        ..MEMORY
    },
    MemoryType {
        maximum: Some(2),
        page_size_log2: Some(16),
        ..MEMORY
    },
];

fn memories(alloc: Global) -> Result<Vec<u8>, EncodeError> {
    let mut calls = Calls::new();
    let mut section = MemorySection::new(alloc);
    for memory in MEMORIES {
        calls.note(section.memory(*memory));
    }
    calls.note_copy(section.clone());
    calls.encoded(alloc, section)
}

fn tags(alloc: Global) -> Result<Vec<u8>, EncodeError> {
    let mut calls = Calls::new();
    let mut section = TagSection::new(alloc);
    calls.note(section.tag(TAG));
    calls.note(section.tag(TagType {
        func_type_idx: 3,
        ..TAG
    }));
    calls.note_copy(section.clone());
    calls.encoded(alloc, section)
}

/// A tag of the type 0.
pub const TAG: TagType = TagType {
    kind: TagKind::Exception,
    func_type_idx: 0,
};

/// One for each pair of flags, and one that is encoded already.
fn globals(alloc: Global) -> Result<Vec<u8>, EncodeError> {
    let mut calls = Calls::new();
    let mut section = GlobalSection::new(alloc);
    for global in GLOBALS {
        add_global(
            &mut section,
            &mut calls,
            *global,
            value(alloc, global.val_type),
        );
    }
    calls.note(section.raw(&[0x7F, 0x00, 0x23, 0x00, 0x0B]));
    calls.note_copy(section.clone());
    calls.encoded(alloc, section)
}

/// Of 32 bits, and not to be set.
pub const GLOBAL: GlobalType = GlobalType {
    val_type: ValType::I32,
    mutable: false,
    shared: false,
};

const GLOBALS: &[GlobalType] = &[
    GLOBAL,
    GlobalType {
        val_type: ValType::I64,
        mutable: true,
        ..GLOBAL
    },
    GlobalType {
        val_type: ValType::F32,
        shared: true,
        ..GLOBAL
    },
    GlobalType {
        val_type: ValType::F64,
        mutable: true,
        shared: true,
    },
];

/// A value of a type of numbers.
fn value(alloc: Global, ty: ValType) -> Result<ConstExpr, EncodeError> {
    match ty {
        ValType::I32 => ConstExpr::i32_const(alloc, 42),
        ValType::I64 => ConstExpr::i64_const(alloc, -1),
        ValType::F32 => ConstExpr::f32_const(alloc, Ieee32::new(0x3F80_0000)),
        _ => ConstExpr::f64_const(alloc, Ieee64::new(0x3FF0_0000_0000_0000)),
    }
}

fn add_global(
    section: &mut GlobalSection,
    calls: &mut Calls,
    global_type: GlobalType,
    value: Result<ConstExpr, EncodeError>,
) {
    match value {
        Ok(value) => calls.note(section.global(global_type, &value)),
        Err(error) => calls.note::<()>(Err(error)),
    }
}

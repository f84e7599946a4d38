//! Types, sections, errors, and operands that no instruction has yet.

use crate::row::{print_value, print_values};
use row_page::Page;
use std::alloc::{AllocError, Global};
use wasm_encoder_base::{
    AbstractHeapType, ArrayType, CompositeType, EncodeError, FieldType, FuncType, HeapType,
    OwnedItems, RefType, SectionId, StorageType, StructType, SubType, ValType,
};
use wasm_encoder_code::{Handle, MemArgOrdering, Ordering};

/// All of them.
pub fn print(page: &Page) {
    print_values(page, ABSTRACT_HEAP_TYPES);
    print_values(page, HEAP_TYPES);
    print_values(page, REFERENCE_TYPES);
    print_arrays(page);
    print_composite_types(page);
    print_sub_types(page);
    print_sections(page);
    print_errors(page);
    print_values(page, ORDERINGS);
    print_values(page, MEMARG_ORDERINGS);
    print_values(page, HANDLES);
}

const ABSTRACT_HEAP_TYPES: &[AbstractHeapType] = &[
    AbstractHeapType::Func,
    AbstractHeapType::Extern,
    AbstractHeapType::Any,
    AbstractHeapType::Eq,
    AbstractHeapType::I31,
    AbstractHeapType::Struct,
    AbstractHeapType::Array,
    AbstractHeapType::Exn,
    AbstractHeapType::NoFunc,
    AbstractHeapType::NoExtern,
    AbstractHeapType::None,
    AbstractHeapType::NoExn,
];

const HEAP_TYPES: &[HeapType] = &[
    HeapType::Abstract(AbstractHeapType::Any),
    HeapType::Concrete(5),
    HeapType::Concrete(64),
];

/// The short forms last.
const REFERENCE_TYPES: &[RefType] = &[
    RefType {
        nullable: true,
        heap_type: HeapType::Concrete(5),
    },
    RefType {
        nullable: false,
        heap_type: HeapType::Concrete(5),
    },
    RefType {
        nullable: false,
        heap_type: HeapType::Concrete(64),
    },
    RefType {
        nullable: false,
        heap_type: HeapType::Abstract(AbstractHeapType::Any),
    },
    RefType::FUNCREF,
    RefType::EXTERNREF,
    RefType::EXNREF,
];

fn print_arrays(page: &Page) {
    for element_type in ELEMENTS {
        print_value(
            page,
            &ArrayType(FieldType {
                element_type: *element_type,
                mutable: true,
            }),
        );
    }
}

const ELEMENTS: &[StorageType] = &[
    StorageType::I8,
    StorageType::I16,
    StorageType::Val(ValType::I32),
    StorageType::Val(ValType::I64),
    StorageType::Val(ValType::F32),
    StorageType::Val(ValType::F64),
    StorageType::Val(ValType::V128),
    StorageType::Val(ValType::Ref(RefType::FUNCREF)),
];

fn print_composite_types(page: &Page) {
    print_composite_type(
        page,
        function(page.alloc(), &[ValType::I32, ValType::I64], &[ValType::F32]),
    );
    print_composite_type(page, function(page.alloc(), &[], &[]));
    print_composite_type(page, structure(page.alloc()));
}

fn print_composite_type(page: &Page, made: Result<CompositeType, AllocError>) {
    match made {
        Ok(composite_type) => print_value(page, &composite_type),
        Err(error) => page.fail(error),
    }
}

fn function(
    alloc: Global,
    params: &[ValType],
    results: &[ValType],
) -> Result<CompositeType, AllocError> {
    match FuncType::new(alloc, params, results) {
        Ok(func_type) => Ok(CompositeType::Func(func_type)),
        Err(error) => Err(error),
    }
}

/// A structure of one field that can't be set.
fn structure(alloc: Global) -> Result<CompositeType, AllocError> {
    let field = FieldType {
        element_type: StorageType::Val(ValType::I32),
        mutable: false,
    };
    match Vec::from_slice(alloc, &[field]) {
        Ok(fields) => Ok(CompositeType::Struct(StructType {
            fields: OwnedItems::new(fields),
        })),
        Err(error) => Err(error),
    }
}

fn print_sub_types(page: &Page) {
    print_sub_type(page, true, None);
    print_sub_type(page, true, Some(5));
    print_sub_type(page, false, Some(5));
    print_sub_type(page, false, None);
}

fn print_sub_type(page: &Page, is_final: bool, supertype_idx: Option<u32>) {
    match structure(page.alloc()) {
        Ok(composite_type) => print_value(
            page,
            &SubType {
                is_final,
                supertype_idx,
                composite_type,
            },
        ),
        Err(error) => page.fail(error),
    }
}

fn print_sections(page: &Page) {
    for section in SECTIONS {
        writeln!(page, "{section:?} {:02x}", u8::from(*section));
    }
}

const SECTIONS: &[SectionId] = &[
    SectionId::Custom,
    SectionId::TypeItem,
    SectionId::Import,
    SectionId::Function,
    SectionId::Table,
    SectionId::Memory,
    SectionId::Global,
    SectionId::Export,
    SectionId::Start,
    SectionId::Element,
    SectionId::Code,
    SectionId::Data,
    SectionId::DataCount,
    SectionId::Tag,
];

fn print_errors(page: &Page) {
    for error in [EncodeError::Memory, EncodeError::TooLarge] {
        writeln!(page, "{error:?} {}: {error}", error as u8);
    }
}

const ORDERINGS: &[Ordering] = &[Ordering::SeqCst, Ordering::AcqRel];

const MEMARG_ORDERINGS: &[MemArgOrdering] = &[
    MemArgOrdering::Op(Ordering::SeqCst),
    MemArgOrdering::Op(Ordering::AcqRel),
    MemArgOrdering::Rmw(Ordering::SeqCst),
    MemArgOrdering::Rmw(Ordering::AcqRel),
];

const HANDLES: &[Handle] = &[
    Handle::OnLabel { tag: 1, label: 2 },
    Handle::OnSwitch { tag: 3 },
];

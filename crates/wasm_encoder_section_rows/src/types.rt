//! Types.

use crate::calls::Calls;
use crate::print_row;
use row_page::Page;
use std::alloc::Global;
use wasm_encoder::{
    ArrayType, CompositeType, EncodeError, FieldType, FuncType, OwnedItems, StorageType,
    StructType, SubType, TypeSection, ValType,
};

pub fn print_rows(page: &Page) {
    print_row(page, "types", types(page.alloc()));
    print_row(page, "types and groups", groups(page.alloc()));
}

fn types(alloc: Global) -> Result<Vec<u8>, EncodeError> {
    match FuncType::new(alloc, &[ValType::F32], &[]) {
        Ok(func_type) => types_with(alloc, &func_type),
        Err(error) => Err(EncodeError::from(error)),
    }
}

/// The second is this one.
fn types_with(alloc: Global, func_type: &FuncType) -> Result<Vec<u8>, EncodeError> {
    let mut calls = Calls::new();
    let mut section = TypeSection::new(alloc);
    calls.note(section.ty().function(&[ValType::I32], &[ValType::I64]));
    calls.note(section.ty().func_type(func_type));
    calls.note(section.ty().array(&StorageType::I8, true));
    calls.note(section.ty().struct_(FIELDS));
    calls.note_copy(section.clone());
    calls.encoded(alloc, section)
}

const FIELDS: &[FieldType] = &[
    FieldType {
        element_type: StorageType::I16,
        mutable: false,
    },
    FieldType {
        element_type: StorageType::Val(ValType::F64),
        mutable: true,
    },
];

/// A type below another, a final one, and a group of two.
fn groups(alloc: Global) -> Result<Vec<u8>, EncodeError> {
    let mut calls = Calls::new();
    let mut section = TypeSection::new(alloc);
    add_type(&mut section, &mut calls, Ok(structure(alloc)));
    add_type(&mut section, &mut calls, function_type(alloc, true));
    add_group(&mut section, &mut calls, function_type(alloc, false));
    calls.encoded(alloc, section)
}

/// A structure without fields, below the type 3.
fn structure(alloc: Global) -> SubType {
    SubType {
        is_final: false,
        supertype_idx: Some(3),
        composite_type: CompositeType::Struct(StructType {
            fields: OwnedItems::new(Vec::new(alloc)),
        }),
    }
}

/// The type of functions without parameters and results.
fn function_type(alloc: Global, is_final: bool) -> Result<SubType, EncodeError> {
    Ok(SubType {
        is_final,
        supertype_idx: None,
        composite_type: CompositeType::Func(FuncType::new(alloc, &[], &[])?),
    })
}

/// A final array type below the type 0.
fn array_type() -> SubType {
    SubType {
        is_final: true,
        supertype_idx: Some(0),
        composite_type: CompositeType::Array(ArrayType(ELEMENT)),
    }
}

const ELEMENT: FieldType = FieldType {
    element_type: StorageType::Val(ValType::I32),
    mutable: false,
};

/// A type by itself, which is copied too.
fn add_type(section: &mut TypeSection, calls: &mut Calls, made: Result<SubType, EncodeError>) {
    match made {
        Ok(sub_type) => {
            calls.note(section.ty().subtype(&sub_type));
            calls.note_copy(sub_type.clone());
        }
        Err(error) => calls.note::<()>(Err(error)),
    }
}

/// An array type and this type in a group.
fn add_group(section: &mut TypeSection, calls: &mut Calls, made: Result<SubType, EncodeError>) {
    match made {
        Ok(sub_type) => calls.note(section.ty().rec(&[array_type(), sub_type])),
        Err(error) => calls.note::<()>(Err(error)),
    }
}

//! Element and data segments.

use crate::calls::Calls;
use crate::print_row;
use row_page::Page;
use std::alloc::Global;
use std::slice;
use wasm_encoder::{
    AbstractHeapType, ConstExpr, DataSection, DataSegment, DataSegmentMode, ElementMode,
    ElementSection, ElementSegment, Elements, EncodeError, HeapType, Items, RefType,
};

pub fn print_rows(page: &Page) {
    let alloc = page.alloc();
    print_row(page, "segments of functions", of_functions(alloc));
    print_row(page, "segments of values", of_values(alloc));
    print_row(page, "data segments", data(alloc));
}

fn of_functions(alloc: Global) -> Result<Vec<u8>, EncodeError> {
    match ConstExpr::i32_const(alloc, 0) {
        Ok(zero) => of_functions_at(alloc, &zero),
        Err(error) => Err(error),
    }
}

fn functions(list: &[u32]) -> Elements<'_> {
    Elements::Functions(Items::borrowed(list))
}

/// The active ones have this offset.
fn of_functions_at(alloc: Global, zero: &ConstExpr) -> Result<Vec<u8>, EncodeError> {
    let mut calls = Calls::new();
    let mut section = ElementSection::new(alloc);
    add_functions(&mut section, &mut calls, zero);
    note_copy_of_elements(&mut calls, &functions(&[3]));
    calls.encoded(alloc, section)
}

fn add_functions(section: &mut ElementSection, calls: &mut Calls, zero: &ConstExpr) {
    add_active(section, calls, None, zero, functions(&[0, 1]));
    add_passive(section, calls, functions(&[1]));
    calls.note(section.segment(in_a_table(zero)));
    add_declared(section, calls, functions(&[3]));
}

fn in_a_table(offset: &ConstExpr) -> ElementSegment<'_> {
    ElementSegment {
        mode: ElementMode::Active {
            table: Some(0),
            offset,
        },
        elements: functions(&[2]),
    }
}

fn note_copy_of_elements(calls: &mut Calls, elements: &Elements<'_>) {
    calls.note_copy(elements.clone());
}

fn add_active(
    section: &mut ElementSection,
    calls: &mut Calls,
    table: Option<u32>,
    offset: &ConstExpr,
    elements: Elements<'_>,
) {
    calls.note(section.active(table, offset, elements));
}

fn add_passive(section: &mut ElementSection, calls: &mut Calls, elements: Elements<'_>) {
    calls.note(section.passive(elements));
}

fn add_declared(section: &mut ElementSection, calls: &mut Calls, elements: Elements<'_>) {
    calls.note(section.declared(elements));
}

/// An offset, and values of elements.
#[derive(Drop)]
struct Values {
    zero: ConstExpr,
    function: ConstExpr,
    null: ConstExpr,
    declared: ConstExpr,
}

fn made_values(alloc: Global) -> Result<Values, EncodeError> {
    Ok(Values {
        zero: ConstExpr::i32_const(alloc, 0)?,
        function: ConstExpr::ref_func(alloc, 0)?,
        null: ConstExpr::ref_null(alloc, HeapType::Abstract(AbstractHeapType::Extern))?,
        declared: ConstExpr::ref_func(alloc, 5)?,
    })
}

fn of_values(alloc: Global) -> Result<Vec<u8>, EncodeError> {
    match made_values(alloc) {
        Ok(values) => of_these_values(alloc, &values),
        Err(error) => Err(error),
    }
}

/// Active segments without a table are of `funcref` or not.
fn of_these_values(alloc: Global, values: &Values) -> Result<Vec<u8>, EncodeError> {
    let mut calls = Calls::new();
    let mut section = ElementSection::new(alloc);
    add_values(&mut section, &mut calls, values);
    note_copy_of_owned(&mut calls, owned_values(alloc));
    calls.note_copy(section.clone());
    calls.encoded(alloc, section)
}

fn add_values(section: &mut ElementSection, calls: &mut Calls, values: &Values) {
    let zero = &values.zero;
    add_active(
        section,
        calls,
        None,
        zero,
        one(RefType::FUNCREF, &values.function),
    );
    add_passive(section, calls, one(RefType::EXTERNREF, &values.null));
    add_active(section, calls, Some(1), zero, none(RefType::FUNCREF));
    add_active(
        section,
        calls,
        None,
        zero,
        one(RefType::EXTERNREF, &values.null),
    );
    add_declared(section, calls, one(RefType::FUNCREF, &values.declared));
    calls.note(section.raw(&[0x01, 0x00, 0x00]));
}

fn one<'a>(ty: RefType, value: &'a ConstExpr) -> Elements<'a> {
    Elements::Expressions(ty, Items::borrowed(slice::from_ref(value)))
}

fn none(ty: RefType) -> Elements<'static> {
    Elements::Expressions(ty, Items::borrowed(&[]))
}

fn owned_values(alloc: Global) -> Result<Vec<ConstExpr>, EncodeError> {
    let mut values = Vec::new(alloc);
    values.push(ConstExpr::ref_func(alloc, 0)?)?;
    Ok(values)
}

/// Copies a segment that owns its values.
fn note_copy_of_owned(calls: &mut Calls, values: Result<Vec<ConstExpr>, EncodeError>) {
    match values {
        Ok(values) => note_copy_of(calls, &declared(values)),
        Err(error) => calls.note::<()>(Err(error)),
    }
}

fn note_copy_of(calls: &mut Calls, segment: &ElementSegment<'_>) {
    calls.note_copy(segment.clone());
}

fn declared(values: Vec<ConstExpr>) -> ElementSegment<'static> {
    ElementSegment {
        mode: ElementMode::Declared,
        elements: Elements::Expressions(RefType::FUNCREF, Items::owned(values)),
    }
}

fn data(alloc: Global) -> Result<Vec<u8>, EncodeError> {
    match ConstExpr::i32_const(alloc, 0) {
        Ok(zero) => data_at(alloc, &zero),
        Err(error) => Err(error),
    }
}

/// The active ones have this offset.
fn data_at(alloc: Global, zero: &ConstExpr) -> Result<Vec<u8>, EncodeError> {
    let mut calls = Calls::new();
    let mut section = DataSection::new(alloc);
    calls.note(section.active(0, zero, b"ab"));
    calls.note(section.passive(b"c"));
    calls.note(section.segment(in_second_memory(zero)));
    calls.note(section.raw(&[0x01, 0x00]));
    calls.note_copy(section.clone());
    calls.encoded(alloc, section)
}

fn in_second_memory(offset: &ConstExpr) -> DataSegment<'_> {
    DataSegment {
        mode: DataSegmentMode::Active {
            memory_index: 1,
            offset,
        },
        bytes: b"d",
    }
}

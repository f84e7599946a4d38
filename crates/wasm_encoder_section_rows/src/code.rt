//! Bodies, the start function and the count of data segments.

use crate::calls::Calls;
use crate::{encoded, print_number, print_row};
use row_page::Page;
use std::alloc::Global;
use wasm_encoder::{CodeSection, DataCountSection, EncodeError, Function, StartSection};

pub fn print_rows(page: &Page) {
    let alloc = page.alloc();
    print_row(page, "code", code(alloc));
    print_number(page, "bytes of a raw body", raw_length(alloc));
    let start = StartSection {
        function_index: 128,
    };
    print_row(page, "start", encoded(alloc, &start));
    print_row(
        page,
        "data count",
        encoded(alloc, &DataCountSection { count: 3 }),
    );
    print_row(page, "a raw instruction", raw_instruction(alloc));
}

fn code(alloc: Global) -> Result<Vec<u8>, EncodeError> {
    match body(alloc) {
        Ok(function) => code_of(alloc, &function),
        Err(error) => Err(error),
    }
}

fn body(alloc: Global) -> Result<Function, EncodeError> {
    let mut function = Function::new(alloc, &[])?;
    let mut calls = Calls::new();
    calls.note(function.instructions().nop());
    calls.note(function.instructions().end());
    calls.with(function)
}

/// This body, and a raw one.
fn code_of(alloc: Global, function: &Function) -> Result<Vec<u8>, EncodeError> {
    let mut calls = Calls::new();
    let mut section = CodeSection::new(alloc);
    calls.note(section.function(function));
    calls.note(section.raw(&[0x00, 0x0B]));
    calls.note_copy(function.clone());
    calls.note_copy(section.clone());
    calls.encoded(alloc, section)
}

/// How many bytes a section has after a raw body of two.
fn raw_length(alloc: Global) -> Result<usize, EncodeError> {
    let mut calls = Calls::new();
    let mut section = CodeSection::new(alloc);
    calls.note(section.raw(&[0x00, 0x0B]));
    calls.with(section.byte_len())
}

/// The bytes of a body without locals, behind which `nop` was added as a byte.
fn raw_instruction(alloc: Global) -> Result<Vec<u8>, EncodeError> {
    let mut function = Function::new(alloc, &[])?;
    let mut calls = Calls::new();
    calls.note(function.raw(&[0x01]));
    calls.with(function.into_raw_body())
}

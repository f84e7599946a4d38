//! Core dumps.

use crate::calls::Calls;
use crate::print_row;
use row_page::Page;
use std::alloc::Global;
use wasm_encoder_base::{EncodeError, Ieee32, Ieee64};
use wasm_encoder_custom::{
    CoreDumpInstancesSection, CoreDumpModulesSection, CoreDumpSection, CoreDumpStackSection,
    CoreDumpValue, CustomSection,
};

pub fn print_rows(page: &Page) {
    let alloc = page.alloc();
    print_row(page, "process", process(alloc));
    print_row(page, "modules", modules(alloc, false));
    print_row(page, "modules as custom", modules(alloc, true));
    print_row(page, "instances", instances(alloc, false));
    print_row(page, "instances as custom", instances(alloc, true));
    print_row(page, "stack", stack(alloc));
    print_row(page, "stack as custom", stack_as_custom(alloc));
    print_row(page, "values", values(alloc));
}

/// The custom section that a section is made.
fn encoded_custom(
    alloc: Global,
    custom: Result<CustomSection<'static>, EncodeError>,
) -> Result<Vec<u8>, EncodeError> {
    match custom {
        Ok(section) => Calls::new().encoded(alloc, section),
        Err(error) => Err(error),
    }
}

fn process(alloc: Global) -> Result<Vec<u8>, EncodeError> {
    let mut calls = Calls::new();
    match CoreDumpSection::new(alloc, "test") {
        Ok(section) => {
            calls.note_copy(section.clone());
            calls.encoded(alloc, section)
        }
        Err(error) => Err(EncodeError::from(error)),
    }
}

fn modules(alloc: Global, as_custom: bool) -> Result<Vec<u8>, EncodeError> {
    let mut calls = Calls::new();
    let mut section = CoreDumpModulesSection::new(alloc);
    calls.note(section.module("mod1"));
    calls.note(section.module("mod2"));
    if as_custom {
        encoded_custom(alloc, section.as_custom())
    } else {
        calls.encoded(alloc, section)
    }
}

fn instances(alloc: Global, as_custom: bool) -> Result<Vec<u8>, EncodeError> {
    let mut calls = Calls::new();
    let mut section = CoreDumpInstancesSection::new(alloc);
    calls.note(section.instance(0, &[42], &[17]));
    if as_custom {
        encoded_custom(alloc, section.as_custom())
    } else {
        calls.encoded(alloc, section)
    }
}

/// A stack with a frame of one local and one operand.
fn one_frame(
    alloc: Global,
    local: CoreDumpValue,
    operand: CoreDumpValue,
) -> Result<CoreDumpStackSection, EncodeError> {
    let mut section = CoreDumpStackSection::new(alloc, "main")?;
    section.frame(0, 42, 51, &[local], &[operand])?;
    Ok(section)
}

fn encoded_stack(
    alloc: Global,
    stack: Result<CoreDumpStackSection, EncodeError>,
) -> Result<Vec<u8>, EncodeError> {
    let mut calls = Calls::new();
    match stack {
        Ok(section) => {
            calls.note_copy(section.clone());
            calls.encoded(alloc, section)
        }
        Err(error) => Err(error),
    }
}

fn stack(alloc: Global) -> Result<Vec<u8>, EncodeError> {
    encoded_stack(
        alloc,
        one_frame(alloc, CoreDumpValue::I32(1), CoreDumpValue::I32(2)),
    )
}

fn stack_as_custom(alloc: Global) -> Result<Vec<u8>, EncodeError> {
    match one_frame(alloc, CoreDumpValue::Missing, CoreDumpValue::I64(-65)) {
        Ok(section) => encoded_custom(alloc, section.as_custom()),
        Err(error) => Err(error),
    }
}

/// A stack whose local and operand are the float 1, of 32 and of 64 bits; each is copied too.
fn values(alloc: Global) -> Result<Vec<u8>, EncodeError> {
    let single = CoreDumpValue::F32(Ieee32::new(0x3F80_0000)).clone()?;
    let double = CoreDumpValue::F64(Ieee64::new(0x3FF0_0000_0000_0000)).clone()?;
    encoded_stack(alloc, one_frame(alloc, single, double))
}

//! Producers, linking, branch hints.

use crate::calls::Calls;
use crate::{print_bytes, print_row};
use row_page::Page;
use std::alloc::Global;
use wasm_encoder_base::EncodeError;
use wasm_encoder_custom::{
    BranchHint, BranchHints, DataSymbolDefinition, LinkingSection, ProducersField,
    ProducersSection, SymbolTable,
};

pub fn print_rows(page: &Page) {
    let alloc = page.alloc();
    print_row(page, "producers", producers(alloc));
    print_row(page, "linking", linking(alloc));
    print_row(page, "symbols", symbols(alloc));
    print_row(page, "architecture", architecture(alloc));
    print_row(page, "hints", hints(alloc));
    page.put("flags of symbols");
    print_bytes(page, &FLAGS);
}

/// The flags of symbols.
const FLAGS: [u8; 7] = [
    SymbolTable::WASM_SYM_BINDING_WEAK as u8,
    SymbolTable::WASM_SYM_BINDING_LOCAL as u8,
    SymbolTable::WASM_SYM_VISIBILITY_HIDDEN as u8,
    SymbolTable::WASM_SYM_UNDEFINED as u8,
    SymbolTable::WASM_SYM_EXPORTED as u8,
    SymbolTable::WASM_SYM_EXPLICIT_NAME as u8,
    SymbolTable::WASM_SYM_NO_STRIP as u8,
];

fn producers(alloc: Global) -> Result<Vec<u8>, EncodeError> {
    let mut calls = Calls::new();
    let mut field = ProducersField::new(alloc);
    calls.note(field.value("clang", "14.0.4"));
    calls.note(field.value("rustc", "1.66.1"));
    calls.note_copy(field.clone());
    produced(alloc, calls, &field)
}

/// A section with this field.
fn produced(
    alloc: Global,
    mut calls: Calls,
    field: &ProducersField,
) -> Result<Vec<u8>, EncodeError> {
    let mut section = ProducersSection::new(alloc);
    calls.note(section.field("processed-by", field));
    calls.note_copy(section.clone());
    calls.encoded(alloc, section)
}

fn linking(alloc: Global) -> Result<Vec<u8>, EncodeError> {
    let mut calls = Calls::new();
    let mut symbols = SymbolTable::new(alloc);
    calls.note(symbols.function(0x22, 42, Some("my_exported_func")));
    linked(alloc, calls, &symbols)
}

fn symbols(alloc: Global) -> Result<Vec<u8>, EncodeError> {
    let mut calls = Calls::new();
    let mut symbols = SymbolTable::new(alloc);
    add_symbols(&mut symbols, &mut calls);
    calls.note_copy(symbols.clone());
    linked(alloc, calls, &symbols)
}

/// A function, a global and a table, and data that is defined here and that isn't.
fn add_symbols(symbols: &mut SymbolTable, calls: &mut Calls) {
    calls.note(symbols.data(1, "d", Some(PLACE)));
    calls.note(symbols.data(16, "u", None));
    calls.note(symbols.function(16, 1, None));
    calls.note(symbols.global(0, 200, Some("g")));
    calls.note(symbols.table(128, 3, Some("t")));
}

const PLACE: DataSymbolDefinition = DataSymbolDefinition {
    index: 4,
    offset: 5,
    size: 6,
};

/// A section with these symbols.
fn linked(alloc: Global, mut calls: Calls, symbols: &SymbolTable) -> Result<Vec<u8>, EncodeError> {
    match LinkingSection::new(alloc) {
        Ok(mut section) => {
            calls.note(section.symbol_table(symbols));
            calls.encoded(alloc, section)
        }
        Err(error) => Err(EncodeError::from(error)),
    }
}

fn architecture(alloc: Global) -> Result<Vec<u8>, EncodeError> {
    match LinkingSection::new(alloc) {
        Ok(mut section) => {
            let mut calls = Calls::new();
            calls.note(section.target_arch("wasm32"));
            calls.note_copy(section.clone());
            calls.encoded(alloc, section)
        }
        Err(error) => Err(EncodeError::from(error)),
    }
}

fn hints(alloc: Global) -> Result<Vec<u8>, EncodeError> {
    let mut calls = Calls::new();
    let mut section = BranchHints::new(alloc);
    let hint = BranchHint {
        branch_func_offset: 3,
        branch_hint_value: 1,
    };
    calls.note(section.function_hints(0, &[hint]));
    calls.encoded(alloc, section)
}

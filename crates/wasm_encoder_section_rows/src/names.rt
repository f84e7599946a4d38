//! Custom sections as they are given, and name sections.

use crate::calls::Calls;
use crate::print_row;
use row_page::Page;
use std::alloc::Global;
use std::borrow::CowStr;
use wasm_encoder_base::{Bytes, EncodeError};
use wasm_encoder_custom::{CustomSection, IndirectNameMap, NameMap, NameSection, RawCustomSection};

pub fn print_rows(page: &Page) {
    let alloc = page.alloc();
    print_row(page, "custom", custom(alloc));
    print_row(page, "raw custom", raw_custom(alloc));
    print_row(page, "function names", function_names(alloc));
    print_row(page, "names by an index", names_by_an_index(alloc));
    print_row(page, "names by two indices", names_by_two_indices(alloc));
    print_row(page, "raw subsection", raw_subsection(alloc));
}

fn custom(alloc: Global) -> Result<Vec<u8>, EncodeError> {
    let section = CustomSection {
        name: CowStr::Borrowed("test"),
        bytes: Bytes::borrowed(&[11, 22, 33, 44]),
    };
    let mut calls = Calls::new();
    calls.note_copy(section.clone());
    calls.encoded(alloc, section)
}

fn raw_custom(alloc: Global) -> Result<Vec<u8>, EncodeError> {
    let section = RawCustomSection(&[3, 1, 0x61, 7]);
    let mut calls = Calls::new();
    calls.note_copy(section.clone());
    calls.encoded(alloc, section)
}

fn function_names(alloc: Global) -> Result<Vec<u8>, EncodeError> {
    let mut calls = Calls::new();
    let mut names = NameMap::new(alloc);
    calls.note(names.append(0, "f"));
    let mut section = NameSection::new(alloc);
    calls.note(section.functions(&names));
    calls.encoded(alloc, section)
}

fn names_by_an_index(alloc: Global) -> Result<Vec<u8>, EncodeError> {
    let mut calls = Calls::new();
    let mut names = NameMap::new(alloc);
    calls.note(names.append(0, "a"));
    calls.note_copy(names.clone());
    let mut section = NameSection::new(alloc);
    add_names(&mut section, &mut calls, &names);
    add_more_names(&mut section, &mut calls, &names);
    calls.encoded(alloc, section.as_custom())
}

/// The name `m` of the module, and these names of functions, types, tables and memories.
fn add_names(section: &mut NameSection, calls: &mut Calls, names: &NameMap) {
    calls.note(section.module("m"));
    calls.note(section.functions(names));
    calls.note(section.types(names));
    calls.note(section.tables(names));
    calls.note(section.memories(names));
}

/// These names of globals, segments and tags.
fn add_more_names(section: &mut NameSection, calls: &mut Calls, names: &NameMap) {
    calls.note(section.globals(names));
    calls.note(section.elements(names));
    calls.note(section.data(names));
    calls.note(section.tag(names));
    calls.note(section.tags(names));
}

fn names_by_two_indices(alloc: Global) -> Result<Vec<u8>, EncodeError> {
    match two_names(alloc) {
        Ok(names) => with_inner_names(alloc, &names),
        Err(error) => Err(error),
    }
}

fn two_names(alloc: Global) -> Result<NameMap, EncodeError> {
    let mut calls = Calls::new();
    let mut names = NameMap::new(alloc);
    calls.note(names.append(0, "p"));
    calls.note(names.append(1, "q"));
    calls.with(names)
}

/// These names by the first index 2.
fn with_inner_names(alloc: Global, names: &NameMap) -> Result<Vec<u8>, EncodeError> {
    let mut calls = Calls::new();
    let mut inner_names = IndirectNameMap::new(alloc);
    calls.note(inner_names.append(2, names));
    let mut section = NameSection::new(alloc);
    add_inner_names(&mut section, &mut calls, &inner_names);
    calls.note_copy(inner_names.clone());
    calls.note_copy(section.clone());
    calls.encoded(alloc, section)
}

/// These names wherever two indices give a name.
fn add_inner_names(section: &mut NameSection, calls: &mut Calls, names: &IndirectNameMap) {
    calls.note(section.locals(names));
    calls.note(section.labels(names));
    calls.note(section.fields(names));
    calls.note(section.parameters(names));
    calls.note(section.tag_parameters(names));
}

fn raw_subsection(alloc: Global) -> Result<Vec<u8>, EncodeError> {
    let mut calls = Calls::new();
    let mut section = NameSection::new(alloc);
    calls.note(section.raw(20, &[1, 2, 3]));
    calls.encoded(alloc, section)
}

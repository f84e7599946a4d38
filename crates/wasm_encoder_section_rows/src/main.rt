//! Modules and sections, custom ones too, that are built by calls: the name of each row, and its bytes in hexadecimal. Then how
//! many items sections have, and the bytes of each call that adds an instruction.
//!
//! What can be copied is copied too; where a copy or another call finds no memory, its row says so in place of the bytes.
#![tactic(auto)]

mod calls;
mod code;
mod counts;
mod dump;
mod entities;
mod imports;
mod instructions;
mod names;
mod segments;
mod tools;
mod types;
mod whole;

use row_page::Page;
use std::alloc::Global;
use std::io;
use wasm_encoder::{Encode, EncodeError, Section};

fn main(rt: HostRuntime) -> io::Result<()> {
    let page = Page::new(rt);
    whole::print_rows(&page);
    types::print_rows(&page);
    imports::print_rows(&page);
    entities::print_rows(&page);
    segments::print_rows(&page);
    code::print_rows(&page);
    names::print_rows(&page);
    tools::print_rows(&page);
    dump::print_rows(&page);
    counts::print_rows(&page);
    instructions::print_rows(&page);
    page.outcome()
}

/// Prints a row: its name, then the bytes, or why there are none.
fn print_row(page: &Page, name: &str, bytes: Result<Vec<u8>, EncodeError>) {
    page.put(name);
    match bytes {
        Ok(bytes) => print_bytes(page, bytes.as_slice()),
        Err(error) => writeln!(page, ": {error}"),
    }
}

fn print_bytes(page: &Page, bytes: &[u8]) {
    page.put(":");
    page.put_bytes(bytes);
    page.put("\n");
}

/// Prints a row: its name, then the number, or why there is none.
fn print_number(page: &Page, name: &str, number: Result<usize, EncodeError>) {
    page.put(name);
    match number {
        Ok(number) => writeln!(page, ": {number}"),
        Err(error) => writeln!(page, ": {error}"),
    }
}

/// The number of the section, and what follows it.
fn encoded<S: Section>(alloc: Global, section: &S) -> Result<Vec<u8>, EncodeError>
    requires { S.Encode.can_encode section.now }
{
    let mut bytes = Vec::new(alloc);
    (section.id(), section).encode(&mut bytes)?;
    Ok(bytes)
}

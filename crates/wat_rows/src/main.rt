//! Rows: texts, and what becomes of each.
//!
//! Each line of standard input is a row, in which `~` and two hexadecimal digits stand for a byte. Printed are the row and
//!
//! - of a text, its binary in hexadecimal, or the fault in one line;
//! - of `spelled: TEXT`, whether the text is spelled, whatever else is wrong with it;
//! - of `rendered: TEXT`, the fault as the program tells it;
//! - of `pair: TEXT ~~ TEXT`, whether their binaries are equal, or equal without name sections, or the faults;
//! - of `at N: TEXT`, a fault at the byte N of this text, told so;
//! - of `faults:`, each fault but that of spelling, in one line, and as it is told without its place;
//! - of a line that begins with `#` nothing: it names what the rows below it are of.
#![tactic(auto)]

mod pairs;

use row_page::Page;
use std::alloc::{AllocError, Global};
use std::io;
use wat::{Error, Fault, Span, assemble, render};

fn main(rt: HostRuntime) -> io::Result<()> {
    Page::new(rt).answer_lines(answer)
}

/// Prints a row, and what becomes of it.
fn answer(page: &Page, row: &str) {
    page.put_line(row);
    if row == "faults:" {
        print_faults(page);
    } else if !row.starts_with("#") {
        answer_of(page, row);
    }
}

/// Prints what becomes of a row with texts.
fn answer_of(page: &Page, row: &str) {
    if let Some((first, second)) = parts_of(row, "pair: ", " ~~ ") {
        pairs::print_pair(page, first, second);
    } else if let Some((place, text)) = parts_of(row, "at ", ": ") {
        print_fault_at(page, place.parse().unwrap_or(0), text);
    } else {
        print_text(page, row);
    }
}

/// What stands between these words, and behind, of a row that begins with the first.
fn parts_of<'a>(row: &'a str, before: &str, between: &str) -> Option<(&'a str, &'a str)> {
    row.strip_prefix(before)?.split_once(between)
}

/// Prints what becomes of a row of one text.
fn print_text(page: &Page, row: &str) {
    let (asked, text) = asked_of(row);
    match bytes_of(page.alloc(), text) {
        Ok(text) => print_asked(page, asked, text.as_slice()),
        Err(error) => page.fail(error),
    }
}

/// What a row asks of its text.
#[derive(Clone, Copy)]
enum Asked {
    Binary,
    Spelled,
    Rendered,
}

fn asked_of(row: &str) -> (Asked, &str) {
    if let Some(text) = row.strip_prefix("spelled: ") {
        (Asked::Spelled, text)
    } else if let Some(text) = row.strip_prefix("rendered: ") {
        (Asked::Rendered, text)
    } else {
        (Asked::Binary, row)
    }
}

/// The bytes that a row stands for.
fn bytes_of(alloc: Global, row: &str) -> Result<Vec<u8>, AllocError> {
    let mut bytes = Vec::new(alloc);
    let mut is_front = true;
    for part in row.split('~') {
        push_part(&mut bytes, part, is_front)?;
        is_front = false;
    }
    Ok(bytes)
}

/// The front is given as it is; what stands behind a `~` begins with the digits of a byte.
fn push_part(bytes: &mut Vec<u8>, part: &str, is_front: bool) -> Result<(), AllocError> {
    if is_front {
        return bytes.extend_from_slice(part.as_bytes());
    }
    let (byte, rest) = escaped(part).unwrap_or((b'~', part));
    bytes.push(byte)?;
    bytes.extend_from_slice(rest.as_bytes())
}

/// The byte of the two digits in front, and the rest.
fn escaped(part: &str) -> Option<(u8, &str)> {
    let (digits, rest) = part.split_at_checked(2)?;
    Some((u8::from_str_radix(digits, 16).ok()?, rest))
}

fn print_asked(page: &Page, asked: Asked, text: &[u8]) {
    match asked {
        Asked::Binary => print_binary(page, text),
        Asked::Spelled => print_spelled(page, text),
        Asked::Rendered => print_rendered(page, text),
    }
}

fn print_binary(page: &Page, text: &[u8]) {
    if let Some(binary) = binary_of(page, text) {
        page.put_bytes(binary.as_slice());
        page.put("\n");
    }
}

/// The binary of a text, or prints the fault.
fn binary_of(page: &Page, text: &[u8]) -> Option<Vec<u8>> {
    match assemble(page.alloc(), text) {
        Ok(binary) => Some(binary),
        Err(fault) => {
            print_line(page, &fault);
            None
        }
    }
}

fn print_spelled(page: &Page, text: &[u8]) {
    page.put(match assemble(page.alloc(), text) {
        Err(Fault::Spelling(_)) => "misspelled\n",
        Err(Fault::Memory) => "out of memory\n",
        _ => "spelled\n",
    });
}

fn print_rendered(page: &Page, text: &[u8]) {
    match assemble(page.alloc(), text) {
        Ok(_) => page.put("no fault\n"),
        Err(fault) => print_told(page, &fault, text),
    }
}

/// Prints a fault in one line.
fn print_line(page: &Page, fault: &Fault) {
    writeln!(page, "{fault}");
}

/// Prints a fault as the program tells it.
fn print_told(page: &Page, fault: &Fault, text: &[u8]) {
    match render(page.alloc(), fault, text) {
        Ok(told) => writeln!(page, "{told}"),
        Err(error) => page.fail(error),
    }
}

fn print_fault_at(page: &Page, place: usize, row: &str) {
    match bytes_of(page.alloc(), row) {
        Ok(text) => print_told_at(page, place, text.as_slice()),
        Err(error) => page.fail(error),
    }
}

fn print_told_at(page: &Page, place: usize, text: &[u8]) {
    match error_at(page.alloc(), place, "x") {
        Ok(error) => print_told(page, &Fault::Spelling(error), text),
        Err(error) => page.fail(error),
    }
}

fn error_at(alloc: Global, place: usize, message: &str) -> Result<Error, AllocError> {
    match String::from_str(alloc, message) {
        Ok(message) => Ok(Error::new(Span::from_offset(place), message)),
        Err(error) => Err(error),
    }
}

/// Each fault.
fn print_faults(page: &Page) {
    for number in 0..9 {
        match fault_of(page.alloc(), number) {
            Ok(fault) => print_fault(page, &fault),
            Err(error) => page.fail(error),
        }
    }
}

/// The fault of this number.
fn fault_of(alloc: Global, number: u32) -> Result<Fault, AllocError> {
    match number {
        0 => Ok(Fault::Read),
        1 => Ok(Fault::TooLong),
        2 => Ok(Fault::NotUtf8 { offset: 12 }),
        3 => Ok(Fault::NotWellFormed(Span::from_offset(7))),
        4 => unmet(alloc),
        5 => Ok(Fault::Uncovered {
            span: Span::from_offset(7),
            form: "memory",
        }),
        6 => Ok(Fault::TooLarge),
        7 => Ok(Fault::Memory),
        _ => Ok(Fault::Write { written: u64::MAX }),
    }
}

fn unmet(alloc: Global) -> Result<Fault, AllocError> {
    match error_at(alloc, 7, "unknown label") {
        Ok(error) => Ok(Fault::Unmet(error)),
        Err(error) => Err(error),
    }
}

/// A fault in its one line, and as it is told where its place isn't shown.
fn print_fault(page: &Page, fault: &Fault) {
    print_line(page, fault);
    print_told(page, fault, b"\xff");
}

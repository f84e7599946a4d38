//! Pairs of texts, by their binaries.

use crate::{binary_of, bytes_of, print_line};
use row_page::Page;
use wasm_encoder_base::read_u32;
use wat::assemble;

/// Prints of two rows whether their texts have one binary, or one but for its name section, or two; or else the fault of each that has none.
pub fn print_pair(page: &Page, first: &str, second: &str) {
    match bytes_of(page.alloc(), first) {
        Ok(first) => print_pair_of(page, first.as_slice(), second),
        Err(error) => page.fail(error),
    }
}

/// The first text has these bytes.
fn print_pair_of(page: &Page, first: &[u8], second: &str) {
    match bytes_of(page.alloc(), second) {
        Ok(second) => print_likeness(page, first, second.as_slice()),
        Err(error) => page.fail(error),
    }
}

fn print_likeness(page: &Page, first: &[u8], second: &[u8]) {
    match assemble(page.alloc(), second) {
        Ok(binary) => print_likeness_to(page, first, binary.as_slice()),
        Err(fault) => {
            print_verdict(page, first);
            print_line(page, &fault);
        }
    }
}

/// The second text has this binary.
fn print_likeness_to(page: &Page, first: &[u8], second: &[u8]) {
    match binary_of(page, first) {
        Some(first) => compare(page, first.as_slice(), second),
        None => page.put("a binary\n"),
    }
}

fn print_verdict(page: &Page, text: &[u8]) {
    if binary_of(page, text).is_some() {
        page.put("a binary\n");
    }
}

fn compare(page: &Page, first: &[u8], second: &[u8]) {
    if first == second {
        page.put("equal\n");
    } else if is_equal_without_names(first, second) {
        page.put("equal without names\n");
    } else {
        page.put("different\n");
    }
}

/// Whether two binaries are equal without their name sections.
fn is_equal_without_names(first: &[u8], second: &[u8]) -> bool {
    let mut first = behind_names(sections_of(first));
    let mut second = behind_names(sections_of(second));
    for _ in 0..first.len() {
        let (section, others) = split_section(first);
        let (other, behind_other) = split_section(second);
        if section != other {
            return false;
        }
        first = behind_names(others);
        second = behind_names(behind_other);
    }
    first.is_empty() && second.is_empty()
}

/// What stands behind the header, which is the same in all binaries.
fn sections_of(binary: &[u8]) -> &[u8] {
    match binary.split_at_checked(8) {
        Some((_, sections)) => sections,
        None => binary,
    }
}

/// The sections behind the name sections that stand in front.
fn behind_names(sections: &[u8]) -> &[u8] {
    let mut rest = sections;
    for _ in 0..sections.len() {
        let (section, others) = split_section(rest);
        if !is_names(section) {
            return rest;
        }
        rest = others;
    }
    rest
}

/// The first section, and the others.
fn split_section(sections: &[u8]) -> (&[u8], &[u8]) {
    let (_, end) = bounds(sections).unwrap_or((0, sections.len()));
    sections.split_at_checked(end).unwrap_or((sections, &[]))
}

/// Whether a section is the custom one called `name`.
fn is_names(section: &[u8]) -> bool {
    let (begin, _) = bounds(section).unwrap_or((0, 0));
    let (head, contents) = section.split_at_checked(begin).unwrap_or((section, &[]));
    head.starts_with(b"\x00") && contents.starts_with(b"\x04name")
}

/// Where the contents of the first section begin, and where they end.
fn bounds(sections: &[u8]) -> Option<(usize, usize)> {
    let (_, behind) = sections.split_first()?;
    let (size, length) = read_u32(behind)?;
    let begin = length.checked_add(1)?;
    Some((begin, begin.checked_add(size as usize)?))
}

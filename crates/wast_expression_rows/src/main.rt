//! How expressions unfold, over a small set of instructions without operands, for the texts on standard input, one a line.
//!
//! A line is a word, which says what is asked, and a text:
//! - `items TEXT`: the items of the text, unfolded, with the hints by the indices of their instructions; or where they are
//!   refused;
//! - `folded TEXT`: the same of an instruction behind its operands;
//! - `deep NUMBER`: how many instructions are unfolded from so many groups, each in the one before it.
#![tactic(auto)]

mod op;

use crate::op::Op;
use row_page::{Page, first_word};
use std::alloc::{AllocError, Global};
use std::io;
use wast_expressions::{Instructions, parse_folded_instruction, parse_items};
use wast_parser::{Error, ParseBuffer, Parser};

fn main(rt: HostRuntime) -> io::Result<()> {
    Page::new(rt).answer_lines(answer)
}

/// Prints a line, and what it asks for.
fn answer(page: &Page, line: &str) {
    page.put("> ");
    page.put_line(line);
    let (word, text) = first_word(line);
    match word {
        "items" | "folded" => show(page, word, text),
        "deep" => deep(page, text.parse::<usize>().unwrap_or(0)),
        _ => page.put("no such word\n"),
    }
}

/// Prints how many instructions are unfolded from so many groups, each in the one before it.
fn deep(page: &Page, depth: usize) {
    match groups(page.alloc(), depth) {
        Ok(text) => show(page, "deep", text.as_str()),
        Err(_) => page.put("no memory\n"),
    }
}

/// So many groups, each in the one before it.
fn groups(alloc: Global, depth: usize) -> Result<String, AllocError> {
    let mut text = String::new(alloc);
    for _ in 0..depth {
        text.push_str("(block ")?;
    }
    for _ in 0..depth {
        text.push_str(")")?;
    }
    Ok(text)
}

/// Prints what a text unfolds to, as a word asks for it.
fn show(page: &Page, word: &str, text: &str) {
    if 4_294_967_295 < text.len() {
        page.put("too long\n");
    } else {
        match ParseBuffer::new(page.alloc(), text) {
            Ok(buffer) => show_buffer(page, word, &buffer),
            Err(_) => page.put("no tokens\n"),
        }
    }
}

fn show_buffer(page: &Page, word: &str, buffer: &ParseBuffer<'_>) {
    match unfold(buffer, word == "folded") {
        Ok(found) => print_found(page, word, &found),
        Err(error) => writeln!(page, "refused at {}", error.span().offset()),
    }
}

/// What a text unfolds to, where all of it is read.
fn unfold(buffer: &ParseBuffer<'_>, folded: bool) -> Result<Instructions<Op>, Error> {
    let mut parser = Parser::new(buffer);
    parser.register_annotation("metadata.code.branch_hint")?;
    let found = if folded {
        parse_folded_instruction(&mut parser)?
    } else {
        parse_items(&mut parser)?
    };
    parser.end()?;
    Ok(found)
}

fn print_found(page: &Page, word: &str, found: &Instructions<Op>) {
    if word == "deep" {
        writeln!(page, "{} instructions", found.instrs.len());
    } else {
        print_instructions(page, found);
    }
}

fn print_instructions(page: &Page, found: &Instructions<Op>) {
    for op in found.instrs.as_slice() {
        writeln!(page, "{} at {}", op.word.text(), op.span.offset());
    }
    for hint in found.hints.as_slice() {
        writeln!(
            page,
            "hint {} at instruction {}",
            hint.value, hint.instr_index
        );
    }
}

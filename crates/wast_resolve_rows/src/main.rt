//! What fields and modules are resolved to, one text a line.
//!
//! A line is a word, which says what is called, and the text, a module or its fields alone:
//! - `run TEXT`: fields, written out;
//! - `expand TEXT`: fields with the types that uses take, and the implied ones;
//! - `names TEXT`: fields with numbers for indices;
//! - `resolve TEXT`: all of these, one after the other;
//! - `module TEXT`: a module, resolved in its place, and once more;
//! - `means-func TEXT`, and so for `table`, `memory`, `global`, `tag` and `type`: which number `$x` means in this index space.
//!
//! Else the fields are printed, one a line: the keyword, of memories and tables the limits, of exports the name, and then what the field says
//! of names, in the order in which names are looked up: indices, each behind the word of its space, type uses, blocks, names that are
//! repeated; and integer constants. Or where the text is refused, and with which message.
#![tactic(auto)]

mod lists;
mod meanings;
mod printer;
mod texts;

use row_page::{Page, first_word};
use std::io;
use wast_parser::{Error, ParseBuffer};

fn main(rt: HostRuntime) -> io::Result<()> {
    Page::new(rt).answer_lines(answer)
}

/// Prints a line, and what it asks for.
fn answer(page: &Page, line: &str) {
    page.put("> ");
    page.put_line(line);
    let (word, text) = first_word(line);
    answer_of(page, word, text);
}

/// Prints what a word asks of a text.
fn answer_of(page: &Page, word: &str, text: &str) {
    if 4_294_967_295 < text.len() {
        page.put("too long\n");
    } else {
        match ParseBuffer::new(page.alloc(), text) {
            Ok(buffer) => texts::print(&buffer, word, page),
            Err(error) => print_error(page, &error),
        }
    }
}

/// Prints where and why something is refused.
fn print_error(page: &Page, error: &Error) {
    page.put("refused: ");
    page.write_fmt(error);
    page.put("\n");
}

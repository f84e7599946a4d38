//! What the crates that read text say of the texts on standard input, one a line.
//!
//! A line is a word, which says what is asked, and a text in which `%` and two hexadecimal digits stand for a byte:
//! - `tokens TEXT`: the tokens of the text, a line each: kind, offset, length, what the token's reader answers, and for
//!   a `(` the index of the token that ends its group; then why there are no more, where that isn't the end;
//! - `allowed TEXT`: the same, with confusing characters allowed;
//! - `passed TEXT`: the tokens as the iterator gives them, a line each: kind, text, and what the token's reader answers; then why there
//!   are no more, where that isn't the end;
//! - `named NAME TEXT`: the offset of each annotation of the text, and whether it stands for the name;
//! - `place OFFSET TEXT`: the line and the column of an offset;
//! - `read TYPE TEXT`: the text, read as one of a type (`i8`, `u8`, `i64`, `u64`, `string`), or where it is refused;
//! - `looks TEXT`: whether an identifier stands in front: as it is, with annotations `a` registered, and with that taken
//!   back; or where the text can't be read;
//! - `comment TEXT`: the comment in front of the text, behind white space alone, or that there is none;
//! - `behind TEXT`: the same, behind the identifier in front of the text;
//! - `registered TEXT`: whether a parenthesis opens behind the identifier in front of the text: as it is, and with
//!   annotations `a` registered once the identifier is read;
//! - `take KIND TEXT`: what a cursor takes that stands in front of the text: the name of an identifier (`id`) or of an annotation `a`
//!   (`annotation`), the bytes of a string (`string`), or none; or where that is refused;
//! - `errors`: the text of each lexical error.
//!
//! With the argument `measure` it measures the lexer and the parser instead.
#![tactic(auto)]

mod bench;
mod lexer;
mod parser;

use percent_encoding::percent_decode;
use row_page::{Page, first_word};
use std::{env, io};

fn main(rt: HostRuntime) -> io::Result<()> {
    let is_told = is_told_to_measure(&rt)?;
    let page = Page::new(rt);
    if is_told {
        bench::measure_texts(rt, &page);
        page.outcome()
    } else {
        page.answer_lines(answer)
    }
}

fn is_told_to_measure(rt: &HostRuntime) -> io::Result<bool> {
    Ok(env::args(rt)?.any(|word| word.as_str() == "measure"))
}

/// Prints a line, and what it asks for.
fn answer(page: &Page, line: &str) {
    page.put("> ");
    page.put_line(line);
    let (word, rest) = first_word(line);
    answer_decoded(page, word, rest);
}

/// Prints what a word asks of a text that is written so.
fn answer_decoded(page: &Page, word: &str, written: &str) {
    match percent_decode(written.as_bytes()).decode_utf8(page.alloc()) {
        Ok(text) => answer_of(page, word, text.as_str()),
        Err(_) => page.put("no text\n"),
    }
}

/// Prints what a word asks of a text.
fn answer_of(page: &Page, word: &str, text: &str) {
    match word {
        "read" => parser::read(page, text),
        "take" => parser::take(page, text),
        "looks" | "comment" | "behind" | "registered" => parser::answer(page, word, text),
        _ => lexer::answer(page, word, text),
    }
}

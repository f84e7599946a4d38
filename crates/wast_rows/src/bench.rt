//! Measures lexer, token table and parser on generated texts, beside a plain scan of their bytes: functions whose bodies are flat,
//! the same folded, data segments, and one function of many instructions, flat and folded.

ghost use Rattle.std.specs.Prelude.{◌<◌, ◌^◌, IfOk, length};
ghost use Rattle.wast_parser.specs.Cursors.{Follows};

use row_page::Page;
use std::alloc::{AllocError, Global};
use std::io;
use std::time::{Duration, Instant};
use wast_lexer::{Lexer, TokenTable};
use wast_parser::{Cursor, Error, ParseBuffer, Parser};

/// A function with a flat body.
const FLAT: &[u8] =
    b"(func (export \"a\\n\\41\") (param $x i32) (result i32) ;; c\n  local.get $x i32.const 0xff_ff (; x ;) i32.add block nop end i32.const 0 i32.mul)\n";

/// The same, folded.
const FOLDED: &[u8] =
    b"(func (export \"a\\n\\41\") (param $x i32) (result i32) ;; c\n  (i32.mul (i32.add (local.get $x) (i32.const 0xff_ff)) (; x ;) (block (nop)) (i32.const 0)))\n";

/// A data segment.
const DATA: &[u8] =
    b"(data (i32.const 0) \"plain text of a segment, some sixty bytes of it, and more\" \"\\00\\01\\02\\03\")\n";

/// Instructions of a body, flat.
const FLAT_BODY: &[u8] =
    b"local.get $x i32.const 0xff_ff (; x ;) i32.add block nop end i32.const 0 i32.mul drop\n";

/// The same, folded.
const FOLDED_BODY: &[u8] =
    b"(drop (i32.mul (i32.add (local.get $x) (i32.const 0xff_ff)) (; x ;) (block (nop)) (i32.const 0)))\n";

/// How many times the part of a text stands in it.
const COUNT: u32 = 75_000;

/// How often each measure is taken; the last one counts.
const ROUNDS: u32 = 3;

/// Measures them all.
pub fn measure_texts(rt: HostRuntime, page: &Page) {
    measure_text(rt, page, "functions, flat", MODULE, FLAT);
    measure_text(rt, page, "functions, folded", MODULE, FOLDED);
    measure_text(rt, page, "data segments", MODULE, DATA);
    measure_text(rt, page, "a body, flat", BODY, FLAT_BODY);
    measure_text(rt, page, "a body, folded", BODY, FOLDED_BODY);
}

/// What stands before the fields of a module.
const MODULE: &[u8] = b"(module\n";

/// What stands before the instructions of a body.
const BODY: &[u8] = b"(func (param $x i32)\n";

/// Measures a text of many times a part.
fn measure_text(rt: HostRuntime, page: &Page, name: &str, before: &[u8], part: &[u8]) {
    page.put(name);
    page.put(":\n");
    match repeated(rt.alloc(), before, part) {
        Ok(bytes) => measure_bytes(rt, page, bytes.as_slice()),
        Err(error) => page.fail(error),
    }
}

/// A part so many times, between what stands before it and the parenthesis that closes.
fn repeated(alloc: Global, before: &[u8], part: &[u8]) -> Result<Vec<u8>, AllocError> {
    let mut bytes = Vec::new(alloc);
    bytes.extend_from_slice(before)?;
    for _ in 0..COUNT {
        bytes.extend_from_slice(part)?;
    }
    bytes.push(b')')?;
    Ok(bytes)
}

fn measure_bytes(rt: HostRuntime, page: &Page, bytes: &[u8]) {
    if let Ok(text) = std::str::from_utf8(bytes) {
        for _ in 0..ROUNDS {
            measure(rt, page, text);
        }
    }
}

fn measure(rt: HostRuntime, page: &Page, text: &str) {
    if text.len() <= 4_294_967_295 {
        measure_scan(rt, page, text);
        measure_lexer(rt, page, text);
        measure_table(rt, page, text);
        measure_parser(rt, page, text);
    }
}

fn measure_scan(rt: HostRuntime, page: &Page, text: &str) {
    let start = Instant::now(&rt);
    let lines = text.bytes().filter(|byte| *byte == b'\n').count();
    match spent_since(rt, start) {
        Ok(spent) => {
            let bytes = speed(text.len(), spent);
            writeln!(page, "byte scan: {bytes} MB/s, {lines} line feeds");
        }
        Err(_) => page.put("no clock\n"),
    }
}

fn measure_lexer(rt: HostRuntime, page: &Page, text: &str)
    requires { length text.now < 2 ^ 32 }
{
    let start = Instant::now(&rt);
    let count = Lexer::new(text).iter(0).count();
    print_speed(page, "lexer", text, count, spent_since(rt, start));
}

fn measure_table(rt: HostRuntime, page: &Page, text: &str)
    requires { length text.now < 2 ^ 32 }
{
    let start = Instant::now(&rt);
    match TokenTable::new(rt.alloc(), Lexer::new(text)) {
        Ok(table) => {
            let spent = spent_since(rt, start);
            print_speed(page, "lexer with table", text, table.len(), spent);
        }
        Err(error) => page.fail(error),
    }
}

fn measure_parser(rt: HostRuntime, page: &Page, text: &str)
    requires { length text.now < 2 ^ 32 }
{
    match ParseBuffer::new(rt.alloc(), text) {
        Ok(buffer) => measure_steps(rt, page, text, &buffer),
        Err(_) => page.put("out of memory\n"),
    }
}

fn measure_steps(rt: HostRuntime, page: &Page, text: &str, buffer: &ParseBuffer<'_>) {
    let start = Instant::now(&rt);
    let count = tokens_taken(buffer, text.len());
    let spent = spent_since(rt, start);
    print_speed(page, "tokens taken by step", text, count, spent);
}

/// How many tokens are taken, one at a time, up to this number.
fn tokens_taken(buffer: &ParseBuffer<'_>, most: usize) -> usize {
    let mut parser = Parser::new(buffer);
    for count in 0..most {
        if !parser.step(one_token).unwrap_or(false) {
            return count;
        }
    }
    most
}

/// Takes a token of the text, where there is one.
fn one_token<'b, 'a>(cursor: Cursor<'b, 'a>) -> Result<(bool, Cursor<'b, 'a>), Error>
    ensures { IfOk result (λ taken. Follows cursor.entry taken.1) }
{
    if let Some((_, rest)) = cursor.keyword()? {
        return Ok((true, rest));
    }
    if let Some(rest) = cursor.lparen()? {
        return Ok((true, rest));
    }
    if let Some(rest) = cursor.rparen()? {
        return Ok((true, rest));
    }
    if let Some((_, rest)) = cursor.id()? {
        return Ok((true, rest));
    }
    one_literal(cursor)
}

fn one_literal<'b, 'a>(cursor: Cursor<'b, 'a>) -> Result<(bool, Cursor<'b, 'a>), Error>
    ensures { IfOk result (λ taken. Follows cursor.entry taken.1) }
{
    if let Some((_, rest)) = cursor.integer()? {
        return Ok((true, rest));
    }
    if let Some((_, rest)) = cursor.string()? {
        return Ok((true, rest));
    }
    Ok((false, cursor))
}

/// The time since a start, unless the clock can't be read.
fn spent_since(rt: HostRuntime, start: io::Result<Instant>) -> io::Result<Duration> {
    start?.elapsed(&rt)
}

fn print_speed(page: &Page, name: &str, text: &str, count: usize, spent: io::Result<Duration>) {
    match spent {
        Ok(spent) => {
            let bytes = speed(text.len(), spent);
            let tokens = speed(count, spent);
            writeln!(
                page,
                "{name}: {bytes} MB/s, {tokens} million tokens/s, {count} tokens"
            );
        }
        Err(_) => page.put("no clock\n"),
    }
}

/// So many in a time, in millions a second.
fn speed(count: usize, spent: Duration) -> u128 {
    count as u128 / spent.as_micros().max(1)
}

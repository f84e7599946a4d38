//! What a line of the input asks for, and the answer.

use crate::row::print_spelled;
use row_page::{Page, first_word};
use std::alloc::{AllocError, Global};
use std::fmt::Display;
use wasm_encoder_base::{Encode, encoding_size, read_s33, read_u32};
use wasm_encoder_code::ConstExpr;

/// The answer to a line: its first word says what the rest is.
pub fn answer(page: &Page, line: &str) {
    let (word, rest) = first_word(line);
    match word {
        "unsigned" => match rest.parse() {
            Ok(number) => unsigned(page, number),
            Err(_) => page.put("no such number\n"),
        },
        "signed" => match rest.parse() {
            Ok(number) => signed(page, number),
            Err(_) => page.put("no such number\n"),
        },
        "name" => named(page, rest),
        "bytes" => numbers(page, rest),
        _ => page.put("no such word\n"),
    }
}

/// Of a number of 64 bits, as a count, and, where it has 32, of 32 bits.
fn unsigned(page: &Page, number: u64) {
    print_number(page, "unsigned", &number, "u64");
    page.put(", usize");
    print_spelled(page, &(number as usize));
    page.put("\n");
    if let Ok(number) = u32::try_from(number) {
        print_number(page, "unsigned", &number, "u32");
        writeln!(page, ", size {}", encoding_size(number));
    }
}

/// Of a number of 64 bits, and, where it has 32, of 32 bits.
fn signed(page: &Page, number: i64) {
    print_number(page, "signed", &number, "i64");
    page.put("\n");
    if let Ok(number) = i32::try_from(number) {
        print_number(page, "signed", &number, "i32");
        page.put("\n");
    }
}

/// A number, and its bytes, as it is of this type.
fn print_number<N: Encode + Display>(page: &Page, word: &str, number: &N, name: &str)
    requires { N.can_encode number.now }
{
    write!(page, "{word} {number}: {name}");
    print_spelled(page, number);
}

/// Of a name.
fn named(page: &Page, name: &str) {
    write!(page, "name {name}:");
    print_spelled(page, &name);
    page.put("\n");
}

/// The numbers at the front, and the function's index where the bytes begin with a `ref.func`.
fn numbers(page: &Page, words: &str) {
    match bytes_of(page.alloc(), words) {
        Ok(Some(bytes)) => print_numbers(page, words, bytes.as_slice()),
        Ok(None) => page.put("no such bytes\n"),
        Err(error) => page.fail(error),
    }
}

fn print_numbers(page: &Page, words: &str, bytes: &[u8]) {
    let unsigned = read_u32(bytes);
    let signed = read_s33(bytes);
    let function = function_of(page.alloc(), bytes);
    writeln!(
        page,
        "bytes {words}: read_u32 {unsigned:?}, read_s33 {signed:?}, get_ref_func {function:?}"
    );
}

/// The function's index where the bytes begin with a `ref.func`.
fn function_of(alloc: Global, bytes: &[u8]) -> Option<u32> {
    match ConstExpr::raw(alloc, bytes) {
        Ok(expression) => expression.get_ref_func(),
        Err(_) => None,
    }
}

/// The bytes that words in hexadecimal stand for, where each is one.
fn bytes_of(alloc: Global, words: &str) -> Result<Option<Vec<u8>>, AllocError> {
    let mut bytes = Vec::new(alloc);
    for word in words.split_whitespace() {
        match u8::from_str_radix(word, 16) {
            Ok(byte) => bytes.push(byte)?,
            Err(_) => return Ok(None),
        }
    }
    Ok(Some(bytes))
}

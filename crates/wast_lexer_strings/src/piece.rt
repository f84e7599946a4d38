//! One character of a string, or one escape.

ghost use Rattle.std.specs.Prelude.{◌≡◌, ◌≢◌, ◌≤◌, ◌<◌, ℕ, List, ◌++◌, MatchOption, length, drop, slice_index, slice_range, false, true};
ghost use Rattle.wast_lexer_numbers.specs.Numbers.{is_hex};
ghost use Rattle.wast_lexer_strings.specs.Strings.{hex_value, is_string_byte, escaped};
ghost use Rattle.wast_lexer_strings.specs.StringScan.{Gives, meant, read, more};
ghost use Rattle.wast_lexer_strings.specs.StringScan.State.{Within, Escape, Digit, Open, Gap, Number};

use crate::error::LexError;

/// What one part of a string stands for.
#[derive(Clone, Copy)]
pub(crate) enum Piece {
    Byte(u8),
    Char(char),
}

/// Where the bytes of a string end that stand for themselves, from a place on.
pub(crate) fn plain_end(text: &[u8], from: usize) -> usize
    requires { from ≤ length text.now }
    ensures inside { (from ≤ result) × (result ≤ length text.now) }
    ensures passed { read Within (drop from text.now) ≡ more (slice_range text.now from result) (read Within (drop result text.now)) }
    ensures all { result < length text.now → is_string_byte (slice_index text.now result) ≡ false }
{
    let mut at = from;
    'plain: while at < text.len() && is_string_byte(text[at]) {
        at += 1;
    }
    at
}

/// The part of a string that stands at a place, and where it ends.
#[inline(always)]
pub(crate) fn read_piece(text: &[u8], at: usize) -> Result<(Piece, usize), LexError>
    requires inside { at < length text.now }
    requires open { slice_index text.now at ≢ 34 }
    ensures { Gives Within text.now at result }
{
    let byte = text[at];
    if byte == b'\\' {
        return escape(text, at + 1);
    }
    if is_string_byte(byte) {
        Ok((Piece::Byte(byte), at + 1))
    } else {
        Err(LexError::InvalidStringElement)
    }
}

fn escape(text: &[u8], at: usize) -> Result<(Piece, usize), LexError>
    requires { at ≤ length text.now }
    ensures { Gives Escape text.now at result }
{
    if text.len() <= at {
        return Err(LexError::UnexpectedEof);
    }
    let byte = text[at];
    if byte == b'u' {
        return unicode(text, at + 1);
    }
    if is_hex(byte) {
        return second_digit(text, at + 1, byte);
    }
    match escaped(byte) {
        Some(value) => Ok((Piece::Byte(value), at + 1)),
        None => Err(LexError::InvalidStringEscape),
    }
}

fn second_digit(text: &[u8], at: usize, first: u8) -> Result<(Piece, usize), LexError>
    requires inside { at ≤ length text.now }
    requires hex { is_hex first ≡ true }
    ensures { Gives (Digit first) text.now at result }
{
    if text.len() <= at {
        return Err(LexError::UnexpectedEof);
    }
    let byte = text[at];
    if is_hex(byte) {
        Ok((Piece::Byte(16 * hex_value(first) + hex_value(byte)), at + 1))
    } else {
        Err(LexError::InvalidHexDigit)
    }
}

fn unicode(text: &[u8], at: usize) -> Result<(Piece, usize), LexError>
    requires { at ≤ length text.now }
    ensures { Gives Open text.now at result }
{
    if text.len() <= at {
        return Err(LexError::UnexpectedEof);
    }
    if text[at] == b'{' {
        scalar(text, at + 1)
    } else {
        Err(LexError::Expected)
    }
}

/// The character whose digits stand from a place on.
fn scalar(text: &[u8], from: usize) -> Result<(Piece, usize), LexError>
    requires { from ≤ length text.now }
    ensures { Gives (Gap 0) text.now from result }
{
    let mut at = from;
    let mut value = 0u32;
    let mut gap = true;
    'digits: while at < text.len() {
        let byte = text[at];
        if is_hex(byte) {
            value = 16 * value + hex_value(byte) as u32;
            if 0x10ffff < value {
                return Err(LexError::InvalidUnicodeValue);
            }
            gap = false;
        } else if gap {
            return Err(LexError::InvalidHexDigit);
        } else if byte == b'_' {
            gap = true;
        } else {
            return closed_scalar(text, at, value);
        }
        at += 1;
    }
    Err(LexError::UnexpectedEof)
}

/// Behind the digits of a character.
fn closed_scalar(text: &[u8], at: usize, value: u32) -> Result<(Piece, usize), LexError>
    requires inside { at < length text.now }
    requires no_digit { is_hex (slice_index text.now at) ≡ false }
    requires no_gap { slice_index text.now at ≢ 95 }
    ensures { Gives (Number value) text.now at result }
{
    if text[at] != b'}' {
        return Err(LexError::InvalidHexDigit);
    }
    match char::from_u32(value) {
        Some(c) => Ok((Piece::Char(c), at + 1)),
        None => Err(LexError::InvalidUnicodeValue),
    }
}

/// What follows the bytes that a part stands for, where these begin with them.
pub(crate) fn behind_piece<'a>(piece: Piece, bytes: &'a [u8]) -> Option<&'a [u8]>
    ensures { MatchOption result ((rest : List ℕ) → bytes.now ≢ meant piece ++ rest) (λ rest. bytes.now ≡ meant piece ++ rest.now) }
{
    match piece {
        Piece::Byte(byte) => bytes.strip_prefix(&[byte]),
        Piece::Char(c) => {
            let mut buffer = [0u8; 4];
            bytes.strip_prefix(c.encode_utf8(&mut buffer).as_bytes())
        }
    }
}

fn is_hex(byte: u8) -> bool
    ensures { result ≡ is_hex byte }
{
    byte.is_ascii_hexdigit()
}

fn is_string_byte(byte: u8) -> bool
    ensures { result ≡ is_string_byte byte }
{
    STRING_BYTES[byte as usize]
}

const STRING_BYTES: [bool; 256] = [
    false, false, false, false, false, false, false, false, false, false, false, false, false,
    false, false, false, false, false, false, false, false, false, false, false, false, false,
    false, false, false, false, false, false, true, true, false, true, true, true, true, true,
    true, true, true, true, true, true, true, true, true, true, true, true, true, true, true, true,
    true, true, true, true, true, true, true, true, true, true, true, true, true, true, true, true,
    true, true, true, true, true, true, true, true, true, true, true, true, true, true, true, true,
    true, true, true, true, false, true, true, true, true, true, true, true, true, true, true,
    true, true, true, true, true, true, true, true, true, true, true, true, true, true, true, true,
    true, true, true, true, true, true, true, true, false, true, true, true, true, true, true,
    true, true, true, true, true, true, true, true, true, true, true, true, true, true, true, true,
    true, true, true, true, true, true, true, true, true, true, true, true, true, true, true, true,
    true, true, true, true, true, true, true, true, true, true, true, true, true, true, true, true,
    true, true, true, true, true, true, true, true, true, true, true, true, true, true, true, true,
    true, true, true, true, true, true, true, true, true, true, true, true, true, true, true, true,
    true, true, true, true, true, true, true, true, true, true, true, true, true, true, true, true,
    true, true, true, true, true, true, true, true, true, true, true, true, true, true, true, true,
    true, true, true, true, true, true, true, true, true, true,
];

fn escaped(letter: u8) -> Option<u8>
    ensures { result ≡ escaped letter }
{
    match letter {
        b't' => Some(b'\t'),
        b'n' => Some(b'\n'),
        b'r' => Some(b'\r'),
        b'"' | b'\'' | b'\\' => Some(letter),
        _ => None,
    }
}

fn hex_value(digit: u8) -> u8
    requires { is_hex digit ≡ true }
    ensures value { result ≡ hex_value digit }
    ensures small { result < 16 }
{
    if digit.is_ascii_digit() {
        digit - b'0'
    } else if b'a' <= digit {
        digit - b'a' + 10
    } else {
        digit - b'A' + 10
    }
}

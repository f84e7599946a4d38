//! The scan: the kind of the token at a place, and where it ends.

ghost use Rattle.std.specs.Prelude.{◌≡◌, ◌<◌, ℕ, length, drop, slice_index};
ghost use Rattle.wast_lexer.specs.Scan.{FindsToken, next};
ghost use Rattle.wast_lexer.specs.Kinds.{is_space, is_mark};

use crate::comment::{block_end, comment, is_semicolon_at};
use crate::skip::{find_either, space_end};
use crate::token::TokenKind;
use crate::word::{goes_on, scan_word};
use wast_lexer_strings::LexError;

/// The kind of the token at a place, and where it ends.
pub(crate) fn scan(
    text: &[u8],
    at: usize,
    allow: bool,
    opened: bool,
) -> Result<(TokenKind, usize), LexError>
    requires { at < length text.now }
    ensures { FindsToken result text.now at (next allow opened (drop at text.now)) }
{
    let byte = text[at];
    if is_space(byte) {
        Ok((TokenKind::Whitespace, space_end(text, at + 1)))
    } else if byte == b'(' {
        scan_open(text, at, allow, opened)
    } else if byte == b')' {
        Ok((TokenKind::RParen, at + 1))
    } else if byte == b';' {
        scan_semicolon(text, at, allow, opened)
    } else if is_mark(byte) {
        Ok((TokenKind::Reserved, at + 1))
    } else if goes_on(byte) {
        scan_word(text, at, allow, opened)
    } else {
        Err(LexError::Unexpected)
    }
}

/// A `(`, or a block comment.
fn scan_open(
    text: &[u8],
    at: usize,
    allow: bool,
    opened: bool,
) -> Result<(TokenKind, usize), LexError>
    requires inside { at < length text.now }
    requires opens { slice_index text.now at ≡ 40 }
    ensures { FindsToken result text.now at (next allow opened (drop at text.now)) }
{
    if !is_semicolon_at(text, at + 1) {
        return Ok((TokenKind::LParen, at + 1));
    }
    match block_end(text, at + 2) {
        None => Err(LexError::DanglingBlockComment),
        Some(end) => comment(text, at, end, allow, TokenKind::BlockComment),
    }
}

/// A `;`, or a line comment.
fn scan_semicolon(
    text: &[u8],
    at: usize,
    allow: bool,
    opened: bool,
) -> Result<(TokenKind, usize), LexError>
    requires inside { at < length text.now }
    requires semicolon { slice_index text.now at ≡ 59 }
    ensures { FindsToken result text.now at (next allow opened (drop at text.now)) }
{
    if !is_semicolon_at(text, at + 1) {
        return Ok((TokenKind::Reserved, at + 1));
    }
    let end = find_either(text, at + 2, b'\n', b'\r');
    comment(text, at, end, allow, TokenKind::LineComment)
}

pub(crate) fn is_space(byte: u8) -> bool
    ensures { result ≡ is_space byte }
{
    matches!(byte, b' ' | b'\t' | b'\n' | b'\r')
}

fn is_mark(byte: u8) -> bool
    ensures { result ≡ is_mark byte }
{
    matches!(byte, b',' | b'[' | b']' | b'{' | b'}')
}

//! Comments, and the characters that may not stand in them.

ghost use Rattle.std.specs.Prelude.{◌≡◌, ◌≤◌, ◌<◌, ℕ, IsTrue, Some, length, drop};
ghost use Rattle.wast_lexer.specs.Kinds.{starts, is_semicolon, is_clean, may_stand, starts_refused, is_refused};
ghost use Rattle.wast_lexer.specs.Scan.{FindsEnd, FindsToken, comment, close, starts_pair};

use crate::skip::find_either;
use crate::token::TokenKind;
use wast_lexer_strings::LexError;

/// A comment, unless a refused character stands in it.
pub(crate) fn comment(
    text: &[u8],
    at: usize,
    end: usize,
    allow: bool,
    kind: TokenKind,
) -> Result<(TokenKind, usize), LexError>
    requires nonempty { at < end }
    requires within { end ≤ length text.now }
    ensures { FindsToken result text.now at (comment allow kind (drop at text.now) (Some (drop end text.now))) }
{
    if may_stand(&text[at..end], allow) {
        Ok((kind, end))
    } else {
        Err(LexError::ConfusingUnicode)
    }
}

/// Where the block comment ends.
pub(crate) fn block_end(text: &[u8], from: usize) -> Option<usize>
    requires { from ≤ length text.now }
    ensures { FindsEnd result text.now from (close 0 (drop from text.now)) }
{
    let mut depth = 0usize;
    let mut at = from;
    'levels: while at < text.len() {
        at = find_either(text, at, b'(', b';');
        if is_pair(text, at, b'(', b';') {
            depth += 1;
            at += 2;
        } else if is_pair(text, at, b';', b')') {
            at += 2;
            if depth == 0 {
                return Some(at);
            }
            depth -= 1;
        } else if at < text.len() {
            at += 1;
        }
    }
    None
}

/// Whether no refused character stands in the text, or they are allowed.
pub(crate) fn may_stand(word: &[u8], allow: bool) -> bool
    ensures { result ≡ may_stand allow word.now }
{
    allow || is_clean(word)
}

/// Whether none of the refused characters stands in the text: U+202A, U+202B, U+202D, U+202E, U+2066 to U+2069 and U+206C.
fn is_clean(text: &[u8]) -> bool
    ensures { result ≡ is_clean text.now }
{
    let mut at = 0;
    'leads: while at < text.len() {
        at = find_either(text, at, 0xe2, 0xe2);
        if is_refused_at(text, at) {
            return false;
        }
        if at < text.len() {
            at += 1;
        }
    }
    true
}

/// Whether one stands here.
fn is_refused_at(text: &[u8], at: usize) -> bool
    requires { at ≤ length text.now }
    ensures { result ≡ starts_refused (drop at text.now) }
{
    at + 2 < text.len() && is_refused(text[at], text[at + 1], text[at + 2])
}

/// Whether these are the bytes of one.
fn is_refused(first: u8, second: u8, third: u8) -> bool
    ensures { result ≡ is_refused first second third }
{
    first == 0xe2
        && (second == 0x80 && matches!(third, 0xaa | 0xab | 0xad | 0xae)
            || second == 0x81 && matches!(third, 0xa6..=0xa9 | 0xac))
}

/// Whether these two bytes come next.
fn is_pair(text: &[u8], at: usize, first: u8, second: u8) -> bool
    requires { at ≤ length text.now }
    ensures { result ≡ starts_pair first second (drop at text.now) }
{
    match &text[at..] {
        [a, b, ..] => *a == first && *b == second,
        _ => false,
    }
}

pub(crate) fn is_semicolon_at(text: &[u8], at: usize) -> bool
    requires { at ≤ length text.now }
    ensures value { result ≡ starts is_semicolon (drop at text.now) }
    ensures within { IsTrue result → at < length text.now }
{
    at < text.len() && text[at] == b';'
}

//! The scan that tells whether a word is a number, and of which kind.

ghost use Rattle.std.specs.Prelude.{◌≡◌, ◌↔◌, ◌&&◌, ℕ, Bool, List, None, Some, true, false, MatchOption};
ghost use Rattle.wast_lexer_numbers.specs.Numbers.{is_base, is_power, IsNumber};
ghost use Rattle.wast_lexer_numbers.specs.NumberScan.{begins_number, after, prefixed, sign_of, unsigned, is_all, ends_power, ends_fraction, magnitude, body, number};

use crate::kind::{FloatKind, IntegerKind, NumberKind, SignToken};

/// The kind of a number (6.3.1 and 6.3.2); `None` where the word is none.
pub fn number(word: &[u8]) -> Option<NumberKind>
    ensures scanned { result ≡ number word.now }
    ensures kinds { (kind : NumberKind) → (result ≡ Some kind) ↔ IsNumber kind word.now }
{
    if !begins_number(word) {
        return None;
    }
    let (sign, text) = split_sign(word);
    body(text, sign)
}

/// Whether a number may begin with the first byte.
fn begins_number(word: &[u8]) -> bool
    ensures { result ≡ begins_number word.now }
{
    match word {
        [b'0'..=b'9' | b'+' | b'-' | b'i' | b'n', ..] => true,
        _ => false,
    }
}

/// The sign, and what follows it.
pub(crate) fn split_sign(word: &[u8]) -> (Option<SignToken>, &[u8])
    ensures sign { result.0 ≡ sign_of word.now }
    ensures rest { result.1.now ≡ unsigned word.now }
{
    match word {
        [b'+', rest @ ..] => (Some(SignToken::Plus), rest),
        [b'-', rest @ ..] => (Some(SignToken::Minus), rest),
        _ => (None, word),
    }
}

/// The kind of a number, behind its sign.
fn body(text: &[u8], sign: Option<SignToken>) -> Option<NumberKind>
    ensures { result ≡ body sign text.now }
{
    if is_word(text, b"inf") {
        return Some(NumberKind::Float(FloatKind::Inf));
    }
    if is_word(text, b"nan") {
        return Some(NumberKind::Float(FloatKind::Nan));
    }
    if let Some(digits) = prefixed(text, b"nan:0x") {
        return is_digits(digits, true).then_some(NumberKind::Float(FloatKind::NanVal));
    }
    match prefixed(text, b"0x") {
        Some(digits) => magnitude(digits, true, sign),
        None => magnitude(text, false, sign),
    }
}

/// The kind of a number, behind its sign and `0x`.
#[inline(always)]
fn magnitude(text: &[u8], hex: bool, sign: Option<SignToken>) -> Option<NumberKind>
    ensures { result ≡ magnitude hex sign text.now }
{
    match after(text, hex) {
        None => None,
        Some([]) => Some(NumberKind::Integer(IntegerKind { sign, hex })),
        Some([b'.', fraction @ ..]) => {
            ends_fraction(fraction, hex).then_some(NumberKind::Float(FloatKind::Normal))
        }
        Some(rest) => ends_power(rest, hex).then_some(NumberKind::Float(FloatKind::Normal)),
    }
}

/// Whether an exponent, or nothing, is left behind a point, or digits and then one of these.
fn ends_fraction(text: &[u8], hex: bool) -> bool
    ensures { result ≡ ends_fraction hex text.now }
{
    if ends_power(text, hex) {
        return true;
    }
    match after(text, hex) {
        None => false,
        Some(rest) => ends_power(rest, hex),
    }
}

/// Whether an exponent, or nothing, is left.
pub(crate) fn ends_power(text: &[u8], hex: bool) -> bool
    ensures { result ≡ ends_power hex text.now }
{
    match text {
        [] => true,
        [first, rest @ ..] => is_power(hex, *first) && is_digits(split_sign(rest).1, false),
    }
}

fn is_digits(text: &[u8], hex: bool) -> bool
    ensures { result ≡ is_all (after hex true text.now) }
{
    match after(text, hex) {
        None => false,
        Some(rest) => rest.is_empty(),
    }
}

/// What follows the digits, which a `_` does not end.
pub(crate) fn after(text: &[u8], hex: bool) -> Option<&[u8]>
    ensures { MatchOption result (after hex true text.now ≡ None) (λ r. after hex true text.now ≡ Some r.now) }
{
    let mut rest = text;
    let mut gap = true;
    'digits: loop {
        match rest {
            [first, tail @ ..] if is_base(hex, *first) => {
                gap = false;
                rest = tail;
            }
            [b'_', tail @ ..] if !gap => {
                gap = true;
                rest = tail;
            }
            _ => {
                if gap {
                    return None;
                }
                return Some(rest);
            }
        }
    }
}

fn is_word(text: &[u8], word: &[u8]) -> bool
    ensures { result ≡ is_all (prefixed word.now text.now) }
{
    match prefixed(text, word) {
        None => false,
        Some(rest) => rest.is_empty(),
    }
}

/// What follows these bytes, where the text begins with them.
pub(crate) fn prefixed<'a>(text: &'a [u8], bytes: &[u8]) -> Option<&'a [u8]>
    ensures { MatchOption result (prefixed bytes.now text.now ≡ None) (λ r. prefixed bytes.now text.now ≡ Some r.now) }
{
    let mut rest = text;
    let mut left = bytes;
    'bytes: loop {
        match left {
            [] => return Some(rest),
            [first, more @ ..] => match rest {
                [byte, tail @ ..] if *byte == *first => {
                    rest = tail;
                    left = more;
                }
                _ => return None,
            },
        }
    }
}

/// Whether a byte is a digit of the base.
fn is_base(hex: bool, byte: u8) -> bool
    ensures { result ≡ is_base hex byte }
{
    if hex {
        byte.is_ascii_hexdigit()
    } else {
        byte.is_ascii_digit()
    }
}

/// Whether a byte is the letter before an exponent.
fn is_power(hex: bool, byte: u8) -> bool
    ensures { result ≡ is_power hex byte }
{
    if hex {
        byte == b'P' || byte == b'p'
    } else {
        byte == b'E' || byte == b'e'
    }
}

//! Readers of numbers.

ghost use Rattle.std.specs.Prelude.{◌≡◌, ◌≤◌, ◌++◌, ℕ, List, Some, true, false, length, drop, take};
ghost use Rattle.std.specs.List.{list_all};
ghost use Rattle.wast_lexer_numbers.specs.declared.kind.FloatKind.TheVariants.{Normal};
ghost use Rattle.wast_lexer_numbers.specs.declared.kind.NumberKind.TheVariants as kinds;
ghost use Rattle.wast_lexer_numbers.specs.Numbers.{IsNumber, Digits, sign_text};
ghost use Rattle.wast_lexer_numbers.specs.NumberParts.{IsIntegerOf, IsFloatOf, text_now};
ghost use Rattle.wast_lexer_numbers.specs.FloatSteps.{IsValOf, IsTailOf, is_ascii, exponent_of, is_point_first};
ghost use Rattle.wast_lexer_numbers.specs.NumberScan.{after, magnitude, ends_fraction, body};

use crate::kind::{FloatKind, IntegerKind, SignToken};
use crate::parts::{Float, Integer};
use crate::scan::{after, ends_power, prefixed, split_sign};

/// The parts of an integer (6.3.1), whose word was found to be of this kind. It wants no memory.
pub fn integer<'a>(word: &'a str, kind: IntegerKind) -> Integer<'a>
    requires { IsNumber (kinds.Integer kind) word.now }
    ensures { IsIntegerOf word.now result }
{
    let sign = if kind.sign.is_some() { 1 } else { 0 };
    let base = if kind.hex { 2 } else { 0 };
    Integer {
        sign: kind.sign,
        digits: &word[sign + base..],
        hex: kind.hex,
    }
}

/// The parts of a float (6.3.2), whose word was found to be of this kind. It wants no memory.
pub fn float<'a>(word: &'a str, kind: FloatKind) -> Float<'a>
    requires { IsNumber (kinds.Float kind) word.now }
    ensures { IsFloatOf word.now result }
{
    let (sign, rest) = split_sign(word.as_bytes());
    let text = &word[word.len() - rest.len()..];
    match kind {
        FloatKind::Inf => Float::Inf { sign },
        FloatKind::Nan => Float::Nan {
            sign,
            payload: None,
        },
        FloatKind::NanVal => Float::Nan {
            sign,
            payload: Some(&text[6..]),
        },
        FloatKind::Normal => normal(text, sign),
    }
}

/// The parts of a float with digits, behind its sign.
fn normal<'a>(text: &'a str, sign: Option<SignToken>) -> Float<'a>
    requires ascii { list_all is_ascii text.now ≡ true }
    requires float { body sign text.now ≡ Some (kinds.Float Normal) }
    ensures { IsFloatOf (sign_text sign ++ text.now) result }
{
    match prefixed(text.as_bytes(), b"0x") {
        Some(_) => value(&text[2..], true, sign),
        None => value(text, false, sign),
    }
}

/// The parts of a float with digits, behind its sign and `0x`.
fn value<'a>(text: &'a str, hex: bool, sign: Option<SignToken>) -> Float<'a>
    requires ascii { list_all is_ascii text.now ≡ true }
    requires float { magnitude hex sign text.now ≡ Some (kinds.Float Normal) }
    ensures { IsValOf hex sign text.now result }
{
    let (integral, tail) = split_digits(text, hex);
    if is_point_first(tail.as_bytes()) {
        let (fraction, exponent) = fraction(&tail[1..], hex);
        return Float::Val {
            sign,
            hex,
            integral,
            fraction: Some(fraction),
            exponent,
        };
    }
    Float::Val {
        sign,
        hex,
        integral,
        fraction: None,
        exponent: exponent(tail),
    }
}

fn is_point_first(text: &[u8]) -> bool
    ensures { result ≡ is_point_first text.now }
{
    match text {
        [b'.', ..] => true,
        _ => false,
    }
}

/// The digits behind a point, and the exponent.
fn fraction<'a>(text: &'a str, hex: bool) -> (&'a str, Option<&'a str>)
    requires ascii { list_all is_ascii text.now ≡ true }
    requires fraction { ends_fraction hex text.now ≡ true }
    ensures { IsTailOf hex text.now result.0.now (text_now result.1) }
{
    if ends_power(text.as_bytes(), hex) {
        return (&text[..0], exponent(text));
    }
    let (digits, tail) = split_digits(text, hex);
    (digits, exponent(tail))
}

/// The exponent behind its letter.
fn exponent<'a>(text: &'a str) -> Option<&'a str>
    requires ascii { list_all is_ascii text.now ≡ true }
    ensures { exponent_of text.now ≡ text_now result }
{
    if text.len() == 0 {
        None
    } else {
        Some(&text[1..])
    }
}

/// The digits in front, and what follows them.
fn split_digits<'a>(text: &'a str, hex: bool) -> (&'a str, &'a str)
    requires ascii { list_all is_ascii text.now ≡ true }
    requires digits { (rest : List ℕ) × (after hex true text.now ≡ Some rest) }
    ensures digits { Digits hex result.0.now }
    ensures rest { after hex true text.now ≡ Some result.1.now }
    ensures split { text.now ≡ result.0.now ++ result.1.now }
    ensures ascii { list_all is_ascii result.1.now ≡ true }
{
    match after(text.as_bytes(), hex) {
        None => unreachable!(),
        Some(rest) => {
            let at = text.len() - rest.len();
            (&text[..at], &text[at..])
        }
    }
}

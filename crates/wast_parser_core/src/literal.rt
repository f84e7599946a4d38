//! Literals of integers.
ghost use Rattle.std.specs.Prelude.{◌≡◌, ◌<◌, ◌^◌, Option, Some, None, SomeIff, if◌then◌else◌};
ghost use Rattle.wast_lexer.specs.Strings.{hex_value};
ghost use Rattle.wast_grammar.specs.Tokens.{number};
ghost use Rattle.wast_grammar.specs.Laws.{says_minus};
ghost use Rattle.wast_parser_core.specs.Literals.{literal_of, said, is_within};

use wast_lexer::{Integer, SignToken};

/// Whether an integer has a minus sign, and its magnitude, where it is in a range: without a minus sign at most `most`, with
/// one, where there may be one, at most `least`.
pub fn number_of(integer: Integer<'_>, most: u64, least: Option<u64>) -> Option<(bool, u64)>
    ensures { result ≡ (if is_within most least (literal_of integer.entry) then Some (said (literal_of integer.entry)) else None) }
{
    let (digits, base) = integer.val();
    let size = magnitude(digits.as_bytes(), base)?;
    let minus = is_minus(integer.sign());
    if is_within(most, least, minus, size) {
        Some((minus, size))
    } else {
        None
    }
}

fn is_within(most: u64, least: Option<u64>, minus: bool, size: u64) -> bool
    ensures { result ≡ is_within most least (record { minus = minus; size = size }) }
{
    if minus {
        match least {
            Some(bound) => size <= bound,
            None => false,
        }
    } else {
        size <= most
    }
}

fn is_minus(sign: Option<SignToken>) -> bool
    ensures { result ≡ says_minus sign }
{
    matches!(sign, Some(SignToken::Minus))
}

/// The number that digits of a base say, if it has 64 bits. What isn't a digit is not refused; `_` is passed.
pub fn magnitude(digits: &[u8], base: u32) -> Option<u64>
    ensures { SomeIff result (number base digits.now < 2 ^ 64) (number base digits.now) }
{
    let mut size: u64 = 0;
    for digit in digits {
        if *digit != b'_' {
            size = size
                .checked_mul(base as u64)?
                .checked_add(digit_value(*digit) as u64)?;
        }
    }
    Some(size)
}

/// The number that a digit spells.
fn digit_value(digit: u8) -> u8
    ensures { result ≡ hex_value digit }
{
    if digit.is_ascii_digit() {
        digit - b'0'
    } else if b'a' <= digit {
        digit - 87
    } else {
        digit.saturating_sub(55)
    }
}

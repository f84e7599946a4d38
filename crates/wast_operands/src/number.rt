//! Numbers in words, as in `offset=8`.
ghost use Rattle.std.specs.Prelude.{◌≡◌};
ghost use Rattle.wast_vector_operands.specs.Numbers.{is_base};
ghost use Rattle.wast_operands.specs.OperandSyntax.{are_digits, digits_number, u64_number};

use wast_vector_operands::magnitude;

/// The number that the text of a u64 says: decimal digits, or hexadecimal ones behind `0x`. None for another text, and past
/// 64 bits.
pub fn u64_number(text: &[u8]) -> Option<u64>
    ensures { result ≡ u64_number text.now }
{
    match text.strip_prefix("0x".as_bytes()) {
        Some(digits) => digits_number(true, digits),
        None => digits_number(false, text),
    }
}

/// The number that digits of a base say.
fn digits_number(hex: bool, text: &[u8]) -> Option<u64>
    ensures { result ≡ digits_number hex text.now }
{
    if !are_digits(hex, text) {
        return None;
    }
    magnitude(text, if hex { 16 } else { 10 })
}

/// Whether a text is digits of a base, with single `_` between them.
fn are_digits(hex: bool, text: &[u8]) -> bool
    ensures { result ≡ are_digits hex text.now }
{
    let mut behind_digit = false;
    for byte in text {
        if is_base(hex, *byte) {
            behind_digit = true;
        } else if behind_digit && *byte == b'_' {
            behind_digit = false;
        } else {
            return false;
        }
    }
    behind_digit
}

/// Whether a byte is a digit, decimal or hexadecimal.
fn is_base(hex: bool, byte: u8) -> bool
    ensures { result ≡ is_base hex byte }
{
    if hex {
        byte.is_ascii_hexdigit()
    } else {
        byte.is_ascii_digit()
    }
}

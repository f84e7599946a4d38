//! Integers of so many bits.
ghost use Rattle.std.specs.Prelude.{◌≡◌, ◌≤◌, ◌-◌, ◌*◌, ◌^◌, ◌<◌, ℕ, ℤ, pos, neg_ℤ, ◌≤ℤ◌, ◌<ℤ◌, true, Option, Some, None, refl};
ghost use Rattle.wast_grammar.specs.Tokens.{Literal};
ghost use Rattle.wast_grammar.specs.Grammar.{seen};
ghost use Rattle.wast_parser_core.specs.State.{ahead, Keeps};
ghost use Rattle.wast_parser_core.specs.Reading.{Gives};
ghost use Rattle.wast_parser_core.specs.Literals.{is_within};
ghost use Rattle.wast_parser_core.specs.Integers.{number_in, unsigned, signed};

use crate::cursor::Cursor;
use crate::meaning::{Item, Meaning, Parse, Peek};
use crate::parser::Parser;
use wast_lexer::Span;
use wast_parser_base::Error;

/// An integer type: which literals it has, and the number that each says.
pub trait FixedInteger: Sized + Drop {
    ghost Number: { Type 0 };

    ghost number: { Self → Number };

    ghost says: { Literal → Number };

    ghost most: { ℕ };

    ghost least: { Option ℕ };

    /// The type's name.
    const NAME: &'static str;

    /// The greatest magnitude without a minus sign, and with one, where there may be one.
    fn range() -> (u64, Option<u64>)
        ensures { result ≡ (most, least) };

    /// The number that a literal of the range says.
    fn from_literal(minus: bool, size: u64) -> Self
        requires { is_within most least (record { minus = minus; size = size }) ≡ true }
        ensures { number result ≡ says (record { minus = minus; size = size }) };
}

impl<T: FixedInteger> Meaning for T {
    ghost Tree = { T.Number };

    ghost tree = { T.number };

    ghost syntax = { seen (λ x. x.0) (number_in T.most T.least T.says) };

    fn lawful() {}
}

impl<'a, T: FixedInteger> Parse<'a> for T {
    fn parse(parser: &mut Parser<'a>) -> Result<Self, Error> {
        let (number, _) = number(parser)?;
        Ok(number)
    }
}

impl<T: FixedInteger> Meaning for (T, Span) {
    ghost Tree = { T.Number × ℕ };

    ghost tree = { λ x. (T.number x.0, x.1) };

    ghost syntax = { number_in T.most T.least T.says };

    fn lawful() {}
}

impl<'a, T: FixedInteger> Parse<'a> for (T, Span) {
    fn parse(parser: &mut Parser<'a>) -> Result<Self, Error> {
        number(parser)
    }
}

impl<T: FixedInteger> Peek for T {
    ghost plain = { refl };

    ghost sure = { refl };

    fn leads() {}

    fn peek(cursor: Cursor<'_, '_>) -> Result<bool, Error> {
        cursor.peek_integer()
    }

    fn display() -> &'static str {
        T::NAME
    }
}

impl<T: FixedInteger> Item for T {
    ghost inside = { refl };
}

/// Reads an integer of a type's range; answers it, and where it stands.
fn number<'a, T: FixedInteger>(parser: &mut Parser<'a>) -> Result<(T, Span), Error>
    ensures read { Gives (λ x. (T.number x.0, x.1)) result parser.new ((number_in T.most T.least T.says).reads (ahead parser.old)) }
    ensures keeps { Keeps parser.old parser.new }
{
    let (most, least) = T::range();
    let ((minus, size), span) = parser.literal(most, least)?;
    Ok((T::from_literal(minus, size), span))
}

impl FixedInteger for u8 {
    ghost Number = { ℕ };

    ghost number = { λ n. n };

    ghost says = { unsigned };

    ghost most = { 2 ^ 8 - 1 };

    ghost least = { None };

    const NAME: &'static str = "u8";

    fn range() -> (u64, Option<u64>) {
        (u8::MAX as u64, None)
    }

    fn from_literal(_minus: bool, size: u64) -> u8 {
        size as u8
    }
}

impl FixedInteger for u16 {
    ghost Number = { ℕ };

    ghost number = { λ n. n };

    ghost says = { unsigned };

    ghost most = { 2 ^ 16 - 1 };

    ghost least = { None };

    const NAME: &'static str = "u16";

    fn range() -> (u64, Option<u64>) {
        (u16::MAX as u64, None)
    }

    fn from_literal(_minus: bool, size: u64) -> u16 {
        size as u16
    }
}

impl FixedInteger for u32 {
    ghost Number = { ℕ };

    ghost number = { λ n. n };

    ghost says = { unsigned };

    ghost most = { 2 ^ 32 - 1 };

    ghost least = { None };

    const NAME: &'static str = "u32";

    fn range() -> (u64, Option<u64>) {
        (u32::MAX as u64, None)
    }

    fn from_literal(_minus: bool, size: u64) -> u32 {
        size as u32
    }
}

impl FixedInteger for u64 {
    ghost Number = { ℕ };

    ghost number = { λ n. n };

    ghost says = { unsigned };

    ghost most = { 2 ^ 64 - 1 };

    ghost least = { None };

    const NAME: &'static str = "u64";

    fn range() -> (u64, Option<u64>) {
        (u64::MAX, None)
    }

    fn from_literal(_minus: bool, size: u64) -> u64 {
        size
    }
}

impl FixedInteger for i8 {
    ghost Number = { ℤ };

    ghost number = { λ n. n };

    ghost says = { signed (2 ^ 7) };

    ghost most = { 2 ^ 8 - 1 };

    ghost least = { Some (2 ^ 7) };

    const NAME: &'static str = "i8";

    fn range() -> (u64, Option<u64>) {
        (u8::MAX as u64, Some(1 << 7))
    }

    fn from_literal(minus: bool, size: u64) -> i8 {
        wrapped(minus, size, 1 << 7) as i8
    }
}

impl FixedInteger for i16 {
    ghost Number = { ℤ };

    ghost number = { λ n. n };

    ghost says = { signed (2 ^ 15) };

    ghost most = { 2 ^ 16 - 1 };

    ghost least = { Some (2 ^ 15) };

    const NAME: &'static str = "i16";

    fn range() -> (u64, Option<u64>) {
        (u16::MAX as u64, Some(1 << 15))
    }

    fn from_literal(minus: bool, size: u64) -> i16 {
        wrapped(minus, size, 1 << 15) as i16
    }
}

impl FixedInteger for i32 {
    ghost Number = { ℤ };

    ghost number = { λ n. n };

    ghost says = { signed (2 ^ 31) };

    ghost most = { 2 ^ 32 - 1 };

    ghost least = { Some (2 ^ 31) };

    const NAME: &'static str = "i32";

    fn range() -> (u64, Option<u64>) {
        (u32::MAX as u64, Some(1 << 31))
    }

    fn from_literal(minus: bool, size: u64) -> i32 {
        wrapped(minus, size, 1 << 31) as i32
    }
}

impl FixedInteger for i64 {
    ghost Number = { ℤ };

    ghost number = { λ n. n };

    ghost says = { signed (2 ^ 63) };

    ghost most = { 2 ^ 64 - 1 };

    ghost least = { Some (2 ^ 63) };

    const NAME: &'static str = "i64";

    fn range() -> (u64, Option<u64>) {
        (u64::MAX, Some(1 << 63))
    }

    fn from_literal(minus: bool, size: u64) -> i64 {
        wrapped(minus, size, 1 << 63) as i64
    }
}

/// The number that a literal says, where so many numbers are half of them all.
fn wrapped(minus: bool, size: u64, half: u64) -> i128
    requires some { 0 < half }
    requires half { half ≤ 2 ^ 63 }
    requires range { is_within (2 * half - 1) (Some half) (record { minus = minus; size = size }) ≡ true }
    ensures value { result ≡ signed half (record { minus = minus; size = size }) }
    ensures low { neg_ℤ (pos half) ≤ℤ result }
    ensures high { result <ℤ pos half }
{
    if minus {
        -(size as i128)
    } else if size < half {
        size as i128
    } else {
        size as i128 - 2 * half as i128
    }
}

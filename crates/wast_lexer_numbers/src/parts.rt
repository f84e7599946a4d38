//! The parts of a number, as they are written.

ghost use Rattle.std.specs.Prelude.{◌≡◌, if◌then◌else◌};
ghost use Rattle.wast_lexer_numbers.specs.NumberParts.{integer_sign, integer_digits, is_hexadecimal};

use crate::kind::SignToken;

/// An integer (6.3.1).
#[derive(Clone, Copy, Debug, PartialEq, Eq)]
pub struct Integer<'a> {
    pub(crate) sign: Option<SignToken>,
    pub(crate) digits: &'a str,
    pub(crate) hex: bool,
}

impl<'a> Integer<'a> {
    /// The sign, where one is written.
    pub fn sign(&self) -> Option<SignToken>
        ensures { result ≡ integer_sign self.now }
    {
        self.sign
    }

    /// The digits as they are written, with each `_` among them, and their base: 10 or 16.
    pub fn val(&self) -> (&'a str, u32)
        ensures digits { result.0.now ≡ integer_digits self.now }
        ensures base { result.1 ≡ (if is_hexadecimal self.now then 16 else 10) }
    {
        (self.digits, if self.hex { 16 } else { 10 })
    }
}

/// A float (6.3.2).
#[derive(Clone, Copy, Debug, PartialEq, Eq)]
pub enum Float<'a> {
    Inf {
        sign: Option<SignToken>,
    },
    /// `nan`, or `nan:0x` and the payload's digits.
    Nan {
        sign: Option<SignToken>,
        payload: Option<&'a str>,
    },
    /// The digits before the point, those behind it where there is a point, and the exponent with its sign.
    Val {
        sign: Option<SignToken>,
        hex: bool,
        integral: &'a str,
        fraction: Option<&'a str>,
        exponent: Option<&'a str>,
    },
}

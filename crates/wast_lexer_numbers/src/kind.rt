/// The sign of a number.
#[derive(Clone, Copy, Debug, PartialEq, Eq)]
pub enum SignToken {
    Plus,
    Minus,
}

/// How an integer is written.
#[derive(Clone, Copy, Debug, PartialEq, Eq)]
pub struct IntegerKind {
    pub sign: Option<SignToken>,
    /// Whether `0x` and hexadecimal digits follow the sign.
    pub hex: bool,
}

/// How a float is written.
#[derive(Clone, Copy, Debug, PartialEq, Eq)]
pub enum FloatKind {
    /// `inf`
    Inf,
    /// `nan`
    Nan,
    /// `nan:0x` and hexadecimal digits
    NanVal,
    /// Digits with a fraction, an exponent, or both.
    Normal,
}

/// How a number is written.
#[derive(Clone, Copy, Debug, PartialEq, Eq)]
pub enum NumberKind {
    Integer(IntegerKind),
    Float(FloatKind),
}

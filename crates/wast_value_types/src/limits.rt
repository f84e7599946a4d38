//! Limits, and address types.
ghost use Rattle.std.specs.Prelude.{◌≡◌, ℕ, Bool, None, OnErr};
ghost use Rattle.wast_words.specs.Tokens.{Name};
ghost use Rattle.wast_words.specs.Lawful.{Lawful};
ghost use Rattle.wast_words.specs.State.{ahead, Keeps};
ghost use Rattle.wast_words.specs.Reading.{Gives};
ghost use Rattle.wast_value_types.specs.ValueTree as spec;
ghost use Rattle.wast_value_types.specs.ValueSyntax.{address_words, address_type, limits};
ghost use Rattle.wast_value_types.specs.ValueViews.{is_wide, address_text, limits_tree};

use wast_words::{Error, Meaning, Parse, Parser, Word, Words, Written, find};

/// The limits of a table in elements, or of a memory in pages, and whether its addresses have 64 bits (6.4.8). Equal ones
/// hash alike.
#[derive(Clone, Copy, PartialEq, Eq, Hash)]
pub struct Limits {
    pub is64: bool,
    pub min: u64,
    pub max: Option<u64>,
}

impl Meaning for Limits {
    ghost Tree = { spec.Limits };

    ghost tree = { limits_tree };

    ghost syntax = { limits };

    fn lawful()
        ensures { Lawful (limits {N = Name} {P = ℕ}) }
    {}
}

impl<'a> Parse<'a> for Limits {
    fn parse(parser: &mut Parser<'a>) -> Result<Self, Error> {
        let is64 = address_type(parser)?;
        let min = u64::parse(parser)?;
        let max = parser.parse()?;
        Ok(Limits { is64, min, max })
    }
}

/// Reads an address type (6.4.8) where one stands; answers whether it is `i64`. Without one it is `i32`. Refused only where no token can be
/// read here; the parser stays then.
pub fn address_type(parser: &mut Parser<'_>) -> Result<bool, Error>
    ensures read { Gives (λ b. b) result parser.new (address_type.reads (ahead parser.old)) }
    ensures keeps { Keeps parser.old parser.new }
    ensures stays { OnErr result (parser.new ≡ parser.old) }
    ensures exact { OnErr result (address_type.reads (ahead parser.old) ≡ None) }
{
    if !parser.peek::<Word<AddressType>>()? {
        return Ok(false);
    }
    match parser.among::<Word<AddressType>>(AddressType::EXPECTED) {
        Ok((word, _)) => Ok(word.value.is64()),
        Err(e) => Err(e),
    }
}

/// An address type (6.4.8).
#[derive(Clone, Copy)]
enum AddressType {
    I32,
    I64,
}

/// The address types in the order of their keywords.
const ADDRESS_TYPES: [AddressType; 2] = [AddressType::I32, AddressType::I64];

impl AddressType {
    fn is64(self) -> bool
        ensures { result ≡ is_wide self }
    {
        match self {
            AddressType::I32 => false,
            AddressType::I64 => true,
        }
    }
}

impl Written for AddressType {
    ghost Tree = { Bool };

    ghost entry = { λ a. (address_text a, is_wide a) };

    ghost entries = { address_words };

    fn text(self) -> &'static str {
        match self {
            AddressType::I32 => "i32",
            AddressType::I64 => "i64",
        }
    }
}

impl Words for AddressType {
    const NAME: &'static str = "an address type";

    const EXPECTED: &'static str = "expected an address type";

    fn of(text: &[u8]) -> Option<Self> {
        find(&ADDRESS_TYPES, text)
    }
}

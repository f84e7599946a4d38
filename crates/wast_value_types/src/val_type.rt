//! Value types.
ghost use Rattle.std.specs.Prelude.{◌≡◌, ℕ, IfOk, refl, IsOk, true};
ghost use Rattle.wast_words.specs.Tokens.{Name};
ghost use Rattle.wast_words.specs.Look.{ask};
ghost use Rattle.wast_words.specs.Lawful.{Lawful, Leads};
ghost use Rattle.wast_words.specs.State.{ahead};
ghost use Rattle.wast_words.specs.Reading.{Asks};
ghost use Rattle.wast_words.specs.Cursors.{stands};
ghost use Rattle.wast_value_types.specs.ValueTree.{Number};
ghost use Rattle.wast_value_types.specs.ValueTree as spec;
ghost use Rattle.wast_value_types.specs.ValueSyntax.{number_words, val_type, val_starts};
ghost use Rattle.wast_value_types.specs.ValueViews.{number_type, number_text, val_tree};
ghost use Rattle.wast_value_types.specs.Nameless.{val_nameless};

use crate::ref_type::RefType;
use std::alloc::{AllocError, Global};
use wast_words::{
    Cursor, Error, Item, Meaning, Parse, Parser, Peek, Word, Words, Written, find, or_peek,
    required,
};

/// A value type (6.4.4). Indices are the same wherever they stand; equal value types hash alike.
#[derive(Drop)]
#[derive_where(PartialEq, Eq, Hash)]
pub enum ValType<'a> {
    I32,
    I64,
    F32,
    F64,
    V128,
    Ref(RefType<'a>),
}

impl<'a> ValType<'a> {
    /// The same value type at the same place. Fails only for want of memory, of which one without a name needs none.
    pub fn clone(&self, alloc: Global) -> Result<Self, AllocError>
        ensures same { IfOk result (λ copy. copy ≡ self.now) }
        ensures plain { val_nameless self.now ≡ true → IsOk result }
    {
        match self {
            ValType::I32 => Ok(ValType::I32),
            ValType::I64 => Ok(ValType::I64),
            ValType::F32 => Ok(ValType::F32),
            ValType::F64 => Ok(ValType::F64),
            ValType::V128 => Ok(ValType::V128),
            ValType::Ref(ref_type) => Ok(ValType::Ref(ref_type.clone(alloc)?)),
        }
    }
}

impl<'a> Meaning for ValType<'a> {
    ghost Tree = { spec.ValType Name ℕ };

    ghost tree = { val_tree };

    ghost syntax = { val_type };

    fn lawful()
        ensures { Lawful (val_type {N = Name} {P = ℕ}) }
    {}
}

impl<'a> Parse<'a> for ValType<'a> {
    fn parse(parser: &mut Parser<'a>) -> Result<Self, Error> {
        if parser.peek::<Word<NumberType>>()? {
            let number: Word<NumberType> = parser.parse()?;
            Ok(number.value.val_type())
        } else {
            Ok(ValType::Ref(required(parser, "expected a value type")?))
        }
    }
}

impl<'a> Peek for ValType<'a> {
    ghost plain = { refl };

    ghost sure = { refl };

    fn leads()
        ensures { Leads (val_type {N = Name} {P = ℕ}).spells val_starts }
    {}

    fn peek(cursor: Cursor<'_, '_>) -> Result<bool, Error>
        ensures { Asks result (stands cursor.entry).source (ask val_starts (ahead (stands cursor.entry))) }
    {
        or_peek::<RefType>(Word::<NumberType>::peek(cursor), cursor)
    }

    fn display() -> &'static str {
        "a value type"
    }
}

impl<'a> Item for ValType<'a> {
    ghost inside = { refl };
}

/// A number or vector type (6.4.1).
#[derive(Clone, Copy)]
enum NumberType {
    I32,
    I64,
    F32,
    F64,
    V128,
}

/// These types in the order of their keywords.
const NUMBER_TYPES: [NumberType; 5] = [
    NumberType::I32,
    NumberType::I64,
    NumberType::F32,
    NumberType::F64,
    NumberType::V128,
];

impl NumberType {
    /// The same as a value type.
    fn val_type<'a>(self) -> ValType<'a>
        ensures { val_tree result ≡ Number (number_type self) }
    {
        match self {
            NumberType::I32 => ValType::I32,
            NumberType::I64 => ValType::I64,
            NumberType::F32 => ValType::F32,
            NumberType::F64 => ValType::F64,
            NumberType::V128 => ValType::V128,
        }
    }
}

impl Written for NumberType {
    ghost Tree = { spec.NumberType };

    ghost entry = { λ n. (number_text n, number_type n) };

    ghost entries = { number_words };

    fn text(self) -> &'static str {
        match self {
            NumberType::I32 => "i32",
            NumberType::I64 => "i64",
            NumberType::F32 => "f32",
            NumberType::F64 => "f64",
            NumberType::V128 => "v128",
        }
    }
}

impl Words for NumberType {
    const NAME: &'static str = "a number type";

    const EXPECTED: &'static str = "expected a number type";

    fn of(text: &[u8]) -> Option<Self> {
        find(&NUMBER_TYPES, text)
    }
}

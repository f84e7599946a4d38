//! The productions of values of data segments.
ghost use Rattle.std.specs.Prelude.{◌≡◌, ◌*◌, ℕ, List, length, refl};
ghost use Rattle.std.specs.List.{flat_map};
ghost use Rattle.wast_grammar.specs.Tokens.{Name};
ghost use Rattle.wast_parser.specs.Look.{ask};
ghost use Rattle.wast_parser.specs.Grammar.{seen, many};
ghost use Rattle.wast_parser.specs.Lawful.{Lawful, Leads};
ghost use Rattle.wast_parser.specs.State.{ahead, Keeps};
ghost use Rattle.wast_parser.specs.Reading.{Asks, Gives};
ghost use Rattle.wast_parser.specs.Cursors.{stands};
ghost use Rattle.wast_vector_operands.specs.VectorSyntax.{float_starts, float_literal};
ghost use Rattle.wast_data.specs.DataTree as spec;
ghost use Rattle.wast_data.specs.DataSyntax as words;
ghost use Rattle.wast_data.specs.DataSyntax.{number_word, number_types, value_starts, vectors, numbers_of, numbers, value};
ghost use Rattle.wast_data.specs.DataViews.{number_view, value_tree};

use crate::bytes::{DataInteger, integers_bytes, of_vectors, total};
use crate::value::DataVal;
use wasm_encoder_base::Bytes;
use wast_parser::{
    Cursor, Error, Item, LParen, Meaning, Parse, Parser, Peek, Spelled, WordSet, closed_or,
    find_among, list_of,
};
use wast_vector_operands::{FloatLit, V128Const};

impl<'a> Meaning for DataVal<'a> {
    ghost Tree = { spec.DataVal };

    ghost tree = { value_tree };

    ghost syntax = { value };

    fn lawful()
        ensures { Lawful (value {N = Name} {P = ℕ}) }
    {}
}

impl<'a> Parse<'a> for DataVal<'a> {
    fn parse(parser: &mut Parser<'a>) -> Result<Self, Error> {
        if parser.peek::<Bytes<'a>>()? {
            Ok(DataVal::String(Bytes::parse(parser)?))
        } else {
            parse_numbers(parser)
        }
    }
}

impl<'a> Peek for DataVal<'a> {
    ghost plain = { refl };

    ghost sure = { refl };

    fn leads()
        ensures { Leads (value {N = Name} {P = ℕ}).spells value_starts }
    {}

    fn peek(cursor: Cursor<'_, '_>) -> Result<bool, Error>
        ensures { Asks result (stands cursor.entry).source (ask value_starts (ahead (stands cursor.entry))) }
    {
        match cursor.peek_string() {
            Ok(true) => Ok(true),
            Ok(false) => cursor.peek_group_among::<NumberType>(),
            Err(e) => Err(e),
        }
    }

    fn display() -> &'static str {
        "a value of data"
    }
}

impl<'a> Item for DataVal<'a> {
    ghost inside = { refl };
}

/// A type of numbers in data.
#[derive(Clone, Copy)]
enum NumberType {
    I8,
    I16,
    I32,
    I64,
    F32,
    F64,
    V128,
}

const TYPES: [NumberType; 7] = [
    NumberType::I8,
    NumberType::I16,
    NumberType::I32,
    NumberType::I64,
    NumberType::F32,
    NumberType::F64,
    NumberType::V128,
];

impl NumberType {
    /// What is said where numbers of this type don't go on.
    fn expected_behind(self) -> &'static str {
        match self {
            NumberType::I8 | NumberType::I16 | NumberType::I32 | NumberType::I64 => {
                "expected an integer or `)`"
            }
            NumberType::F32 | NumberType::F64 => "expected a number or `)`",
            NumberType::V128 => "expected a shape or `)`",
        }
    }
}

impl WordSet for NumberType {
    ghost Entry = { words.NumberType };

    ghost entry = { number_view };

    ghost word = { number_word };

    ghost entries = { number_types };

    fn of(text: &[u8]) -> Option<Self> {
        find_among(&TYPES, text)
    }
}

impl Spelled for NumberType {
    ghost Entry = { words.NumberType };

    ghost entry = { number_view };

    ghost word = { number_word };

    fn text(self) -> &'static str {
        match self {
            NumberType::I8 => "i8",
            NumberType::I16 => "i16",
            NumberType::I32 => "i32",
            NumberType::I64 => "i64",
            NumberType::F32 => "f32",
            NumberType::F64 => "f64",
            NumberType::V128 => "v128",
        }
    }
}

/// Numbers in parentheses, behind their type.
fn parse_numbers<'a>(parser: &mut Parser<'a>) -> Result<DataVal<'a>, Error>
    ensures read { Gives value_tree result parser.new (numbers.reads (ahead parser.old)) }
    ensures keeps { Keeps parser.old parser.new }
{
    LParen::parse(parser)?;
    let (ty, _) = parser.among("expected a type of numbers")?;
    let value = parse_numbers_of(parser, ty)?;
    closed_or(parser, value, ty.expected_behind())
}

/// What stands behind a type.
fn parse_numbers_of<'a>(parser: &mut Parser<'a>, ty: NumberType) -> Result<DataVal<'a>, Error>
    ensures read { Gives value_tree result parser.new ((numbers_of (number_view ty)).reads (ahead parser.old)) }
    ensures keeps { Keeps parser.old parser.new }
{
    match ty {
        NumberType::I8 => parse_integers::<i8>(parser),
        NumberType::I16 => parse_integers::<i16>(parser),
        NumberType::I32 => parse_integers::<i32>(parser),
        NumberType::I64 => parse_integers::<i64>(parser),
        NumberType::F32 => parse_floats(parser, 4),
        NumberType::F64 => parse_floats(parser, 8),
        NumberType::V128 => parse_vectors(parser),
    }
}

/// Integers; the grammar's bytes of one are those that it has.
fn parse_integers<'a, T: Parse<'a> + DataInteger>(
    parser: &mut Parser<'a>,
) -> Result<DataVal<'a>, Error>
    ensures read { (bytes : T.Tree → List ℕ) → ((n : T) → bytes (T.tree n) ≡ T.bytes n) → Gives value_tree result parser.new ((seen (λ ns. spec.Integral (flat_map bytes ns)) (many T.syntax.starts T.syntax)).reads (ahead parser.old)) }
    ensures keeps { Keeps parser.old parser.new }
{
    let integers: Vec<T> = list_of(parser)?;
    let bytes = integers_bytes(parser.alloc(), &integers)?;
    Ok(DataVal::Integral(bytes))
}

/// Floats, of which each is so many bytes.
fn parse_floats<'a>(parser: &mut Parser<'a>, width: usize) -> Result<DataVal<'a>, Error>
    ensures read { Gives value_tree result parser.new ((seen (λ fs. spec.Float (length fs * width)) (many float_starts float_literal)).reads (ahead parser.old)) }
    ensures keeps { Keeps parser.old parser.new }
{
    let floats: Vec<FloatLit<'a>> = list_of(parser)?;
    let len = total(floats.len(), width)?;
    Ok(DataVal::Float(len))
}

fn parse_vectors<'a>(parser: &mut Parser<'a>) -> Result<DataVal<'a>, Error>
    ensures read { Gives value_tree result parser.new (vectors.reads (ahead parser.old)) }
    ensures keeps { Keeps parser.old parser.new }
{
    let vectors: Vec<V128Const<'a>> = list_of(parser)?;
    Ok(of_vectors(parser.alloc(), &vectors)?)
}

//! Constants of 128 bits, and lanes.
ghost use Rattle.std.specs.Prelude.{◌≡◌, ℕ, List, [], map, length, refl};
ghost use Rattle.std.specs.Int.{w32, w64};
ghost use Rattle.wast_parser.specs.Tokens.{Name};
ghost use Rattle.wast_parser.specs.Look.{ask};
ghost use Rattle.wast_parser.specs.Grammar.{times};
ghost use Rattle.wast_parser.specs.Lawful.{Lawful, Leads};
ghost use Rattle.wast_parser.specs.State.{ahead, Keeps};
ghost use Rattle.wast_parser.specs.Reading.{Asks, Gives};
ghost use Rattle.wast_parser.specs.Cursors.{stands};
ghost use Rattle.wast_vector_operands.specs.VectorTree as spec;
ghost use Rattle.wast_vector_operands.specs.VectorSyntax.{float_starts, shape_starts, float_literal, lane, shuffle, shape_word, shapes, floats, lanes_of, vector};
ghost use Rattle.wast_vector_operands.specs.VectorViews.{shape_tree, vector_tree};

use wast_parser::{Cursor, Error, Item, Meaning, Parse, Parser, Peek, WordSet};

/// A float as it is written: the text of a float or of an integer.
#[derive(Clone, Copy)]
pub struct FloatLit<'a> {
    pub text: &'a str,
}

impl<'a> Meaning for FloatLit<'a> {
    ghost Tree = { List ℕ };

    ghost tree = { λ f. f.text.now };

    ghost syntax = { float_literal };

    fn lawful()
        ensures { Lawful (float_literal {N = Name} {P = ℕ}) }
    {}
}

impl<'a> Parse<'a> for FloatLit<'a> {
    fn parse(parser: &mut Parser<'a>) -> Result<Self, Error> {
        let (text, _) = parser.float()?;
        Ok(FloatLit { text })
    }
}

impl<'a> Peek for FloatLit<'a> {
    ghost plain = { refl };

    ghost sure = { refl };

    fn leads()
        ensures { Leads (float_literal {N = Name} {P = ℕ}).spells float_starts }
    {}

    fn peek(cursor: Cursor<'_, '_>) -> Result<bool, Error>
        ensures { Asks result (stands cursor.entry).source (ask float_starts (ahead (stands cursor.entry))) }
    {
        match cursor.peek_float() {
            Ok(true) => Ok(true),
            Ok(false) => cursor.peek_integer(),
            Err(e) => Err(e),
        }
    }

    fn display() -> &'static str {
        "a float"
    }
}

impl<'a> Item for FloatLit<'a> {
    ghost inside = { refl };
}

/// The number of a lane.
#[derive(Clone, Copy)]
pub struct LaneArg {
    pub lane: u8,
}

impl Meaning for LaneArg {
    ghost Tree = { ℕ };

    ghost tree = { λ a. a.lane };

    ghost syntax = { lane };

    fn lawful()
        ensures { Lawful (lane {N = Name} {P = ℕ}) }
    {}
}

impl<'a> Parse<'a> for LaneArg {
    fn parse(parser: &mut Parser<'a>) -> Result<Self, Error> {
        let lane = u8::parse(parser)?;
        Ok(LaneArg { lane })
    }
}

/// The numbers of sixteen lanes, of which those of the second vector count on from 16.
#[derive(Clone, Copy)]
pub struct I8x16Shuffle {
    pub lanes: [u8; 16],
}

impl Meaning for I8x16Shuffle {
    ghost Tree = { List ℕ };

    ghost tree = { λ s. s.lanes };

    ghost syntax = { shuffle };

    fn lawful()
        ensures { Lawful (shuffle {N = Name} {P = ℕ}) }
    {}
}

impl<'a> Parse<'a> for I8x16Shuffle {
    fn parse(parser: &mut Parser<'a>) -> Result<Self, Error> {
        let mut lanes = [0; 16];
        fill(parser, &mut lanes)?;
        Ok(I8x16Shuffle { lanes })
    }
}

/// A constant of 128 bits, by its lanes. Those of floats stay as they are written.
#[derive(Clone, Copy)]
pub enum V128Const<'a> {
    I8x16([i8; 16]),
    I16x8([i16; 8]),
    I32x4([i32; 4]),
    I64x2([i64; 2]),
    F32x4(FloatLit<'a>, FloatLit<'a>, FloatLit<'a>, FloatLit<'a>),
    F64x2(FloatLit<'a>, FloatLit<'a>),
}

impl<'a> Meaning for V128Const<'a> {
    ghost Tree = { spec.Vector };

    ghost tree = { vector_tree };

    ghost syntax = { vector };

    fn lawful()
        ensures { Lawful (vector {N = Name} {P = ℕ}) }
    {}
}

impl<'a> Parse<'a> for V128Const<'a> {
    fn parse(parser: &mut Parser<'a>) -> Result<Self, Error> {
        let (shape, _) = parser.among("expected a shape")?;
        parse_lanes(parser, shape)
    }
}

impl<'a> Peek for V128Const<'a> {
    ghost plain = { refl };

    ghost sure = { refl };

    fn leads()
        ensures { Leads (vector {N = Name} {P = ℕ}).spells shape_starts }
    {}

    fn peek(cursor: Cursor<'_, '_>) -> Result<bool, Error>
        ensures { Asks result (stands cursor.entry).source (ask shape_starts (ahead (stands cursor.entry))) }
    {
        cursor.peek_among::<Shape>()
    }

    fn display() -> &'static str {
        "a vector"
    }
}

impl<'a> Item for V128Const<'a> {
    ghost inside = { refl };
}

/// The shape of a vector.
#[derive(Clone, Copy)]
enum Shape {
    I8x16,
    I16x8,
    I32x4,
    I64x2,
    F32x4,
    F64x2,
}

impl WordSet for Shape {
    ghost Entry = { spec.Shape };

    ghost entry = { shape_tree };

    ghost word = { shape_word };

    ghost entries = { shapes };

    fn of(text: &[u8]) -> Option<Self> {
        if text == "i8x16".as_bytes() {
            Some(Shape::I8x16)
        } else if text == "i16x8".as_bytes() {
            Some(Shape::I16x8)
        } else if text == "i32x4".as_bytes() {
            Some(Shape::I32x4)
        } else if text == "i64x2".as_bytes() {
            Some(Shape::I64x2)
        } else if text == "f32x4".as_bytes() {
            Some(Shape::F32x4)
        } else if text == "f64x2".as_bytes() {
            Some(Shape::F64x2)
        } else {
            None
        }
    }
}

/// The lanes of a shape.
fn parse_lanes<'a>(parser: &mut Parser<'a>, shape: Shape) -> Result<V128Const<'a>, Error>
    ensures read { Gives vector_tree result parser.new ((lanes_of (shape_tree shape)).reads (ahead parser.old)) }
    ensures keeps { Keeps parser.old parser.new }
{
    match shape {
        Shape::I8x16 => {
            let mut lanes = [0; 16];
            fill(parser, &mut lanes)?;
            Ok(V128Const::I8x16(lanes))
        }
        Shape::I16x8 => {
            let mut lanes = [0; 8];
            fill(parser, &mut lanes)?;
            Ok(V128Const::I16x8(lanes))
        }
        Shape::I32x4 => {
            let mut lanes = [0; 4];
            fill(parser, &mut lanes)?;
            Ok(V128Const::I32x4(lanes))
        }
        Shape::I64x2 => {
            let mut lanes = [0; 2];
            fill(parser, &mut lanes)?;
            Ok(V128Const::I64x2(lanes))
        }
        Shape::F32x4 => parse_f32x4(parser),
        Shape::F64x2 => parse_f64x2(parser),
    }
}

fn parse_f32x4<'a>(parser: &mut Parser<'a>) -> Result<V128Const<'a>, Error>
    ensures read { Gives vector_tree result parser.new ((floats w32 4).reads (ahead parser.old)) }
    ensures keeps { Keeps parser.old parser.new }
{
    let a = FloatLit::parse(parser)?;
    let b = FloatLit::parse(parser)?;
    let c = FloatLit::parse(parser)?;
    let d = FloatLit::parse(parser)?;
    Ok(V128Const::F32x4(a, b, c, d))
}

fn parse_f64x2<'a>(parser: &mut Parser<'a>) -> Result<V128Const<'a>, Error>
    ensures read { Gives vector_tree result parser.new ((floats w64 2).reads (ahead parser.old)) }
    ensures keeps { Keeps parser.old parser.new }
{
    let a = FloatLit::parse(parser)?;
    let b = FloatLit::parse(parser)?;
    Ok(V128Const::F64x2(a, b))
}

/// Reads as many values as there are places, in their order.
fn fill<'a, T: Parse<'a> + Copy>(parser: &mut Parser<'a>, places: &mut [T]) -> Result<(), Error>
    requires { T.registers ≡ [] }
    ensures read { Gives (λ _. map T.tree places.new) result parser.new ((times (length places.old) T.syntax).reads (ahead parser.old)) }
    ensures keeps { Keeps parser.old parser.new }
{
    let mut i = 0;
    'places: while i < places.len() {
        match T::parse(parser) {
            Ok(value) => places[i] = value,
            Err(e) => return Err(e),
        }
        i += 1;
    }
    Ok(())
}

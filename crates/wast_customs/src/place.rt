//! Where a custom section stands among the others.
ghost use Rattle.std.specs.Prelude.{refl};
ghost use Rattle.wast_parser.specs.State.{ahead, Keeps};
ghost use Rattle.wast_parser.specs.Reading.{Gives};
ghost use Rattle.wast_customs.specs.CustomTree as spec;
ghost use Rattle.wast_customs.specs.CustomSyntax as syntax;
ghost use Rattle.wast_customs.specs.CustomSyntax.{anchor, anchors, anchor_word, sides, side_word, place_on, custom_place};
ghost use Rattle.wast_customs.specs.CustomViews.{anchor_view, side_view, place_tree};

use crate::keyword;
use wast_parser::{
    Cursor, Error, Item, Keyword, LParen, Meaning, Parse, Parser, Peek, Spelled, WordSet, closed,
    find_among,
};

/// A section that a place names.
#[derive(Clone, Copy, Debug, PartialEq, Eq)]
pub enum CustomPlaceAnchor {
    TypeItem,
    Import,
    Func,
    Table,
    Memory,
    Global,
    Export,
    Start,
    Elem,
    Code,
    Data,
    Tag,
}

/// Before the first section, before or after one, or after the last.
#[derive(Clone, Copy, Debug, PartialEq, Eq)]
pub enum CustomPlace {
    BeforeFirst,
    Before(CustomPlaceAnchor),
    After(CustomPlaceAnchor),
    AfterLast,
}

const ANCHORS: [CustomPlaceAnchor; 12] = [
    CustomPlaceAnchor::TypeItem,
    CustomPlaceAnchor::Import,
    CustomPlaceAnchor::Func,
    CustomPlaceAnchor::Table,
    CustomPlaceAnchor::Memory,
    CustomPlaceAnchor::Global,
    CustomPlaceAnchor::Export,
    CustomPlaceAnchor::Start,
    CustomPlaceAnchor::Elem,
    CustomPlaceAnchor::Code,
    CustomPlaceAnchor::Data,
    CustomPlaceAnchor::Tag,
];

impl WordSet for CustomPlaceAnchor {
    ghost Entry = { spec.Anchor };

    ghost entry = { anchor_view };

    ghost word = { anchor_word };

    ghost entries = { anchors };

    fn of(text: &[u8]) -> Option<Self> {
        find_among(&ANCHORS, text)
    }
}

impl Spelled for CustomPlaceAnchor {
    ghost Entry = { spec.Anchor };

    ghost entry = { anchor_view };

    ghost word = { anchor_word };

    fn text(self) -> &'static str {
        match self {
            CustomPlaceAnchor::TypeItem => "type",
            CustomPlaceAnchor::Import => "import",
            CustomPlaceAnchor::Func => "func",
            CustomPlaceAnchor::Table => "table",
            CustomPlaceAnchor::Memory => "memory",
            CustomPlaceAnchor::Global => "global",
            CustomPlaceAnchor::Export => "export",
            CustomPlaceAnchor::Start => "start",
            CustomPlaceAnchor::Elem => "elem",
            CustomPlaceAnchor::Code => "code",
            CustomPlaceAnchor::Data => "data",
            CustomPlaceAnchor::Tag => "tag",
        }
    }
}

impl Meaning for CustomPlaceAnchor {
    ghost Tree = { spec.Anchor };

    ghost tree = { anchor_view };

    ghost syntax = { anchor };

    fn lawful() {}
}

impl<'a> Parse<'a> for CustomPlaceAnchor {
    fn parse(parser: &mut Parser<'a>) -> Result<Self, Error> {
        let (anchor, _) = parser.among("expected a section")?;
        Ok(anchor)
    }
}

/// The two sides of a section.
#[derive(Clone, Copy)]
pub(crate) enum Side {
    Before,
    After,
}

const SIDES: [Side; 2] = [Side::Before, Side::After];

impl WordSet for Side {
    ghost Entry = { syntax.Side };

    ghost entry = { side_view };

    ghost word = { side_word };

    ghost entries = { sides };

    fn of(text: &[u8]) -> Option<Self> {
        find_among(&SIDES, text)
    }
}

impl Spelled for Side {
    ghost Entry = { syntax.Side };

    ghost entry = { side_view };

    ghost word = { side_word };

    fn text(self) -> &'static str {
        match self {
            Side::Before => "before",
            Side::After => "after",
        }
    }
}

impl Meaning for CustomPlace {
    ghost Tree = { spec.CustomPlace };

    ghost tree = { place_tree };

    ghost syntax = { custom_place };

    fn lawful() {}
}

impl<'a> Parse<'a> for CustomPlace {
    fn parse(parser: &mut Parser<'a>) -> Result<Self, Error> {
        LParen::parse(parser)?;
        let (side, _) = parser.among("expected `before` or `after`")?;
        let value = parse_place(parser, side)?;
        closed(parser, value)
    }
}

impl Peek for CustomPlace {
    ghost plain = { refl };

    ghost sure = { refl };

    fn leads() {}

    fn peek(cursor: Cursor<'_, '_>) -> Result<bool, Error> {
        cursor.peek_group_among::<Side>()
    }

    fn display() -> &'static str {
        "a place"
    }
}

impl Item for CustomPlace {
    ghost inside = { refl };
}

/// The place on this side of what is named.
fn parse_place(parser: &mut Parser<'_>, side: Side) -> Result<CustomPlace, Error>
    ensures read { Gives place_tree result parser.new ((place_on (side_view side)).reads (ahead parser.old)) }
    ensures keeps { Keeps parser.old parser.new }
{
    match side {
        Side::Before => parse_before(parser),
        Side::After => parse_after(parser),
    }
}

fn parse_before(parser: &mut Parser<'_>) -> Result<CustomPlace, Error>
    ensures read { Gives place_tree result parser.new ((place_on syntax.Ahead).reads (ahead parser.old)) }
    ensures keeps { Keeps parser.old parser.new }
{
    if parser.peek::<Keyword<keyword::First>>()? {
        parser.word("first")?;
        Ok(CustomPlace::BeforeFirst)
    } else {
        Ok(CustomPlace::Before(CustomPlaceAnchor::parse(parser)?))
    }
}

fn parse_after(parser: &mut Parser<'_>) -> Result<CustomPlace, Error>
    ensures read { Gives place_tree result parser.new ((place_on syntax.Behind).reads (ahead parser.old)) }
    ensures keeps { Keeps parser.old parser.new }
{
    if parser.peek::<Keyword<keyword::Last>>()? {
        parser.word("last")?;
        Ok(CustomPlace::AfterLast)
    } else {
        Ok(CustomPlace::After(CustomPlaceAnchor::parse(parser)?))
    }
}

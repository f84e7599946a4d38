//! The productions of custom fields.
ghost use Rattle.std.specs.Prelude.{ℕ, [], ◌∷◌, refl, codes, false};
ghost use Rattle.wast_grammar.specs.Tokens.{Name};
ghost use Rattle.wast_parser.specs.Look.{ask, this_annotation};
ghost use Rattle.wast_parser.specs.Lawful.{Lawful, Leads};
ghost use Rattle.wast_parser.specs.State.{ahead};
ghost use Rattle.wast_parser.specs.Reading.{Asks};
ghost use Rattle.wast_parser.specs.Cursors.{stands};
ghost use Rattle.wast_customs.specs.CustomTree as spec;
ghost use Rattle.wast_customs.specs.CustomSyntax.{raw_section, custom, custom_starts};
ghost use Rattle.wast_customs.specs.CustomViews.{raw_tree, custom_tree};

use crate::custom::{Custom, RawCustomSection};
use crate::dylink::Dylink0;
use crate::place::CustomPlace;
use crate::producers::Producers;
use wasm_encoder_base::Bytes;
use wast_parser::{Cursor, Error, Item, LParen, Meaning, Parse, Parser, Peek, closed_or, list_of};

impl<'a> Meaning for Custom<'a> {
    ghost Tree = { spec.Custom ℕ };

    ghost tree = { custom_tree };

    ghost syntax = { custom };

    fn lawful()
        ensures { Lawful (custom {N = Name} {P = ℕ}) }
    {}
}

impl<'a> Parse<'a> for Custom<'a> {
    fn parse(parser: &mut Parser<'a>) -> Result<Self, Error> {
        if parser.peek::<RawCustomSection<'a>>()? {
            Ok(Custom::Raw(RawCustomSection::parse(parser)?))
        } else if parser.peek::<Producers<'a>>()? {
            Ok(Custom::Producers(Producers::parse(parser)?))
        } else {
            Ok(Custom::Dylink0(Dylink0::parse(parser)?))
        }
    }
}

impl<'a> Peek for Custom<'a> {
    ghost plain = { refl };

    ghost sure = { refl };

    fn leads()
        ensures { Leads (custom {N = Name} {P = ℕ}).spells custom_starts }
    {}

    fn peek(cursor: Cursor<'_, '_>) -> Result<bool, Error>
        ensures { Asks result (stands cursor.entry).source (ask custom_starts (ahead (stands cursor.entry))) }
    {
        match cursor.peek_annotation("custom") {
            Ok(true) => Ok(true),
            Ok(false) => peek_tools(cursor),
            Err(e) => Err(e),
        }
    }

    fn display() -> &'static str {
        "a custom field"
    }
}

/// Whether producers begin here, or `dylink.0` does.
fn peek_tools(cursor: Cursor<'_, '_>) -> Result<bool, Error>
    ensures { Asks result (stands cursor.entry).source (ask (this_annotation (codes "producers") ∷ this_annotation (codes "dylink.0") ∷ []) (ahead (stands cursor.entry))) }
{
    match cursor.peek_annotation("producers") {
        Ok(true) => Ok(true),
        Ok(false) => cursor.peek_annotation("dylink.0"),
        Err(e) => Err(e),
    }
}

impl<'a> Item for Custom<'a> {
    ghost inside = { refl };
}

impl<'a> Meaning for RawCustomSection<'a> {
    ghost Tree = { spec.RawSection ℕ };

    ghost tree = { raw_tree };

    ghost syntax = { raw_section };

    fn lawful()
        ensures { Lawful (raw_section {N = Name} {P = ℕ}) }
    {}
}

impl<'a> Parse<'a> for RawCustomSection<'a> {
    fn parse(parser: &mut Parser<'a>) -> Result<Self, Error> {
        LParen::parse(parser)?;
        let span = parser.mark("custom")?;
        let name = parser.name()?;
        let place: Option<CustomPlace> = Option::parse(parser)?;
        let bytes: Vec<Bytes<'a>> = list_of(parser)?;
        let expected = expected_behind(&place, &bytes);
        let (name, place, bytes) = closed_or(parser, (name, place, bytes), expected)?;
        Ok(RawCustomSection {
            span,
            name,
            place: place.unwrap_or(CustomPlace::AfterLast),
            bytes,
        })
    }
}

/// What is said where such a field doesn't go on behind this place and these strings.
fn expected_behind(place: &Option<CustomPlace>, strings: &[Bytes<'_>]) -> &'static str {
    if place.is_none() && strings.is_empty() {
        "expected `(before`, `(after`, a string or `)`"
    } else {
        "expected a string or `)`"
    }
}

impl<'a> Peek for RawCustomSection<'a> {
    ghost plain = { refl };

    ghost sure = { refl };

    fn leads()
        ensures { Leads (raw_section {N = Name} {P = ℕ}).spells (this_annotation (codes "custom") ∷ []) }
    {}

    fn peek(cursor: Cursor<'_, '_>) -> Result<bool, Error>
        ensures { Asks result (stands cursor.entry).source (ask (this_annotation (codes "custom") ∷ []) (ahead (stands cursor.entry))) }
    {
        cursor.peek_annotation("custom")
    }

    fn display() -> &'static str {
        "a custom section"
    }
}

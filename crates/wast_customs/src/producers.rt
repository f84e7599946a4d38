//! What producers say of themselves.
ghost use Rattle.std.specs.Prelude.{ℕ, [], ◌∷◌, refl, codes};
ghost use Rattle.wast_grammar.specs.Tokens.{Name};
ghost use Rattle.wast_parser.specs.Look.{ask, this_annotation};
ghost use Rattle.wast_parser.specs.Lawful.{Lawful, Leads};
ghost use Rattle.wast_parser.specs.State.{ahead};
ghost use Rattle.wast_parser.specs.Reading.{Asks};
ghost use Rattle.wast_parser.specs.Cursors.{stands};
ghost use Rattle.wast_customs.specs.CustomTree as spec;
ghost use Rattle.wast_customs.specs.CustomSyntax.{producer_word, producer_kinds, producer_starts, producer, producers};
ghost use Rattle.wast_customs.specs.CustomViews.{kind_view, producer_tree, producers_tree};

use std::alloc::Global;
use std::borrow::CowStr;
use wast_lexer::Span;
use wast_parser::{
    Cursor, Error, Item, LParen, Meaning, Parse, Parser, Peek, Spelled, WordSet, closed, closed_or,
    find_among, list_of,
};

/// What producers say of themselves: `(@producers (language "C" "23") ..)`, in the order in which it is written.
#[derive(Drop)]
pub struct Producers<'a> {
    /// Where the annotation's name stands.
    pub span: Span,
    pub fields: Vec<Producer<'a>>,
}

/// A producer, what it did, and its version.
#[derive(Drop)]
pub struct Producer<'a> {
    pub kind: ProducerKind,
    pub name: CowStr<'a, Global>,
    pub version: CowStr<'a, Global>,
}

/// The fields of the section of producers.
#[derive(Clone, Copy, Debug, PartialEq, Eq)]
pub enum ProducerKind {
    Language,
    Sdk,
    ProcessedBy,
}

const KINDS: [ProducerKind; 3] = [
    ProducerKind::Language,
    ProducerKind::Sdk,
    ProducerKind::ProcessedBy,
];

impl WordSet for ProducerKind {
    ghost Entry = { spec.ProducerKind };

    ghost entry = { kind_view };

    ghost word = { producer_word };

    ghost entries = { producer_kinds };

    fn of(text: &[u8]) -> Option<Self> {
        find_among(&KINDS, text)
    }
}

impl Spelled for ProducerKind {
    ghost Entry = { spec.ProducerKind };

    ghost entry = { kind_view };

    ghost word = { producer_word };

    fn text(self) -> &'static str {
        match self {
            ProducerKind::Language => "language",
            ProducerKind::Sdk => "sdk",
            ProducerKind::ProcessedBy => "processed-by",
        }
    }
}

impl<'a> Meaning for Producers<'a> {
    ghost Tree = { spec.Producers ℕ };

    ghost tree = { producers_tree };

    ghost syntax = { producers };

    fn lawful()
        ensures { Lawful (producers {N = Name} {P = ℕ}) }
    {}
}

impl<'a> Parse<'a> for Producers<'a> {
    fn parse(parser: &mut Parser<'a>) -> Result<Self, Error> {
        LParen::parse(parser)?;
        let span = parser.mark("producers")?;
        let fields = list_of(parser)?;
        let expected = "expected `(language`, `(sdk`, `(processed-by` or `)`";
        let fields = closed_or(parser, fields, expected)?;
        Ok(Producers { span, fields })
    }
}

impl<'a> Peek for Producers<'a> {
    ghost plain = { refl };

    ghost sure = { refl };

    fn leads()
        ensures { Leads (producers {N = Name} {P = ℕ}).spells (this_annotation (codes "producers") ∷ []) }
    {}

    fn peek(cursor: Cursor<'_, '_>) -> Result<bool, Error>
        ensures { Asks result (stands cursor.entry).source (ask (this_annotation (codes "producers") ∷ []) (ahead (stands cursor.entry))) }
    {
        cursor.peek_annotation("producers")
    }

    fn display() -> &'static str {
        "producers"
    }
}

impl<'a> Meaning for Producer<'a> {
    ghost Tree = { spec.Producer };

    ghost tree = { producer_tree };

    ghost syntax = { producer };

    fn lawful()
        ensures { Lawful (producer {N = Name} {P = ℕ}) }
    {}
}

impl<'a> Parse<'a> for Producer<'a> {
    fn parse(parser: &mut Parser<'a>) -> Result<Self, Error> {
        LParen::parse(parser)?;
        let (kind, _) = parser.among("expected `language`, `sdk` or `processed-by`")?;
        let name = parser.name()?;
        let version = parser.name()?;
        let (name, version) = closed(parser, (name, version))?;
        Ok(Producer {
            kind,
            name,
            version,
        })
    }
}

impl<'a> Peek for Producer<'a> {
    ghost plain = { refl };

    ghost sure = { refl };

    fn leads()
        ensures { Leads (producer {N = Name} {P = ℕ}).spells producer_starts }
    {}

    fn peek(cursor: Cursor<'_, '_>) -> Result<bool, Error>
        ensures { Asks result (stands cursor.entry).source (ask producer_starts (ahead (stands cursor.entry))) }
    {
        cursor.peek_group_among::<ProducerKind>()
    }

    fn display() -> &'static str {
        "a producer"
    }
}

impl<'a> Item for Producer<'a> {
    ghost inside = { refl };
}

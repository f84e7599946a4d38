//! Exports.
ghost use Rattle.std.specs.Prelude.{◌≡◌, ℕ, refl};
ghost use Rattle.wast_grammar.specs.Tokens.{Name};
ghost use Rattle.wast_parser.specs.Lawful.{Lawful};
ghost use Rattle.wast_parser.specs.State.{ahead, Keeps};
ghost use Rattle.wast_parser.specs.Reading.{Gives};
ghost use Rattle.wast_parser.specs.Identifiers.{index_tree};
ghost use Rattle.wast_exports.specs.Exports as spec;
ghost use Rattle.wast_exports.specs.Exports.{export_word, export_kinds, export_kind, exported, export};
ghost use Rattle.wast_exports.specs.ExportViews.{kind_view, export_tree};

use crate::keyword;
use std::alloc::Global;
use std::borrow::CowStr;
use wast_lexer::Span;
use wast_parser::{
    Cursor, Error, Index, Item, Keyword, LParen, Meaning, Parse, Parser, Peek, Spelled, WordSet,
    closed, find_among, pair, required,
};

/// An export: `(export "name" (func $f))` (6.6, exports).
#[derive(Drop)]
pub struct Export<'a> {
    /// Where the word `export` stands.
    pub span: Span,
    pub name: CowStr<'a, Global>,
    pub kind: ExportKind,
    pub item: Index<'a>,
}

/// What may be exported.
#[derive(Clone, Copy, Debug, PartialEq, Eq)]
pub enum ExportKind {
    Func,
    Table,
    Memory,
    Global,
    Tag,
}

const KINDS: [ExportKind; 5] = [
    ExportKind::Func,
    ExportKind::Table,
    ExportKind::Memory,
    ExportKind::Global,
    ExportKind::Tag,
];

impl WordSet for ExportKind {
    ghost Entry = { spec.ExportKind };

    ghost entry = { kind_view };

    ghost word = { export_word };

    ghost entries = { export_kinds };

    fn of(text: &[u8]) -> Option<Self> {
        find_among(&KINDS, text)
    }
}

impl Spelled for ExportKind {
    ghost Entry = { spec.ExportKind };

    ghost entry = { kind_view };

    ghost word = { export_word };

    fn text(self) -> &'static str {
        match self {
            ExportKind::Func => "func",
            ExportKind::Table => "table",
            ExportKind::Memory => "memory",
            ExportKind::Global => "global",
            ExportKind::Tag => "tag",
        }
    }
}

impl Meaning for ExportKind {
    ghost Tree = { spec.ExportKind };

    ghost tree = { kind_view };

    ghost syntax = { export_kind };

    fn lawful() {}
}

impl<'a> Parse<'a> for ExportKind {
    fn parse(parser: &mut Parser<'a>) -> Result<Self, Error> {
        let (kind, _) = parser.among("expected `func`, `table`, `memory`, `global` or `tag`")?;
        Ok(kind)
    }
}

impl Peek for ExportKind {
    ghost plain = { refl };

    ghost sure = { refl };

    fn leads() {}

    fn peek(cursor: Cursor<'_, '_>) -> Result<bool, Error> {
        cursor.peek_among::<ExportKind>()
    }

    fn display() -> &'static str {
        "a kind of export"
    }
}

impl Item for ExportKind {
    ghost inside = { refl };
}

impl<'a> Meaning for Export<'a> {
    ghost Tree = { spec.Export Name ℕ };

    ghost tree = { export_tree };

    ghost syntax = { export };

    fn lawful()
        ensures { Lawful (export {N = Name} {P = ℕ}) }
    {}
}

impl<'a> Parse<'a> for Export<'a> {
    fn parse(parser: &mut Parser<'a>) -> Result<Self, Error> {
        LParen::parse(parser)?;
        let span = parser.word("export")?;
        let name = parser.name()?;
        let (kind, item) = parse_exported(parser)?;
        let (name, kind, item) = closed(parser, (name, kind, item))?;
        Ok(Export {
            span,
            name,
            kind,
            item,
        })
    }
}

/// What is exported: `(func $f)`.
fn parse_exported<'a>(parser: &mut Parser<'a>) -> Result<(ExportKind, Index<'a>), Error>
    ensures read { Gives (λ e. (kind_view e.0, index_tree e.1)) result parser.new (exported.reads (ahead parser.old)) }
    ensures keeps { Keeps parser.old parser.new }
{
    required::<LParen>(
        parser,
        "expected `(func`, `(table`, `(memory`, `(global` or `(tag`",
    )?;
    let exported = pair(parser)?;
    closed(parser, exported)
}

impl From<Keyword<keyword::Func>> for ExportKind {
    ghost use Rattle.wast_exports.specs.declared.export.ExportKind.TheVariants as kinds;

    ghost from_gives = { λ _ kind. kind ≡ kinds.Func };

    fn from(_keyword: Keyword<keyword::Func>) -> Self {
        ExportKind::Func
    }
}

impl From<Keyword<keyword::Table>> for ExportKind {
    ghost use Rattle.wast_exports.specs.declared.export.ExportKind.TheVariants as kinds;

    ghost from_gives = { λ _ kind. kind ≡ kinds.Table };

    fn from(_keyword: Keyword<keyword::Table>) -> Self {
        ExportKind::Table
    }
}

impl From<Keyword<keyword::Memory>> for ExportKind {
    ghost use Rattle.wast_exports.specs.declared.export.ExportKind.TheVariants as kinds;

    ghost from_gives = { λ _ kind. kind ≡ kinds.Memory };

    fn from(_keyword: Keyword<keyword::Memory>) -> Self {
        ExportKind::Memory
    }
}

impl From<Keyword<keyword::Global>> for ExportKind {
    ghost use Rattle.wast_exports.specs.declared.export.ExportKind.TheVariants as kinds;

    ghost from_gives = { λ _ kind. kind ≡ kinds.Global };

    fn from(_keyword: Keyword<keyword::Global>) -> Self {
        ExportKind::Global
    }
}

impl From<Keyword<keyword::Tag>> for ExportKind {
    ghost use Rattle.wast_exports.specs.declared.export.ExportKind.TheVariants as kinds;

    ghost from_gives = { λ _ kind. kind ≡ kinds.Tag };

    fn from(_keyword: Keyword<keyword::Tag>) -> Self {
        ExportKind::Tag
    }
}

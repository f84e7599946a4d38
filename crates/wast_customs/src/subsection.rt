//! The groups of `dylink.0`.
ghost use Rattle.std.specs.Prelude.{◌≡◌, ℕ, Option, refl, option_map, unwrap_or};
ghost use Rattle.wast_grammar.specs.Tokens.{Name};
ghost use Rattle.wast_parser.specs.Look.{ask};
ghost use Rattle.wast_parser.specs.Lawful.{Lawful, Leads};
ghost use Rattle.wast_parser.specs.State.{ahead, Keeps};
ghost use Rattle.wast_parser.specs.Reading.{Asks, Gives};
ghost use Rattle.wast_parser.specs.Cursors.{stands};
ghost use Rattle.wast_customs.specs.CustomTree as spec;
ghost use Rattle.wast_customs.specs.DylinkSyntax as words;
ghost use Rattle.wast_customs.specs.DylinkSyntax.{group_word, group_kinds, group_starts, extent, within, dylink_group};
ghost use Rattle.wast_customs.specs.CustomViews.{group_view, subsection_tree};

use crate::dylink::Dylink0Subsection;
use crate::flag::parse_flags;
use crate::keyword;
use std::marker::PhantomData;
use wast_parser::{
    Cursor, Error, Item, Keyword, KeywordName, LParen, Meaning, Parse, Parser, Peek, Spelled,
    WordSet, closed, closed_or, find_among, list_of, pair,
};

/// What a group speaks of.
#[derive(Clone, Copy)]
pub(crate) enum GroupKind {
    MemInfo,
    Needed,
    ExportInfo,
    ImportInfo,
    RuntimePath,
}

const KINDS: [GroupKind; 5] = [
    GroupKind::MemInfo,
    GroupKind::Needed,
    GroupKind::ExportInfo,
    GroupKind::ImportInfo,
    GroupKind::RuntimePath,
];

impl WordSet for GroupKind {
    ghost Entry = { words.GroupKind };

    ghost entry = { group_view };

    ghost word = { group_word };

    ghost entries = { group_kinds };

    fn of(text: &[u8]) -> Option<Self> {
        find_among(&KINDS, text)
    }
}

impl Spelled for GroupKind {
    ghost Entry = { words.GroupKind };

    ghost entry = { group_view };

    ghost word = { group_word };

    fn text(self) -> &'static str {
        match self {
            GroupKind::MemInfo => "mem-info",
            GroupKind::Needed => "needed",
            GroupKind::ExportInfo => "export-info",
            GroupKind::ImportInfo => "import-info",
            GroupKind::RuntimePath => "runtime-path",
        }
    }
}

impl Dylink0Subsection<'_> {
    /// What is said where a group doesn't go on behind this.
    fn expected_behind(&self) -> &'static str {
        match self {
            Dylink0Subsection::MemInfo { .. } => "expected `)`",
            Dylink0Subsection::Needed(_) | Dylink0Subsection::RuntimePath(_) => {
                "expected a string or `)`"
            }
            Dylink0Subsection::ExportInfo(_) | Dylink0Subsection::ImportInfo(_) => {
                "expected a flag or `)`"
            }
        }
    }
}

/// A group in parentheses.
impl<'a> Meaning for Dylink0Subsection<'a> {
    ghost Tree = { spec.Subsection };

    ghost tree = { subsection_tree };

    ghost syntax = { dylink_group };

    fn lawful()
        ensures { Lawful (dylink_group {N = Name} {P = ℕ}) }
    {}
}

impl<'a> Parse<'a> for Dylink0Subsection<'a> {
    fn parse(parser: &mut Parser<'a>) -> Result<Self, Error> {
        LParen::parse(parser)?;
        let (kind, _) = parser.among("expected a group of dylink.0")?;
        let value = parse_within(parser, kind)?;
        let expected = value.expected_behind();
        closed_or(parser, value, expected)
    }
}

impl<'a> Peek for Dylink0Subsection<'a> {
    ghost plain = { refl };

    ghost sure = { refl };

    fn leads()
        ensures { Leads (dylink_group {N = Name} {P = ℕ}).spells group_starts }
    {}

    fn peek(cursor: Cursor<'_, '_>) -> Result<bool, Error>
        ensures { Asks result (stands cursor.entry).source (ask group_starts (ahead (stands cursor.entry))) }
    {
        cursor.peek_group_among::<GroupKind>()
    }

    fn display() -> &'static str {
        "a group of dylink.0"
    }
}

impl<'a> Item for Dylink0Subsection<'a> {
    ghost inside = { refl };
}

/// What stands behind the word of a group.
fn parse_within<'a>(
    parser: &mut Parser<'a>,
    kind: GroupKind,
) -> Result<Dylink0Subsection<'a>, Error>
    ensures read { Gives subsection_tree result parser.new ((within (group_view kind)).reads (ahead parser.old)) }
    ensures keeps { Keeps parser.old parser.new }
{
    match kind {
        GroupKind::MemInfo => parse_mem_info(parser),
        GroupKind::Needed => Ok(Dylink0Subsection::Needed(list_of(parser)?)),
        GroupKind::ExportInfo => parse_export_info(parser),
        GroupKind::ImportInfo => parse_import_info(parser),
        GroupKind::RuntimePath => Ok(Dylink0Subsection::RuntimePath(list_of(parser)?)),
    }
}

fn parse_mem_info<'a>(parser: &mut Parser<'a>) -> Result<Dylink0Subsection<'a>, Error>
    ensures read { Gives subsection_tree result parser.new ((within words.MemInfoGroup).reads (ahead parser.old)) }
    ensures keeps { Keeps parser.old parser.new }
{
    let memory: Option<Extent<keyword::Memory>> = Option::parse(parser)?;
    let table: Option<Extent<keyword::Table>> = Option::parse(parser)?;
    let (memory_size, memory_align) = size_and_align(memory);
    let (table_size, table_align) = size_and_align(table);
    Ok(Dylink0Subsection::MemInfo {
        memory_size,
        memory_align,
        table_size,
        table_align,
    })
}

fn parse_export_info<'a>(parser: &mut Parser<'a>) -> Result<Dylink0Subsection<'a>, Error>
    ensures read { Gives subsection_tree result parser.new ((within words.ExportInfoGroup).reads (ahead parser.old)) }
    ensures keeps { Keeps parser.old parser.new }
{
    let name = parser.name()?;
    let flags = parse_flags(parser)?;
    let mut exports = Vec::new(parser.alloc());
    exports.push((name, flags))?;
    Ok(Dylink0Subsection::ExportInfo(exports))
}

fn parse_import_info<'a>(parser: &mut Parser<'a>) -> Result<Dylink0Subsection<'a>, Error>
    ensures read { Gives subsection_tree result parser.new ((within words.ImportInfoGroup).reads (ahead parser.old)) }
    ensures keeps { Keeps parser.old parser.new }
{
    let module = parser.name()?;
    let name = parser.name()?;
    let flags = parse_flags(parser)?;
    let mut imports = Vec::new(parser.alloc());
    imports.push((module, name, flags))?;
    Ok(Dylink0Subsection::ImportInfo(imports))
}

/// The size and the alignment of a memory or a table, behind its word.
#[derive(Drop)]
struct Extent<N> {
    size: u32,
    align: u32,
    of: PhantomData<N>,
}

impl<N: KeywordName> Meaning for Extent<N> {
    ghost Tree = { ℕ × ℕ };

    ghost tree = { λ e. (e.size, e.align) };

    ghost syntax = { extent N.word };

    fn lawful() {}
}

impl<'a, N: KeywordName> Parse<'a> for Extent<N> {
    fn parse(parser: &mut Parser<'a>) -> Result<Self, Error> {
        LParen::parse(parser)?;
        let _word: Keyword<N> = Keyword::parse(parser)?;
        let extent = pair(parser)?;
        let (size, align) = closed(parser, extent)?;
        Ok(Extent {
            size,
            align,
            of: PhantomData,
        })
    }
}

impl<N: KeywordName> Peek for Extent<N> {
    ghost plain = { refl };

    ghost sure = { refl };

    fn leads() {}

    fn peek(cursor: Cursor<'_, '_>) -> Result<bool, Error> {
        cursor.peek_group(N::text())
    }

    fn display() -> &'static str {
        N::text()
    }
}

impl<N: KeywordName> Item for Extent<N> {
    ghost inside = { refl };
}

/// Both are 0 where they aren't written.
fn size_and_align<N>(extent: Option<Extent<N>>) -> (u32, u32)
    ensures { result ≡ unwrap_or (option_map (λ e. (e.size, e.align)) extent) (0, 0) }
{
    match extent {
        Some(extent) => (extent.size, extent.align),
        None => (0, 0),
    }
}

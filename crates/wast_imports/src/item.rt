//! External types, and items.
ghost use Rattle.std.specs.Prelude.{ℕ, [], Option, refl};
ghost use Rattle.wast_signatures.specs.Tokens.{Name};
ghost use Rattle.wast_signatures.specs.Look.{ask};
ghost use Rattle.wast_signatures.specs.Grammar.{among};
ghost use Rattle.wast_signatures.specs.Lawful.{Lawful, Leads};
ghost use Rattle.wast_signatures.specs.State.{ahead, Keeps};
ghost use Rattle.wast_signatures.specs.Reading.{Asks, Gives};
ghost use Rattle.wast_signatures.specs.Cursors.{stands};
ghost use Rattle.wast_signatures.specs.TypeTree as types;
ghost use Rattle.wast_signatures.specs.TypeSyntax.{type_use};
ghost use Rattle.wast_exports.specs.Exports.{export_word, export_kinds};
ghost use Rattle.wast_exports.specs.ExportViews.{kind_view};
ghost use Rattle.wast_imports.specs.ImportTree as spec;
ghost use Rattle.wast_imports.specs.ImportSyntax.{item_starts, exact_use, func_type, extern_type, item, bare_item};
ghost use Rattle.wast_signatures.specs.SignatureViews.{use_tree};
ghost use Rattle.wast_imports.specs.ImportViews.{tag_tree, extern_tree, item_tree};

use crate::head::Head;
use wast_exports::ExportKind;
use wast_signatures::{
    Body, Cursor, Error, FunctionType, Id, Item, LParen, Meaning, NameAnnotation, Parse, Parser,
    Peek, Span, TypeUse, closed_or,
};
use wast_value_types::keyword::Exact;
use wast_value_types::{GlobalType, Group, MemoryType, TableType};
use wast_words::required;

/// What is imported or exported (6.4.13), with what it is called: `(func $f (param i32))`.
#[derive(Drop)]
pub struct ItemSig<'a> {
    /// Where the word `func`, `table`, `memory`, `global` or `tag` stands.
    pub span: Span,
    pub id: Option<Id<'a>>,
    /// The name that an annotation gives it.
    pub name: Option<NameAnnotation<'a>>,
    pub kind: ItemKind<'a>,
}

/// An external type (6.4.13).
#[derive(Drop)]
pub enum ItemKind<'a> {
    Func(TypeUse<'a, FunctionType<'a>>),
    /// A function of exactly this type; a proposal's.
    FuncExact(TypeUse<'a, FunctionType<'a>>),
    Table(TableType<'a>),
    Memory(MemoryType),
    Global(GlobalType<'a>),
    Tag(TagType<'a>),
}

/// The type of a tag (6.4.9).
#[derive(Drop)]
pub enum TagType<'a> {
    Exception(TypeUse<'a, FunctionType<'a>>),
}

impl ItemKind<'_> {
    /// What is said where the group of an item of this type doesn't go on.
    fn expected_behind(&self) -> &'static str {
        match self {
            ItemKind::Func(ty) => expected_behind_use(ty),
            ItemKind::Tag(TagType::Exception(ty)) => expected_behind_use(ty),
            ItemKind::FuncExact(_)
            | ItemKind::Table(_)
            | ItemKind::Memory(_)
            | ItemKind::Global(_) => "expected `)`",
        }
    }
}

/// What is said where a group that ends with this use of a type doesn't go on.
pub fn expected_behind_use(ty: &TypeUse<'_, FunctionType<'_>>) -> &'static str {
    match &ty.inline {
        Some(signature) => signature.expected_behind(),
        None => match &ty.index {
            Some(_) => "expected `(param`, `(result` or `)`",
            None => "expected `(type`, `(param`, `(result` or `)`",
        },
    }
}

impl<'a> Meaning for TagType<'a> {
    ghost Tree = { types.TypeUse Name ℕ };

    ghost tree = { tag_tree };

    ghost syntax = { type_use };

    fn lawful()
        ensures { Lawful (type_use {N = Name} {P = ℕ}) }
    {}
}

impl<'a> Parse<'a> for TagType<'a> {
    fn parse(parser: &mut Parser<'a>) -> Result<Self, Error> {
        let ty = TypeUse::parse(parser)?;
        Ok(TagType::Exception(ty))
    }
}

impl<'a> Meaning for ItemSig<'a> {
    ghost Tree = { spec.Item Name ℕ };

    ghost tree = { item_tree };

    ghost syntax = { item };

    fn lawful()
        ensures { Lawful (item {N = Name} {P = ℕ}) }
    {}
}

impl<'a> Parse<'a> for ItemSig<'a> {
    fn parse(parser: &mut Parser<'a>) -> Result<Self, Error> {
        required::<LParen>(
            parser,
            "expected `(func`, `(table`, `(memory`, `(global` or `(tag`",
        )?;
        let (word, span) = parse_word(parser)?;
        let head = Head::parse(parser)?;
        let kind = parse_kind(parser, word)?;
        let expected = kind.expected_behind();
        let (head, kind) = closed_or(parser, (head, kind), expected)?;
        Ok(ItemSig {
            span,
            id: head.id,
            name: head.name,
            kind,
        })
    }
}

impl<'a> Peek for ItemSig<'a> {
    ghost plain = { refl };

    ghost sure = { refl };

    fn leads()
        ensures { Leads (item {N = Name} {P = ℕ}).spells item_starts }
    {}

    fn peek(cursor: Cursor<'_, '_>) -> Result<bool, Error>
        ensures { Asks result (stands cursor.entry).source (ask item_starts (ahead (stands cursor.entry))) }
    {
        cursor.peek_group_among::<ExportKind>()
    }

    fn display() -> &'static str {
        "an item"
    }
}

impl<'a> Item for ItemSig<'a> {
    ghost inside = { refl };
}

/// Reads an item that is called nothing.
pub(crate) fn parse_bare<'a>(parser: &mut Parser<'a>) -> Result<ItemSig<'a>, Error>
    ensures read { Gives item_tree result parser.new (bare_item.reads (ahead parser.old)) }
    ensures keeps { Keeps parser.old parser.new }
{
    required::<LParen>(
        parser,
        "expected `(item`, `(func`, `(table`, `(memory`, `(global` or `(tag`",
    )?;
    let (word, span) = parse_word(parser)?;
    let kind = parse_kind(parser, word)?;
    let expected = kind.expected_behind();
    let kind = closed_or(parser, kind, expected)?;
    Ok(ItemSig {
        span,
        id: None,
        name: None,
        kind,
    })
}

/// Reads the word of an item; answers where it stands too.
fn parse_word(parser: &mut Parser<'_>) -> Result<(ExportKind, Span), Error>
    ensures read { Gives (λ w. (kind_view w.0, w.1)) result parser.new ((among export_word export_kinds []).reads (ahead parser.old)) }
    ensures keeps { Keeps parser.old parser.new }
{
    parser.among("expected `func`, `table`, `memory`, `global` or `tag`")
}

/// Reads the type that stands behind this word, and behind what the item is called.
fn parse_kind<'a>(parser: &mut Parser<'a>, word: ExportKind) -> Result<ItemKind<'a>, Error>
    ensures read { Gives extern_tree result parser.new ((extern_type (kind_view word)).reads (ahead parser.old)) }
    ensures keeps { Keeps parser.old parser.new }
{
    match word {
        ExportKind::Func => parse_func(parser),
        ExportKind::Table => Ok(ItemKind::Table(TableType::parse(parser)?)),
        ExportKind::Memory => Ok(ItemKind::Memory(MemoryType::parse(parser)?)),
        ExportKind::Global => Ok(ItemKind::Global(GlobalType::parse(parser)?)),
        ExportKind::Tag => Ok(ItemKind::Tag(TagType::parse(parser)?)),
    }
}

/// Reads the type of a function.
fn parse_func<'a>(parser: &mut Parser<'a>) -> Result<ItemKind<'a>, Error>
    ensures read { Gives extern_tree result parser.new (func_type.reads (ahead parser.old)) }
    ensures keeps { Keeps parser.old parser.new }
{
    if parser.peek::<Group<Exact>>()? {
        Ok(ItemKind::FuncExact(parse_exact(parser)?))
    } else {
        Ok(ItemKind::Func(TypeUse::parse(parser)?))
    }
}

/// Reads `(exact (type 0))`, the type of an imported function of exactly this type; a proposal's. Refused where none is spelled here, or for
/// want of memory.
pub fn parse_exact<'a>(parser: &mut Parser<'a>) -> Result<TypeUse<'a, FunctionType<'a>>, Error>
    ensures read { Gives use_tree result parser.new (exact_use.reads (ahead parser.old)) }
    ensures keeps { Keeps parser.old parser.new }
{
    LParen::parse(parser)?;
    parser.word("exact")?;
    let ty = TypeUse::parse(parser)?;
    let expected = expected_behind_use(&ty);
    closed_or(parser, ty, expected)
}

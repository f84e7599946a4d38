//! Fields of modules.
ghost use Rattle.std.specs.Prelude.{◌≡◌, ℕ, refl};
ghost use Rattle.wast_grammar.specs.Tokens.{Name};
ghost use Rattle.wast_parser.specs.Look.{ask};
ghost use Rattle.wast_parser.specs.Lawful.{Lawful, Leads};
ghost use Rattle.wast_parser.specs.State.{ahead, Keeps};
ghost use Rattle.wast_parser.specs.Reading.{Asks, Gives};
ghost use Rattle.wast_parser.specs.Cursors.{stands};
ghost use Rattle.wast_fields.specs.FieldTree as spec;
ghost use Rattle.wast_fields.specs.FieldTree.{field_place};
ghost use Rattle.wast_module_fields.specs.FieldSyntax.{defining_starts, field_starts, defining, describing, field};
ghost use Rattle.wast_module_fields.specs.ModuleFieldViews.{field_tree};

use crate::field_word::FieldWord;
use crate::keyword as words;
use crate::start::Start;
use wast_core_types::{Rec, TypeItem};
use wast_customs::Custom;
use wast_exports::{Export, ExportKind, InlineExport, InlineImport, keyword};
use wast_fields::{Data, Elem, Func, Global, Memory, Table, Tag};
use wast_imports::Imports;
use wast_parser::{Cursor, Error, Item, Meaning, Parse, Parser, Peek, Span, required};
use wast_value_types::{Group, or_peek};

/// A field of a module (6.6, modules).
#[derive(Drop)]
pub enum ModuleField<'a> {
    TypeItem(TypeItem<'a>),
    Rec(Rec<'a>),
    Import(Imports<'a>),
    Func(Func<'a>),
    Table(Table<'a>),
    Memory(Memory<'a>),
    Global(Global<'a>),
    Export(Export<'a>),
    Start(Start<'a>),
    Elem(Elem<'a>),
    Data(Data<'a>),
    Tag(Tag<'a>),
    /// An annotation that the parser has registered.
    Custom(Custom<'a>),
}

impl ModuleField<'_> {
    /// Where the keyword stands; of an annotation, where it does.
    pub fn span(&self) -> Span
        ensures { result ≡ field_place (field_tree self.now) }
    {
        match self {
            ModuleField::TypeItem(item) => item.span,
            ModuleField::Rec(group) => group.span,
            ModuleField::Import(imports) => imports.span,
            ModuleField::Func(func) => func.span,
            ModuleField::Table(table) => table.span,
            ModuleField::Memory(memory) => memory.span,
            ModuleField::Global(global) => global.span,
            ModuleField::Export(export) => export.span,
            ModuleField::Start(start) => start.span,
            ModuleField::Elem(elem) => elem.span,
            ModuleField::Data(data) => data.span,
            ModuleField::Tag(tag) => tag.span,
            ModuleField::Custom(custom) => custom.span(),
        }
    }
}

impl<'a> Meaning for ModuleField<'a> {
    ghost Tree = { spec.Field Name ℕ };

    ghost tree = { field_tree };

    ghost syntax = { field };

    fn lawful()
        ensures { Lawful (field {N = Name} {P = ℕ}) }
    {}
}

impl<'a> Parse<'a> for ModuleField<'a> {
    fn parse(parser: &mut Parser<'a>) -> Result<Self, Error> {
        if parser.peek::<TypeItem<'a>>()? {
            Ok(ModuleField::TypeItem(TypeItem::parse(parser)?))
        } else if parser.peek::<Group<words::Rec>>()? {
            Ok(ModuleField::Rec(Rec::parse(parser)?))
        } else if parser.peek::<InlineImport<'a>>()? {
            Ok(ModuleField::Import(Imports::parse(parser)?))
        } else if parser.peek::<Defining<'a>>()? {
            parse_defining(parser)
        } else {
            parse_describing(parser)
        }
    }
}

impl<'a> Peek for ModuleField<'a> {
    ghost plain = { refl };

    ghost sure = { refl };

    fn leads()
        ensures { Leads (field {N = Name} {P = ℕ}).spells field_starts }
    {}

    fn peek(cursor: Cursor<'_, '_>) -> Result<bool, Error>
        ensures { Asks result (stands cursor.entry).source (ask field_starts (ahead (stands cursor.entry))) }
    {
        let found = cursor.peek_group_among::<FieldWord>();
        or_peek::<Custom>(found, cursor)
    }

    fn display() -> &'static str {
        "a field of a module"
    }
}

impl<'a> Item for ModuleField<'a> {
    ghost inside = { refl };
}

/// A field that defines a function, a table, a memory, a global or a tag, as it is looked for.
#[derive(Drop)]
struct Defining<'a> {
    field: ModuleField<'a>,
}

impl<'a> Meaning for Defining<'a> {
    ghost Tree = { spec.Field Name ℕ };

    ghost tree = { λ d. field_tree d.field };

    ghost syntax = { defining };

    fn lawful()
        ensures { Lawful (defining {N = Name} {P = ℕ}) }
    {}
}

impl<'a> Peek for Defining<'a> {
    ghost plain = { refl };

    ghost sure = { refl };

    fn leads()
        ensures { Leads (defining {N = Name} {P = ℕ}).spells defining_starts }
    {}

    fn peek(cursor: Cursor<'_, '_>) -> Result<bool, Error>
        ensures { Asks result (stands cursor.entry).source (ask defining_starts (ahead (stands cursor.entry))) }
    {
        cursor.peek_group_among::<ExportKind>()
    }

    fn display() -> &'static str {
        "a definition"
    }
}

/// Reads a field that defines a function, a table, a memory, a global or a tag.
fn parse_defining<'a>(parser: &mut Parser<'a>) -> Result<ModuleField<'a>, Error>
    ensures read { Gives field_tree result parser.new (defining.reads (ahead parser.old)) }
    ensures keeps { Keeps parser.old parser.new }
{
    if parser.peek::<Group<keyword::Func>>()? {
        Ok(ModuleField::Func(Func::parse(parser)?))
    } else if parser.peek::<Group<keyword::Table>>()? {
        Ok(ModuleField::Table(Table::parse(parser)?))
    } else if parser.peek::<Group<keyword::Memory>>()? {
        Ok(ModuleField::Memory(Memory::parse(parser)?))
    } else if parser.peek::<Group<keyword::Global>>()? {
        Ok(ModuleField::Global(Global::parse(parser)?))
    } else {
        Ok(ModuleField::Tag(Tag::parse(parser)?))
    }
}

/// Reads a field that exports, starts, fills, or is left to other tools.
fn parse_describing<'a>(parser: &mut Parser<'a>) -> Result<ModuleField<'a>, Error>
    ensures read { Gives field_tree result parser.new (describing.reads (ahead parser.old)) }
    ensures keeps { Keeps parser.old parser.new }
{
    if parser.peek::<InlineExport<'a>>()? {
        Ok(ModuleField::Export(Export::parse(parser)?))
    } else if parser.peek::<Group<words::Start>>()? {
        Ok(ModuleField::Start(Start::parse(parser)?))
    } else if parser.peek::<Group<words::Elem>>()? {
        Ok(ModuleField::Elem(Elem::parse(parser)?))
    } else if parser.peek::<Group<words::Data>>()? {
        Ok(ModuleField::Data(Data::parse(parser)?))
    } else {
        Ok(ModuleField::Custom(required(parser, "expected a field of a module")?))
    }
}

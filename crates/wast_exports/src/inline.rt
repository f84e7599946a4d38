//! Exports and imports that stand inline in the field that they are of.
ghost use Rattle.std.specs.Prelude.{ℕ, List, refl};
ghost use Rattle.wast_grammar.specs.Tokens.{Name};
ghost use Rattle.wast_parser.specs.Look.{ask};
ghost use Rattle.wast_parser.specs.Lawful.{Lawful, Leads};
ghost use Rattle.wast_parser.specs.State.{ahead};
ghost use Rattle.wast_parser.specs.Reading.{Asks};
ghost use Rattle.wast_parser.specs.Cursors.{stands};
ghost use Rattle.wast_exports.specs.Exports.{export_starts, import_starts, export_name, inline_export, inline_import};
ghost use Rattle.wast_exports.specs.ExportViews.{export_name_tree, inline_export_tree, inline_import_tree};

use std::alloc::Global;
use std::borrow::CowStr;
use wast_parser::{Cursor, Error, Item, LParen, Meaning, Parse, Parser, Peek, closed, list_of};

/// The names under which a field is exported, as many as are written: `(export "a") (export "b")`.
#[derive(Drop)]
pub struct InlineExport<'a> {
    pub names: Vec<ExportName<'a>>,
}

/// A name under which a field is exported.
#[derive(Drop)]
pub struct ExportName<'a> {
    pub name: CowStr<'a, Global>,
}

/// What a field is imported as: `(import "module" "field")`.
#[derive(Drop)]
pub struct InlineImport<'a> {
    pub module: CowStr<'a, Global>,
    pub field: CowStr<'a, Global>,
}

impl<'a> Meaning for InlineExport<'a> {
    ghost Tree = { List (List ℕ) };

    ghost tree = { inline_export_tree };

    ghost syntax = { inline_export };

    fn lawful()
        ensures { Lawful (inline_export {N = Name} {P = ℕ}) }
    {}
}

impl<'a> Parse<'a> for InlineExport<'a> {
    fn parse(parser: &mut Parser<'a>) -> Result<Self, Error> {
        let names = list_of(parser)?;
        Ok(InlineExport { names })
    }
}

/// Whether `(export` stands there.
impl<'a> Peek for InlineExport<'a> {
    ghost plain = { refl };

    ghost sure = { refl };

    fn leads()
        ensures { Leads (inline_export {N = Name} {P = ℕ}).spells export_starts }
    {}

    fn peek(cursor: Cursor<'_, '_>) -> Result<bool, Error>
        ensures { Asks result (stands cursor.entry).source (ask export_starts (ahead (stands cursor.entry))) }
    {
        cursor.peek_group("export")
    }

    fn display() -> &'static str {
        "an inline export"
    }
}

impl<'a> Meaning for ExportName<'a> {
    ghost Tree = { List ℕ };

    ghost tree = { export_name_tree };

    ghost syntax = { export_name };

    fn lawful()
        ensures { Lawful (export_name {N = Name} {P = ℕ}) }
    {}
}

impl<'a> Parse<'a> for ExportName<'a> {
    fn parse(parser: &mut Parser<'a>) -> Result<Self, Error> {
        LParen::parse(parser)?;
        parser.word("export")?;
        let name = parser.name()?;
        let name = closed(parser, name)?;
        Ok(ExportName { name })
    }
}

impl<'a> Peek for ExportName<'a> {
    ghost plain = { refl };

    ghost sure = { refl };

    fn leads()
        ensures { Leads (export_name {N = Name} {P = ℕ}).spells export_starts }
    {}

    fn peek(cursor: Cursor<'_, '_>) -> Result<bool, Error>
        ensures { Asks result (stands cursor.entry).source (ask export_starts (ahead (stands cursor.entry))) }
    {
        cursor.peek_group("export")
    }

    fn display() -> &'static str {
        "an inline export"
    }
}

impl<'a> Item for ExportName<'a> {
    ghost inside = { refl };
}

impl<'a> Meaning for InlineImport<'a> {
    ghost Tree = { List ℕ × List ℕ };

    ghost tree = { inline_import_tree };

    ghost syntax = { inline_import };

    fn lawful()
        ensures { Lawful (inline_import {N = Name} {P = ℕ}) }
    {}
}

impl<'a> Parse<'a> for InlineImport<'a> {
    fn parse(parser: &mut Parser<'a>) -> Result<Self, Error> {
        LParen::parse(parser)?;
        parser.word("import")?;
        let module = parser.name()?;
        let field = parser.name()?;
        let (module, field) = closed(parser, (module, field))?;
        Ok(InlineImport { module, field })
    }
}

impl<'a> Peek for InlineImport<'a> {
    ghost plain = { refl };

    ghost sure = { refl };

    fn leads()
        ensures { Leads (inline_import {N = Name} {P = ℕ}).spells import_starts }
    {}

    fn peek(cursor: Cursor<'_, '_>) -> Result<bool, Error>
        ensures { Asks result (stands cursor.entry).source (ask import_starts (ahead (stands cursor.entry))) }
    {
        cursor.peek_group("import")
    }

    fn display() -> &'static str {
        "an inline import"
    }
}

impl<'a> Item for InlineImport<'a> {
    ghost inside = { refl };
}

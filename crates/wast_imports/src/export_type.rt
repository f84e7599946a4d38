//! What is exported under a name.
ghost use Rattle.std.specs.Prelude.{ℕ};
ghost use Rattle.wast_signatures.specs.Tokens.{Name};
ghost use Rattle.wast_signatures.specs.Lawful.{Lawful};
ghost use Rattle.wast_imports.specs.ImportTree as spec;
ghost use Rattle.wast_imports.specs.ImportSyntax.{export_type};
ghost use Rattle.wast_imports.specs.ImportViews.{export_type_tree};

use crate::item::ItemSig;
use std::alloc::Global;
use std::borrow::CowStr;
use wast_signatures::{Error, LParen, Meaning, Parse, Parser, Span, closed};

/// A name, and what is exported under it: `(export "name" (func))`. No field.
#[derive(Drop)]
pub struct ExportType<'a> {
    /// Where the word `export` stands.
    pub span: Span,
    pub name: CowStr<'a, Global>,
    pub item: ItemSig<'a>,
}

impl<'a> Meaning for ExportType<'a> {
    ghost Tree = { spec.ExportType Name ℕ };

    ghost tree = { export_type_tree };

    ghost syntax = { export_type };

    fn lawful()
        ensures { Lawful (export_type {N = Name} {P = ℕ}) }
    {}
}

impl<'a> Parse<'a> for ExportType<'a> {
    fn parse(parser: &mut Parser<'a>) -> Result<Self, Error> {
        LParen::parse(parser)?;
        let span = parser.word("export")?;
        let name = parser.name()?;
        let item = ItemSig::parse(parser)?;
        let item = closed(parser, item)?;
        Ok(ExportType { span, name, item })
    }
}

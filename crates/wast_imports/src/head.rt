//! What fields and items are called.
ghost use Rattle.std.specs.Prelude.{ℕ};
ghost use Rattle.wast_signatures.specs.Tokens.{Name};
ghost use Rattle.wast_signatures.specs.Lawful.{Lawful};
ghost use Rattle.wast_imports.specs.ImportSyntax as spec;
ghost use Rattle.wast_imports.specs.ImportSyntax.{head};
ghost use Rattle.wast_imports.specs.ImportViews.{head_tree};

use wast_signatures::{Error, Id, Meaning, NameAnnotation, Parse, Parser};

/// The identifier of a field or an item, and the name that an annotation gives it, where they are written.
#[derive(Drop)]
pub struct Head<'a> {
    pub id: Option<Id<'a>>,
    pub name: Option<NameAnnotation<'a>>,
}

impl<'a> Meaning for Head<'a> {
    ghost Tree = { spec.Head Name ℕ };

    ghost tree = { head_tree };

    ghost syntax = { head };

    fn lawful()
        ensures { Lawful (head {N = Name} {P = ℕ}) }
    {}
}

impl<'a> Parse<'a> for Head<'a> {
    fn parse(parser: &mut Parser<'a>) -> Result<Self, Error> {
        let id = Option::parse(parser)?;
        let name = Option::parse(parser)?;
        Ok(Head { id, name })
    }
}

//! The start function.
ghost use Rattle.std.specs.Prelude.{ℕ};
ghost use Rattle.wast_grammar.specs.Tokens.{Name};
ghost use Rattle.wast_parser.specs.Lawful.{Lawful};
ghost use Rattle.wast_fields.specs.FieldTree as spec;
ghost use Rattle.wast_module_fields.specs.FieldSyntax.{start};
ghost use Rattle.wast_module_fields.specs.ModuleFieldViews.{start_tree};

use wast_lexer::Span;
use wast_parser::{Error, Index, LParen, Meaning, Parse, Parser, closed};

/// The function with which a module starts: `(start $f)` (6.6, start function).
#[derive(Drop)]
pub struct Start<'a> {
    /// Where the word `start` stands.
    pub span: Span,
    pub func: Index<'a>,
}

impl<'a> Meaning for Start<'a> {
    ghost Tree = { spec.Start Name ℕ };

    ghost tree = { start_tree };

    ghost syntax = { start };

    fn lawful()
        ensures { Lawful (start {N = Name} {P = ℕ}) }
    {}
}

impl<'a> Parse<'a> for Start<'a> {
    fn parse(parser: &mut Parser<'a>) -> Result<Self, Error> {
        LParen::parse(parser)?;
        let span = parser.word("start")?;
        let func = Index::parse(parser)?;
        let func = closed(parser, func)?;
        Ok(Start { span, func })
    }
}

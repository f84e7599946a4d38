//! From a text to its tree.
ghost use Rattle.std.specs.Prelude.{ℕ, false, MatchResult};
ghost use Rattle.wast_grammar.specs.Tokens.{Name};
ghost use Rattle.wast_parser.specs.Table.{IsTable};
ghost use Rattle.wast_parser.specs.Lawful.{Lawful};
ghost use Rattle.wast_field_syntax.specs.FieldTree as spec;
ghost use Rattle.wast_core.specs.ModuleSyntax.{wat};
ghost use Rattle.wast_core.specs.ModuleViews.{module_tree};
ghost use Rattle.wat_verdict.specs.Registered.{registered};
ghost use Rattle.wat_verdict.specs.Spells.{alone, Spells};
ghost use Rattle.wat.specs.Unspelled.{IsUnspelled};
ghost use Rattle.wat.specs.TextViews.{wat_tree};

use wast_core::{Module, TextModule};
use wast_parser::{Error, Meaning, Parse, ParseBuffer, Parser};

/// A text, read: the module that it spells (6.6, modules), `(module ..)`, or the fields of one alone.
///
/// While it is read the annotations `name`, `custom`, `producers`, `dylink.0` and `metadata.code.branch_hint` are registered, which are
/// taken back on both outcomes. Refused where no module is spelled, and where behind it, with these names registered, a significant
/// token other than `)` stands, or none can be read.
#[derive(Drop)]
pub enum Wat<'a> {
    Module(Module<'a>),
}

impl<'a> Meaning for Wat<'a> {
    ghost Tree = { spec.Module Name ℕ };

    ghost tree = { wat_tree };

    ghost syntax = { alone wat };

    ghost registers = { registered };

    fn lawful()
        ensures { Lawful (alone (wat {N = Name} {P = ℕ})) }
    {}
}

impl<'a> Parse<'a> for Wat<'a> {
    fn parse(parser: &mut Parser<'a>) -> Result<Self, Error> {
        let whole: Whole = parser.with_annotations(&[
            "name",
            "custom",
            "producers",
            "dylink.0",
            "metadata.code.branch_hint",
        ])?;
        Ok(Wat::Module(whole.module))
    }
}

/// A module with an end behind it.
#[derive(Drop)]
struct Whole<'a> {
    module: Module<'a>,
}

impl<'a> Meaning for Whole<'a> {
    ghost Tree = { spec.Module Name ℕ };

    ghost tree = { λ w. module_tree w.«module» };

    ghost syntax = { alone wat };

    fn lawful()
        ensures { Lawful (alone (wat {N = Name} {P = ℕ})) }
    {}
}

impl<'a> Parse<'a> for Whole<'a> {
    fn parse(parser: &mut Parser<'a>) -> Result<Self, Error> {
        let text = TextModule::parse(parser)?;
        if !parser.is_empty() {
            parser.end()?;
        }
        Ok(Whole {
            module: text.module,
        })
    }
}

/// The module that the text of a buffer spells, which is one at most: that of its significant tokens (6.2.2 to 6.2.5). A
/// text that can't be cut into tokens has none, nor has one in which the group of an annotation isn't closed that isn't
/// registered.
///
/// Answers an error exactly where, memory found, the text spells none; it is want of memory where a growth found none.
pub(crate) fn parse_text<'a>(buffer: &'a ParseBuffer<'a>) -> Result<Wat<'a>, Error>
    requires { IsTable false buffer.now.text buffer.now.tokens buffer.now.fault }
    ensures { MatchResult result (λ w. Spells buffer.now.text (wat_tree w)) (λ error. IsUnspelled buffer.now.text error) }
{
    wast_parser::parse(buffer)
}

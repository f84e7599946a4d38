//! Modules as the whole of a text.
ghost use Rattle.std.specs.Prelude.{◌≡◌, ◌∷◌, ◌<◌, ℕ, IfOk, map, vec_len};
ghost use Rattle.wast_grammar.specs.Tokens.{Name};
ghost use Rattle.wast_parser.specs.Lawful.{Lawful};
ghost use Rattle.wast_parser.specs.State.{ahead, Keeps};
ghost use Rattle.wast_parser.specs.Reading.{Gives};
ghost use Rattle.wast_module_fields.specs.FieldTree as spec;
ghost use Rattle.wast_core.specs.ModuleSyntax.{bare_module, wat};
ghost use Rattle.wast_module_fields.specs.ModuleFieldViews.{field_tree};
ghost use Rattle.wast_core.specs.ModuleViews.{module_tree};
ghost use Rattle.wast_core.specs.FieldsAlone.{IsModuleOf, some};

use crate::keyword;
use crate::module::{Module, ModuleKind, second_start};
use std::alloc::{AllocError, Global};
use wast_module_fields::ModuleField;
use wast_parser::{Error, Item, Meaning, Parse, Parser, list_of};
use wast_value_types::Group;

/// The module that a whole text spells (6.6, modules): `(module ..)`, or the fields of one alone, of which there is one at least. Then the
/// module stands where the keyword of the first field does.
#[derive(Drop)]
pub struct TextModule<'a> {
    pub module: Module<'a>,
}

impl<'a> Meaning for TextModule<'a> {
    ghost Tree = { spec.Module Name ℕ };

    ghost tree = { λ t. module_tree t.«module» };

    ghost syntax = { wat };

    fn lawful()
        ensures { Lawful (wat {N = Name} {P = ℕ}) }
    {}
}

impl<'a> Parse<'a> for TextModule<'a> {
    fn parse(parser: &mut Parser<'a>) -> Result<Self, Error> {
        let module = if parser.peek::<Group<keyword::Module>>()? {
            Module::parse(parser)?
        } else {
            parse_bare(parser)?
        };
        Ok(TextModule { module })
    }
}

/// Reads the fields of a module, of which there is one at least.
fn parse_bare<'a>(parser: &mut Parser<'a>) -> Result<Module<'a>, Error>
    ensures read { Gives module_tree result parser.new (bare_module.reads (ahead parser.old)) }
    ensures keeps { Keeps parser.old parser.new }
{
    match some_of(parser) {
        Ok(fields) => module_of(parser, fields),
        Err(e) => Err(e),
    }
}

/// The module of fields, of which there is one at least. Refused where two of them are start functions, with an error at the second (no clause
/// sees the place).
fn module_of<'a>(parser: &Parser<'a>, fields: Vec<ModuleField<'a>>) -> Result<Module<'a>, Error>
    requires { 0 < vec_len fields }
    ensures { IsModuleOf (map field_tree fields.entry.items) result }
{
    match second_start(&fields) {
        Some(span) => Err(parser.error_at(span, "a module has one start function at most")),
        None => Ok(Module {
            span: fields[0].span(),
            id: None,
            name: None,
            kind: ModuleKind::Text(fields),
            refusal: None,
        }),
    }
}

/// Reads one or more, one after the other.
fn some_of<'a, T: Parse<'a> + Item>(parser: &mut Parser<'a>) -> Result<Vec<T>, Error>
    ensures read { Gives (λ v. map T.tree v.items) result parser.new ((some T.syntax).reads (ahead parser.old)) }
    ensures keeps { Keeps parser.old parser.new }
    ensures some { IfOk result (λ v. 0 < vec_len v) }
{
    let first = T::parse(parser)?;
    let others = list_of(parser)?;
    Ok(with_first(parser.alloc(), first, others)?)
}

/// The first of a list, and then the others.
fn with_first<T: Drop>(alloc: Global, first: T, others: Vec<T>) -> Result<Vec<T>, AllocError>
    ensures { IfOk result (λ all. all.items ≡ first ∷ others.items) }
{
    let mut all = Vec::new(alloc);
    all.push(first)?;
    for item in others {
        all.push(item)?;
    }
    Ok(all)
}

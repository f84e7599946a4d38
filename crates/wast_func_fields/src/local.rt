//! Locals of functions.
ghost use Rattle.std.specs.Prelude.{◌≡◌, ℕ, List, IfOk, map, codes};
ghost use Rattle.wast_field_syntax.specs.Tokens.{Name};
ghost use Rattle.wast_field_syntax.specs.Grammar.{led};
ghost use Rattle.wast_field_syntax.specs.Lawful.{Lawful};
ghost use Rattle.wast_field_syntax.specs.State.{ahead, Keeps};
ghost use Rattle.wast_field_syntax.specs.Reading.{Gives};
ghost use Rattle.wast_signatures.specs.TypeTree as types;
ghost use Rattle.wast_signatures.specs.TypeSyntax.{named_locals};
ghost use Rattle.wast_signatures.specs.SignatureViews.{param_tree};
ghost use Rattle.wast_field_syntax.specs.FuncSyntax.{all_locals};
ghost use Rattle.wast_func_fields.specs.FuncViews.{local_tree};

use std::alloc::{AllocError, Global};
use wast_field_syntax::{
    Error, Id, Keyword, Meaning, NameAnnotation, Parse, Parser, keyword, list_of,
};
use wast_signatures::{Grouped, Param, Several, join_groups};
use wast_value_types::ValType;

/// A local of a function (6.6, functions): its identifier, the name that an annotation gives it, and its type.
#[derive(Drop)]
pub struct Local<'a> {
    pub id: Option<Id<'a>>,
    pub name: Option<NameAnnotation<'a>>,
    pub ty: ValType<'a>,
}

impl<'a> Local<'a> {
    /// Reads the groups `(local ..)` that stand here, and gives the locals of all, in order. Refused where one begins that isn't
    /// spelled, or for want of memory; the depth and the registered names stay then, and the parser goes back nowhere.
    pub fn parse_remainder(parser: &mut Parser<'a>) -> Result<Vec<Local<'a>>, Error>
        ensures read { Gives (λ ls. map local_tree ls.items) result parser.new (all_locals.reads (ahead parser.old)) }
        ensures keeps { Keeps parser.old parser.new }
    {
        let params = in_groups(parser)?;
        let locals = locals_of(parser.alloc(), params)?;
        Ok(locals)
    }
}

/// What stands in one group `(local ..)`, behind its parenthesis: `local $x i32`, or `local i32 i64`.
#[derive(Drop)]
pub struct LocalParser<'a> {
    pub locals: Vec<Local<'a>>,
}

impl<'a> Meaning for LocalParser<'a> {
    ghost Tree = { List (types.Local Name ℕ) };

    ghost tree = { λ g. map local_tree g.locals.items };

    ghost syntax = { led (codes "local") named_locals };

    fn lawful()
        ensures { Lawful (led {N = Name} {P = ℕ} (codes "local") named_locals) }
    {}
}

impl<'a> Parse<'a> for LocalParser<'a> {
    fn parse(parser: &mut Parser<'a>) -> Result<Self, Error> {
        Keyword::<keyword::Local>::parse(parser)?;
        let group: Several<Param<'a>> = Several::parse(parser)?;
        let locals = locals_of(parser.alloc(), group.items)?;
        Ok(LocalParser { locals })
    }
}

/// What stands in all groups `(local ..)`, as it is read of parameters.
fn in_groups<'a>(parser: &mut Parser<'a>) -> Result<Vec<Param<'a>>, Error>
    ensures read { Gives (λ ps. map param_tree ps.items) result parser.new (all_locals.reads (ahead parser.old)) }
    ensures keeps { Keeps parser.old parser.new }
{
    let groups: Vec<Grouped<keyword::Local, Several<Param<'a>>>> = list_of(parser)?;
    let params = join_groups(parser.alloc(), groups)?;
    Ok(params)
}

/// The same as locals.
fn locals_of<'a>(alloc: Global, params: Vec<Param<'a>>) -> Result<Vec<Local<'a>>, AllocError>
    ensures { IfOk result (λ locals. map local_tree locals.items ≡ map param_tree params.entry.items) }
{
    let mut locals = Vec::with_capacity(alloc, params.len())?;
    for (id, name, ty) in params {
        locals.push(Local { id, name, ty })?;
    }
    Ok(locals)
}

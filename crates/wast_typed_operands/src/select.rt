//! The types of `select`.
ghost use Rattle.std.specs.Prelude.{◌≡◌, ℕ, List, Option, IfOk, map};
ghost use Rattle.wast_signatures.specs.Tokens.{Name};
ghost use Rattle.wast_signatures.specs.Lawful.{Lawful};
ghost use Rattle.wast_signatures.specs.ValueTree as values;
ghost use Rattle.wast_signatures.specs.ValueViews.{val_tree};
ghost use Rattle.wast_typed_operands.specs.TypedSyntax.{types_of, select_types};
ghost use Rattle.wast_typed_operands.specs.TypedViews.{select_types_tree};

use std::alloc::{AllocError, Global};
use wast_signatures::{
    Error, Grouped, Meaning, Parse, Parser, Several, ValType, join_groups, keyword, list_of,
};

/// The result types of `select` (6.5, parametric instructions), of all its groups; none where it has no group.
#[derive(Drop)]
pub struct SelectTypes<'a> {
    pub tys: Option<Vec<ValType<'a>>>,
}

impl<'a> Meaning for SelectTypes<'a> {
    ghost Tree = { Option (List (values.ValType Name ℕ)) };

    ghost tree = { select_types_tree };

    ghost syntax = { select_types };

    fn lawful()
        ensures { Lawful (select_types {N = Name} {P = ℕ}) }
    {}
}

impl<'a> Parse<'a> for SelectTypes<'a> {
    fn parse(parser: &mut Parser<'a>) -> Result<Self, Error> {
        let groups: Vec<Group<'a>> = list_of(parser)?;
        Ok(all_types(parser.alloc(), groups)?)
    }
}

/// `(result t*)`
type Group<'a> = Grouped<keyword::Result, Several<ValType<'a>>>;

/// The types of all groups, where there is one.
fn all_types<'a>(alloc: Global, groups: Vec<Group<'a>>) -> Result<SelectTypes<'a>, AllocError>
    ensures { IfOk result (λ s. select_types_tree s ≡ types_of (map (λ g. map val_tree g.value.items.items) groups.entry.items)) }
{
    if groups.is_empty() {
        return Ok(SelectTypes { tys: None });
    }
    let tys = join_groups(alloc, groups)?;
    Ok(SelectTypes { tys: Some(tys) })
}

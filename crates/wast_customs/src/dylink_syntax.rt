//! The production of `dylink.0`.
ghost use Rattle.std.specs.Prelude.{◌≡◌, ◌++◌, ℕ, List, [], ◌∷◌, map, refl, codes, OnOk, IfOk, option_map, option_to_list};
ghost use Rattle.wast_grammar.specs.Tokens.{Name};
ghost use Rattle.wast_parser.specs.Look.{ask, this_annotation};
ghost use Rattle.wast_parser.specs.Lawful.{Lawful, Leads};
ghost use Rattle.wast_parser.specs.State.{ahead, Keeps};
ghost use Rattle.wast_parser.specs.Reading.{Asks, Gives};
ghost use Rattle.wast_parser.specs.Cursors.{stands};
ghost use Rattle.wast_customs.specs.CustomTree as spec;
ghost use Rattle.wast_customs.specs.Dylink.{joined, joined_before};
ghost use Rattle.wast_customs.specs.CustomSyntax.{dylink_groups, dylink};
ghost use Rattle.wast_customs.specs.CustomViews.{subsection_tree, dylink_tree};

use crate::dylink::{Dylink0, Dylink0Subsection};
use std::alloc::{AllocError, Global};
use wast_parser::{Cursor, Error, LParen, Meaning, Parse, Parser, Peek, closed_or, list_of};

impl<'a> Meaning for Dylink0<'a> {
    ghost Tree = { spec.Dylink ℕ };

    ghost tree = { dylink_tree };

    ghost syntax = { dylink };

    fn lawful()
        ensures { Lawful (dylink {N = Name} {P = ℕ}) }
    {}
}

impl<'a> Parse<'a> for Dylink0<'a> {
    fn parse(parser: &mut Parser<'a>) -> Result<Self, Error> {
        LParen::parse(parser)?;
        let span = parser.mark("dylink.0")?;
        let subsections = parse_subsections(parser)?;
        let expected = "expected a group of dylink.0 or `)`";
        let subsections = closed_or(parser, subsections, expected)?;
        Ok(Dylink0 { span, subsections })
    }
}

impl<'a> Peek for Dylink0<'a> {
    ghost plain = { refl };

    ghost sure = { refl };

    fn leads()
        ensures { Leads (dylink {N = Name} {P = ℕ}).spells (this_annotation (codes "dylink.0") ∷ []) }
    {}

    fn peek(cursor: Cursor<'_, '_>) -> Result<bool, Error>
        ensures { Asks result (stands cursor.entry).source (ask (this_annotation (codes "dylink.0") ∷ []) (ahead (stands cursor.entry))) }
    {
        cursor.peek_annotation("dylink.0")
    }

    fn display() -> &'static str {
        "dylink.0"
    }
}

/// All groups that follow; neighbours that speak of exports, or of imports, are joined.
fn parse_subsections<'a>(parser: &mut Parser<'a>) -> Result<Vec<Dylink0Subsection<'a>>, Error>
    ensures read { Gives (λ v. map subsection_tree v.items) result parser.new (dylink_groups.reads (ahead parser.old)) }
    ensures keeps { Keeps parser.old parser.new }
{
    let groups = list_of(parser)?;
    Ok(join(parser.alloc(), groups)?)
}

/// Joins neighbours that speak of exports, or of imports.
fn join<'a>(
    alloc: Global,
    groups: Vec<Dylink0Subsection<'a>>,
) -> Result<Vec<Dylink0Subsection<'a>>, AllocError>
    ensures { IfOk result (λ v. map subsection_tree v.items ≡ joined (map subsection_tree groups.entry.items)) }
{
    let mut subsections = Vec::new(alloc);
    for group in groups {
        push_joined(&mut subsections, group)?;
    }
    Ok(subsections)
}

/// Adds a subsection behind others, to the last where both speak of exports, or of imports.
fn push_joined<'a>(
    subsections: &mut Vec<Dylink0Subsection<'a>>,
    next: Dylink0Subsection<'a>,
) -> Result<(), AllocError>
    ensures { OnOk result ((before : List spec.Subsection) → map subsection_tree subsections.old.items ≡ joined before → map subsection_tree subsections.new.items ≡ joined (before ++ subsection_tree next.entry ∷ [])) }
{
    if let Some(last) = subsections.pop() {
        let (first, second) = join_two(last, next)?;
        subsections.push(first)?;
        if let Some(second) = second {
            subsections.push(second)?;
        }
        Ok(())
    } else {
        Ok(subsections.push(next)?)
    }
}

/// Two neighbours: one where both speak of exports, or of imports.
fn join_two<'a>(
    first: Dylink0Subsection<'a>,
    second: Dylink0Subsection<'a>,
) -> Result<(Dylink0Subsection<'a>, Option<Dylink0Subsection<'a>>), AllocError>
    ensures { IfOk result (λ two. subsection_tree two.0 ∷ option_to_list (option_map subsection_tree two.1) ≡ joined_before (subsection_tree first.entry) (subsection_tree second.entry ∷ [])) }
{
    match (first, second) {
        (Dylink0Subsection::ExportInfo(mut exports), Dylink0Subsection::ExportInfo(mut more)) => {
            exports.append(&mut more)?;
            Ok((Dylink0Subsection::ExportInfo(exports), None))
        }
        (Dylink0Subsection::ImportInfo(mut imports), Dylink0Subsection::ImportInfo(mut more)) => {
            imports.append(&mut more)?;
            Ok((Dylink0Subsection::ImportInfo(imports), None))
        }
        (first, second) => Ok((first, Some(second))),
    }
}

//! The annotation that gives a name.
ghost use Rattle.std.specs.Prelude.{ℕ, List, [], ◌∷◌, Option, codes, option_map};
ghost use Rattle.std.specs.Cow.{cow_str_bytes};
ghost use Rattle.wast_grammar.specs.Tokens.{Name};
ghost use Rattle.wast_grammar.specs.Look.{this_annotation};
ghost use Rattle.wast_grammar.specs.Grammar.{maybe, paren};
ghost use Rattle.wast_grammar.specs.Lawful.{Lawful};
ghost use Rattle.wast_parser_core.specs.Identifiers.{name_annotation};

use crate::meaning::{Meaning, Parse};
use crate::parser::Parser;
use wast_parser_base::{Error, NameAnnotation};

impl<'a> Meaning for NameAnnotation<'a> {
    ghost Tree = { List ℕ };

    ghost tree = { λ a. cow_str_bytes a.name };

    ghost syntax = { name_annotation };

    fn lawful()
        ensures { Lawful (name_annotation {N = Name} {P = ℕ}) }
    {}
}

impl<'a> Parse<'a> for NameAnnotation<'a> {
    fn parse(parser: &mut Parser<'a>) -> Result<Self, Error> {
        parser.mark("name")?;
        let name = parser.name()?;
        Ok(NameAnnotation { name })
    }
}

/// One in parentheses, or none.
impl<'a> Meaning for Option<NameAnnotation<'a>> {
    ghost Tree = { Option (List ℕ) };

    ghost tree = { option_map (λ a. cow_str_bytes a.name) };

    ghost syntax = { maybe (this_annotation (codes "name") ∷ []) (paren name_annotation) };

    fn lawful()
        ensures { Lawful (maybe {N = Name} {P = ℕ} (this_annotation (codes "name") ∷ []) (paren name_annotation)) }
    {}
}

impl<'a> Parse<'a> for Option<NameAnnotation<'a>> {
    fn parse(parser: &mut Parser<'a>) -> Result<Self, Error> {
        if parser.cursor().peek_annotation("name")? {
            Ok(Some(parser.parens_of::<NameAnnotation<'a>>()?))
        } else {
            Ok(None)
        }
    }
}

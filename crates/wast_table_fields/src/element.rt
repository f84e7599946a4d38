//! Expressions in element segments and tables.
ghost use Rattle.std.specs.Prelude.{map};
ghost use Rattle.wast_field_syntax.specs.Look.{ask};
ghost use Rattle.wast_field_syntax.specs.Grammar.{many};
ghost use Rattle.wast_field_syntax.specs.State.{ahead, Keeps};
ghost use Rattle.wast_field_syntax.specs.Reading.{Asks, Gives};
ghost use Rattle.wast_field_syntax.specs.Expressions.{led_or_plain};
ghost use Rattle.wast_field_syntax.specs.InstructionSyntax.{instruction};
ghost use Rattle.wast_field_syntax.specs.InstructionGroups.{instruction_heads, instruction_made};
ghost use Rattle.wast_field_syntax.specs.ExpressionViews.{expression_tree};
ghost use Rattle.wast_field_syntax.specs.DefinitionSyntax.{element};
ghost use Rattle.wast_field_syntax.specs.ElemSyntax.{element_starts};

use wast_field_syntax::{
    Error, Expression, InstructionGroup, Keyword, KeywordName, LParen, Parse, Parser, closed,
    keyword, or_begins,
};
use wast_value_types::Group;

/// Reads the items of an expression behind the word `N`, as `(item ref.null func)`, or an instruction in parentheses.
pub(crate) fn parse_led_or_plain<'a, N: KeywordName>(
    parser: &mut Parser<'a>,
) -> Result<Expression<'a>, Error>
    ensures read { Gives expression_tree result parser.new ((led_or_plain instruction instruction_heads instruction_made N.word).reads (ahead parser.old)) }
    ensures keeps { Keeps parser.old parser.new }
{
    if parser.peek::<Group<N>>()? {
        LParen::parse(parser)?;
        Keyword::<N>::parse(parser)?;
        let expression = Expression::parse(parser)?;
        closed(parser, expression)
    } else {
        Expression::parse_plain(parser)
    }
}

/// Whether an element begins here.
pub(crate) fn peek_element(parser: &Parser<'_>) -> Result<bool, Error>
    ensures { Asks result parser.now.source (ask element_starts (ahead parser.now)) }
{
    or_begins::<InstructionGroup>(parser.peek::<Group<keyword::Item>>(), parser)
}

/// Reads elements, as many as there are.
pub(crate) fn parse_elements<'a>(parser: &mut Parser<'a>) -> Result<Vec<Expression<'a>>, Error>
    ensures read { Gives (λ es. map expression_tree es.items) result parser.new ((many element_starts element).reads (ahead parser.old)) }
    ensures keeps { Keeps parser.old parser.new }
{
    let mut elements = Vec::new(parser.alloc());
    'elements: loop {
        match peek_element(parser) {
            Ok(true) => match parse_led_or_plain::<keyword::Item>(parser) {
                Ok(element) => elements.push(element)?,
                Err(e) => return Err(e),
            },
            Ok(false) => return Ok(elements),
            Err(e) => return Err(e),
        }
    }
}

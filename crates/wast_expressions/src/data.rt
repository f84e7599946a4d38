//! Offsets of data.
ghost use Rattle.std.specs.Prelude.{codes};
ghost use Rattle.wast_parser.specs.Grammar.{led};
ghost use Rattle.wast_parser.specs.State.{ahead, Keeps};
ghost use Rattle.wast_parser.specs.Reading.{Gives};
ghost use Rattle.wast_expressions.specs.Expressions.{data_offset, expression};
ghost use Rattle.wast_expressions.specs.Items.{Expression};
ghost use Rattle.wast_expressions.specs.Views.{instructions_tree};

use crate::expression::parse_items;
use crate::look::{Offset, peek_led};
use crate::offset::parse_folded_instruction;
use crate::operation::{Operation, ParseOperation};
use crate::stack::Instructions;
use wast_parser::{Error, Keyword, Meaning, Parse, Parser};

/// Reads the offset of data: `(offset item*)`, or `(instruction item*)`, which is what the items unfold to and then the
/// instruction. Refused where the grammar reads none, and for want of memory. Depth and registered names are as they were on both
/// outcomes, and the parser stands where it did or behind what it read.
pub fn parse_offset<'a, I: ParseOperation<'a>>(
    parser: &mut Parser<'a>,
) -> Result<Instructions<I>, Error>
    ensures read { Gives (instructions_tree I.tree) result parser.new ((data_offset I.syntax I.heads I.made).reads (ahead parser.old)) }
    ensures keeps { Keeps parser.old parser.new }
{
    match peek_led::<Keyword<Offset>>(parser) {
        Ok(true) => match parser.parens_of::<OffsetBody<I>>() {
            Ok(body) => Ok(body.instructions),
            Err(e) => Err(e),
        },
        Ok(false) => parse_folded_instruction(parser),
        Err(e) => Err(e),
    }
}

/// What stands between the parentheses of an offset.
#[derive(Drop)]
struct OffsetBody<I> {
    instructions: Instructions<I>,
}

impl<I: Operation> Meaning for OffsetBody<I> {
    ghost Tree = { Expression I.Tree };

    ghost tree = { λ b. instructions_tree I.tree b.instructions };

    ghost syntax = { led (codes "offset") (expression I.syntax I.heads I.made) };

    fn lawful() {
        I::lawful();
        I::heeds();
    }
}

impl<'a, I: ParseOperation<'a>> Parse<'a> for OffsetBody<I> {
    fn parse(parser: &mut Parser<'a>) -> Result<Self, Error> {
        match parser.word("offset") {
            Ok(_) => match parse_items(parser) {
                Ok(instructions) => Ok(OffsetBody { instructions }),
                Err(e) => Err(e),
            },
            Err(e) => Err(e),
        }
    }
}

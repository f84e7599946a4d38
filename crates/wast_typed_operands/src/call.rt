//! Indirect calls.
ghost use Rattle.std.specs.Prelude.{ℕ};
ghost use Rattle.wast_signatures.specs.Tokens.{Name};
ghost use Rattle.wast_signatures.specs.Lawful.{Lawful};
ghost use Rattle.wast_signatures.specs.State.{ahead, Keeps};
ghost use Rattle.wast_signatures.specs.Reading.{Gives};
ghost use Rattle.wast_typed_operands.specs.TypedTree as spec;
ghost use Rattle.wast_typed_operands.specs.TypedSyntax.{use_first, indirect};
ghost use Rattle.wast_typed_operands.specs.TypedViews.{indirect_tree};
ghost use Rattle.wast_typed_operands.specs.UseThenTable.{use_then_table};

use crate::block::parse_use;
use wast_signatures::{Error, FunctionType, Index, Meaning, Parse, Parser, TypeUse};

/// The table of an indirect call, absent table 0, and the type of what is called (6.5, control instructions).
#[derive(Drop)]
pub struct CallIndirect<'a> {
    pub table: Option<Index<'a>>,
    pub ty: TypeUse<'a, FunctionType<'a>>,
}

impl<'a> Meaning for CallIndirect<'a> {
    ghost Tree = { spec.Indirect Name ℕ };

    ghost tree = { indirect_tree };

    ghost syntax = { indirect };

    fn lawful()
        ensures { Lawful (indirect {N = Name} {P = ℕ}) }
    {}
}

impl<'a> Parse<'a> for CallIndirect<'a> {
    fn parse(parser: &mut Parser<'a>) -> Result<Self, Error> {
        if parser.peek::<Index>()? {
            let table = Index::parse(parser)?;
            let ty = parse_use(parser)?;
            Ok(CallIndirect {
                table: Some(table),
                ty,
            })
        } else {
            parse_use_first(parser)
        }
    }
}

/// The same where the table doesn't stand in front.
fn parse_use_first<'a>(parser: &mut Parser<'a>) -> Result<CallIndirect<'a>, Error>
    ensures read { Gives indirect_tree result parser.new (use_first.reads (ahead parser.old)) }
    ensures keeps { Keeps parser.old parser.new }
{
    use_then_table(parser)
}

/// A type use, and a table behind it where any of it is written.
fn use_then_table<'a>(parser: &mut Parser<'a>) -> Result<CallIndirect<'a>, Error>
    ensures read { Gives indirect_tree result parser.new (use_then_table (ahead parser.old)) }
    ensures keeps { Keeps parser.old parser.new }
{
    let ty = parse_use(parser)?;
    if ty.index.is_some() || ty.inline.is_some() {
        let table = Option::parse(parser)?;
        Ok(CallIndirect { table, ty })
    } else {
        Ok(CallIndirect { table: None, ty })
    }
}

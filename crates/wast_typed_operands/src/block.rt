//! The types of blocks.
ghost use Rattle.std.specs.Prelude.{ℕ};
ghost use Rattle.wast_signatures.specs.Tokens.{Name};
ghost use Rattle.wast_signatures.specs.Lawful.{Lawful};
ghost use Rattle.wast_signatures.specs.State.{ahead, Keeps};
ghost use Rattle.wast_signatures.specs.Reading.{Gives};
ghost use Rattle.wast_signatures.specs.TypeSyntax.{bare_use};
ghost use Rattle.wast_typed_operands.specs.TypedTree as spec;
ghost use Rattle.wast_typed_operands.specs.TypedSyntax.{block, try_table};
ghost use Rattle.wast_signatures.specs.SignatureViews.{use_tree};
ghost use Rattle.wast_typed_operands.specs.TypedViews.{block_tree, try_table_tree};

use crate::catch::TryTableCatch;
use wast_signatures::{
    Error, FunctionType, FunctionTypeNoNames, Id, Meaning, Parse, Parser, TypeUse, list_of,
};

/// The label of a block, where it has one, and its type (6.5, control instructions).
#[derive(Drop)]
pub struct BlockType<'a> {
    pub label: Option<Id<'a>>,
    pub ty: TypeUse<'a, FunctionType<'a>>,
}

impl<'a> Meaning for BlockType<'a> {
    ghost Tree = { spec.Block Name ℕ };

    ghost tree = { block_tree };

    ghost syntax = { block };

    fn lawful()
        ensures { Lawful (block {N = Name} {P = ℕ}) }
    {}
}

impl<'a> Parse<'a> for BlockType<'a> {
    fn parse(parser: &mut Parser<'a>) -> Result<Self, Error> {
        let label = Option::parse(parser)?;
        let ty = parse_use(parser)?;
        Ok(BlockType { label, ty })
    }
}

/// The block type of `try_table`, and its clauses (6.5, control instructions).
#[derive(Drop)]
pub struct TryTable<'a> {
    pub block: Box<BlockType<'a>>,
    pub catches: Vec<TryTableCatch<'a>>,
}

impl<'a> Meaning for TryTable<'a> {
    ghost Tree = { spec.TryTable Name ℕ };

    ghost tree = { try_table_tree };

    ghost syntax = { try_table };

    fn lawful()
        ensures { Lawful (try_table {N = Name} {P = ℕ}) }
    {}
}

impl<'a> Parse<'a> for TryTable<'a> {
    fn parse(parser: &mut Parser<'a>) -> Result<Self, Error> {
        let block = Box::parse(parser)?;
        let catches = list_of(parser)?;
        Ok(TryTable { block, catches })
    }
}

/// Reads a type use without identifiers and names.
pub(crate) fn parse_use<'a>(parser: &mut Parser<'a>) -> Result<TypeUse<'a, FunctionType<'a>>, Error>
    ensures read { Gives use_tree result parser.new (bare_use.reads (ahead parser.old)) }
    ensures keeps { Keeps parser.old parser.new }
{
    let bare: TypeUse<'a, FunctionTypeNoNames<'a>> = TypeUse::parse(parser)?;
    Ok(TypeUse::from(bare))
}

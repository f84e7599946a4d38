//! Type uses.
ghost use Rattle.std.specs.Prelude.{◌≡◌, ℕ, List, Option, Some, None, codes, option_map, refl};
ghost use Rattle.wast_value_types.specs.Tokens.{Name};
ghost use Rattle.wast_value_types.specs.Grammar.{seq_reads, maybe_reads};
ghost use Rattle.wast_value_types.specs.Lawful.{Lawful};
ghost use Rattle.wast_value_types.specs.Significant.{TextToken};
ghost use Rattle.wast_value_types.specs.State.{ahead, Keeps};
ghost use Rattle.wast_value_types.specs.Reading.{Gives};
ghost use Rattle.wast_value_types.specs.Identifiers.{Reference, index, index_tree};
ghost use Rattle.wast_signatures.specs.TypeTree as spec;
ghost use Rattle.wast_signatures.specs.TypeSyntax.{index_of, type_use, bare_use};
ghost use Rattle.wast_signatures.specs.SignatureViews.{sig_tree, use_tree};

use crate::group::{Body, Grouped, value_of};
use crate::keyword;
use crate::signature::{FunctionType, FunctionTypeNoNames};
use wast_value_types::{Error, Index, Meaning, Parse, Parser, Peek};

/// The use of a function type (6.6, type uses): its index, its signature, both or neither.
#[derive(Drop)]
pub struct TypeUse<'a, T> {
    pub index: Option<Index<'a>>,
    /// The signature, where a group of parameters or results is written.
    pub inline: Option<T>,
}

impl<'a, T> TypeUse<'a, T> {
    /// The use of the type with this index, without a signature.
    pub fn new_with_index(idx: Index<'a>) -> TypeUse<'a, T>
        ensures index { result.index ≡ Some idx.entry }
        ensures inline { result.inline ≡ None }
    {
        TypeUse {
            index: Some(idx),
            inline: None,
        }
    }
}

impl<'a> From<TypeUse<'a, FunctionTypeNoNames<'a>>> for TypeUse<'a, FunctionType<'a>> {
    ghost from_gives = { λ bare named. (named.index ≡ bare.index) × (named.inline ≡ option_map (λ t. t.0) bare.inline) };

    fn from(bare: TypeUse<'a, FunctionTypeNoNames<'a>>) -> Self {
        TypeUse {
            index: bare.index,
            inline: bare.inline.map(FunctionType::from),
        }
    }
}

impl<'a> Meaning for TypeUse<'a, FunctionType<'a>> {
    ghost Tree = { spec.TypeUse Name ℕ };

    ghost tree = { use_tree };

    ghost syntax = { type_use };

    fn lawful()
        ensures { Lawful (type_use {N = Name} {P = ℕ}) }
    {}
}

impl<'a> Parse<'a> for TypeUse<'a, FunctionType<'a>> {
    fn parse(parser: &mut Parser<'a>) -> Result<Self, Error> {
        parse_use(parser)
    }
}

impl<'a> Meaning for TypeUse<'a, FunctionTypeNoNames<'a>> {
    ghost Tree = { spec.TypeUse Name ℕ };

    ghost tree = { λ u. record { index = option_map index_tree u.index; inline = option_map (λ t. sig_tree t.0) u.inline } };

    ghost syntax = { bare_use };

    fn lawful()
        ensures { Lawful (bare_use {N = Name} {P = ℕ}) }
    {}
}

impl<'a> Parse<'a> for TypeUse<'a, FunctionTypeNoNames<'a>> {
    fn parse(parser: &mut Parser<'a>) -> Result<Self, Error> {
        parse_use(parser)
    }
}

impl<'a> Body for Index<'a> {
    fn spelled()
        ensures { (i : Reference Name ℕ) × (us : List TextToken) × index.spells i us }
    {}

    ghost plain = { refl };

    ghost ended = { refl };
}

/// Reads an index, and then a signature where one begins.
fn parse_use<'a, T: Parse<'a> + Peek>(parser: &mut Parser<'a>) -> Result<TypeUse<'a, T>, Error>
    ensures read { Gives (λ u. (option_map index_tree u.index, option_map T.tree u.inline)) result parser.new (seq_reads (index_of (codes "type")).reads (λ _. maybe_reads T.syntax.starts T.syntax.reads) (ahead parser.old)) }
    ensures keeps { Keeps parser.old parser.new }
{
    let index = type_index(parser)?;
    if parser.peek::<T>()? {
        let inline = T::parse(parser)?;
        Ok(TypeUse {
            index,
            inline: Some(inline),
        })
    } else {
        Ok(TypeUse {
            index,
            inline: None,
        })
    }
}

/// Reads the index of a type in its group, where one stands.
fn type_index<'a>(parser: &mut Parser<'a>) -> Result<Option<Index<'a>>, Error>
    ensures read { Gives (option_map index_tree) result parser.new ((index_of (codes "type")).reads (ahead parser.old)) }
    ensures keeps { Keeps parser.old parser.new }
{
    let group: Option<Grouped<keyword::Type, Index>> = parser.parse()?;
    Ok(value_of(group))
}

//! The tables and memories of segments.
ghost use Rattle.std.specs.Prelude.{ℕ, option_map, refl};
ghost use Rattle.wast_grammar.specs.Tokens.{Name};
ghost use Rattle.wast_parser.specs.Look.{ask};
ghost use Rattle.wast_parser.specs.Grammar.{maybe};
ghost use Rattle.wast_parser.specs.Lawful.{Lawful, Leads};
ghost use Rattle.wast_parser.specs.State.{ahead, Keeps};
ghost use Rattle.wast_parser.specs.Reading.{Asks, Gives};
ghost use Rattle.wast_parser.specs.Cursors.{stands};
ghost use Rattle.wast_parser.specs.Identifiers.{Reference, index_tree};
ghost use Rattle.wast_field_syntax.specs.ElemSyntax.{use_of, use_starts_of};

use std::marker::PhantomData;
use wast_parser::{
    Cursor, Error, Index, Keyword, KeywordName, LParen, Meaning, Parse, Parser, Peek, Span, closed,
};
use wast_value_types::{Group, or_peek};

/// The table or the memory of a segment: its index behind the word `N`, as in `(memory $m)`, or its number alone.
#[derive(Drop)]
pub struct UseOf<'a, N> {
    index: Index<'a>,
    of: PhantomData<N>,
}

impl<'a, N: KeywordName> Meaning for UseOf<'a, N> {
    ghost Tree = { Reference Name ℕ };

    ghost tree = { λ u. index_tree u.index };

    ghost syntax = { use_of N.word };

    fn lawful()
        ensures { Lawful (use_of {N = Name} {P = ℕ} N.word) }
    {}
}

impl<'a, N: KeywordName> Parse<'a> for UseOf<'a, N> {
    fn parse(parser: &mut Parser<'a>) -> Result<Self, Error> {
        if parser.peek::<Group<N>>()? {
            LParen::parse(parser)?;
            Keyword::<N>::parse(parser)?;
            let index = Index::parse(parser)?;
            let index = closed(parser, index)?;
            Ok(UseOf {
                index,
                of: PhantomData,
            })
        } else {
            let (number, span) = <(u32, Span)>::parse(parser)?;
            Ok(UseOf {
                index: Index::Num(number, span),
                of: PhantomData,
            })
        }
    }
}

impl<'a, N: KeywordName> Peek for UseOf<'a, N> {
    ghost plain = { refl };

    ghost sure = { refl };

    fn leads()
        ensures { Leads (use_of {N = Name} {P = ℕ} N.word).spells (use_starts_of N.word) }
    {}

    fn peek(cursor: Cursor<'_, '_>) -> Result<bool, Error>
        ensures { Asks result (stands cursor.entry).source (ask (use_starts_of N.word) (ahead (stands cursor.entry))) }
    {
        or_peek::<u32>(Group::<N>::peek(cursor), cursor)
    }

    fn display() -> &'static str {
        N::text()
    }
}

/// Reads the table or the memory of a segment where one is written. Refused where one that begins isn't read, where no token can be read,
/// or for want of memory.
pub fn parse_use<'a, N: KeywordName>(parser: &mut Parser<'a>) -> Result<Option<Index<'a>>, Error>
    ensures read { Gives (option_map index_tree) result parser.new ((maybe (use_starts_of N.word) (use_of N.word)).reads (ahead parser.old)) }
    ensures keeps { Keeps parser.old parser.new }
{
    if parser.peek::<UseOf<'a, N>>()? {
        let used: UseOf<'a, N> = UseOf::parse(parser)?;
        Ok(Some(used.index))
    } else {
        Ok(None)
    }
}

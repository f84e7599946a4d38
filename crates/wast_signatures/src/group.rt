//! Groups behind a word.
ghost use Rattle.std.specs.Prelude.{◌≡◌, List, [], Option, Some, false, option_map, refl};
ghost use Rattle.wast_value_types.specs.Significant.{TextToken};
ghost use Rattle.wast_value_types.specs.Look.{any_end};
ghost use Rattle.wast_value_types.specs.Grammar.{group};
ghost use Rattle.wast_value_types.specs.State.{ahead, Keeps};
ghost use Rattle.wast_value_types.specs.Reading.{Gives};

use std::marker::PhantomData;
use wast_value_types::{
    Cursor, Error, Item, Keyword, KeywordName, LParen, Meaning, Parse, Parser, Peek, closed_or,
};

/// What may stand in a group behind its word: some tokens spell one, it goes on no further where the group ends, and it
/// registers no annotation.
pub trait Body: Meaning {
    /// Some tokens spell one.
    fn spelled()
        ensures { (a : Self.Tree) × (us : List TextToken) × Self.syntax.spells a us };

    /// What is said where neither more of this one nor the end of its group is read.
    fn expected_behind(&self) -> &'static str {
        "expected `)`"
    }

    ghost plain: { Self.registers ≡ [] };

    ghost ended: { any_end Self.syntax.stops ≡ false };
}

/// `(word ..)`, by what stands behind the word.
#[derive(Drop)]
pub struct Grouped<N, T> {
    pub value: T,
    of: PhantomData<N>,
}

impl<N: KeywordName, T: Body> Meaning for Grouped<N, T> {
    ghost Tree = { T.Tree };

    ghost tree = { λ g. T.tree g.value };

    ghost syntax = { group N.word T.syntax };

    fn lawful() {
        T::lawful();
    }
}

impl<'a, N: KeywordName, T: Parse<'a> + Body> Parse<'a> for Grouped<N, T> {
    fn parse(parser: &mut Parser<'a>) -> Result<Self, Error> {
        LParen::parse(parser)?;
        Keyword::<N>::parse(parser)?;
        let value: T = plain(parser)?;
        let expected = value.expected_behind();
        let value = closed_or(parser, value, expected)?;
        Ok(Grouped {
            value,
            of: PhantomData,
        })
    }
}

impl<N: KeywordName, T: Body> Peek for Grouped<N, T> {
    ghost plain = { refl };

    ghost sure = { refl };

    fn leads() {
        T::lawful();
        T::spelled();
    }

    fn peek(cursor: Cursor<'_, '_>) -> Result<bool, Error> {
        cursor.peek_group(N::text())
    }

    fn display() -> &'static str {
        N::text()
    }
}

impl<N: KeywordName, T: Body> Item for Grouped<N, T> {
    ghost inside = { refl };
}

/// What a group holds, where there is one.
pub fn value_of<N: Drop, T>(group: Option<Grouped<N, T>>) -> Option<T>
    ensures { result ≡ option_map (λ g. g.value) group }
{
    match group {
        Some(group) => Some(group.value),
        None => None,
    }
}

/// Reads what registers no annotation.
fn plain<'a, T: Parse<'a>>(parser: &mut Parser<'a>) -> Result<T, Error>
    requires { T.registers ≡ [] }
    ensures read { Gives T.tree result parser.new (T.syntax.reads (ahead parser.old)) }
    ensures keeps { Keeps parser.old parser.new }
{
    T::parse(parser)
}

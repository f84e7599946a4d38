//! Groups that begin with a word.
ghost use Rattle.std.specs.Prelude.{◌≡◌, ℕ, [], ◌∷◌, None, OnErr, refl};
ghost use Rattle.wast_parser.specs.Tokens.{Name};
ghost use Rattle.wast_parser.specs.Look.{ask, this_group};
ghost use Rattle.wast_parser.specs.Grammar.{word, group};
ghost use Rattle.wast_parser.specs.Lawful.{Lawful, Leads};
ghost use Rattle.wast_parser.specs.State.{ahead, Keeps};
ghost use Rattle.wast_parser.specs.Reading.{Asks, Gives};
ghost use Rattle.wast_parser.specs.Cursors.{stands};
ghost use Rattle.wast_words.specs.WordSyntax.{alone, optional};

use std::marker::PhantomData;
use wast_parser::{
    Cursor, Error, Keyword, KeywordName, LParen, Meaning, Parse, Parser, Peek, closed,
};

/// A word in parentheses, to be looked for: a peek tells where a group begins with the word, whatever follows in it.
#[derive(Drop)]
pub struct Group<N> {
    of: PhantomData<N>,
}

impl<N: KeywordName> Meaning for Group<N> {
    ghost Tree = { Unit {0} };

    ghost tree = { λ _. tt };

    ghost syntax = { alone N.word };

    fn lawful()
        ensures { Lawful (alone {N = Name} {P = ℕ} N.word) }
    {}
}

impl<N: KeywordName> Peek for Group<N> {
    ghost plain = { refl };

    ghost sure = { refl };

    fn leads()
        ensures { Leads (alone {N = Name} {P = ℕ} N.word).spells (this_group N.word ∷ []) }
    {}

    #[inline(always)]
    fn peek(cursor: Cursor<'_, '_>) -> Result<bool, Error>
        ensures { Asks result (stands cursor.entry).source (ask (this_group N.word ∷ []) (ahead (stands cursor.entry))) }
    {
        cursor.peek_group(N::text())
    }

    fn display() -> &'static str {
        N::text()
    }
}

/// Reads a value behind this word, in parentheses; the value's type registers no annotation. Refused where none is spelled here, or for
/// want of memory.
pub fn group_of<'a, T: Parse<'a>>(parser: &mut Parser<'a>, word: &str) -> Result<T, Error>
    requires { T.registers ≡ [] }
    ensures read { Gives T.tree result parser.new ((group word.now T.syntax).reads (ahead parser.old)) }
    ensures keeps { Keeps parser.old parser.new }
{
    LParen::parse(parser)?;
    parser.word(word)?;
    let value = T::parse(parser)?;
    closed(parser, value)
}

/// Takes a word where it stands; answers whether it did. Refused only where no token can be read here; the parser stays then.
pub fn optional<'a, N: KeywordName>(parser: &mut Parser<'a>) -> Result<bool, Error>
    ensures read { Gives (λ b. b) result parser.new ((optional N.word).reads (ahead parser.old)) }
    ensures keeps { Keeps parser.old parser.new }
    ensures stays { OnErr result (parser.new ≡ parser.old) }
    ensures exact { OnErr result ((optional N.word).reads (ahead parser.old) ≡ None) }
{
    if !parser.peek::<Keyword<N>>()? {
        return Ok(false);
    }
    match parser.word(N::text()) {
        Ok(_) => Ok(true),
        Err(e) => Err(e),
    }
}

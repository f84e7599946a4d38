//! What stands before a parser.
ghost use Rattle.std.specs.Prelude.{◌≡◌, ℕ, List, [], ◌∷◌, false, refl, codes};
ghost use Rattle.wast_parser.specs.Look.{ask, unders, On, AWord, Texts};
ghost use Rattle.wast_parser.specs.State.{ahead};
ghost use Rattle.wast_parser.specs.Reading.{Asks};
ghost use Rattle.wast_expressions.specs.Expressions.{group_tests};
ghost use Rattle.wast_expressions.specs.Views.{any_word};

use crate::operation::Operation;
use std::marker::PhantomData;
use wast_parser::{Cursor, Error, KeywordName, LParen, Meaning, Parser, Peek};

/// A word of an instruction.
#[derive(Drop)]
pub(crate) struct Word<I> {
    of: PhantomData<I>,
}

impl<I: Operation> Meaning for Word<I> {
    ghost Tree = { List ℕ × ℕ };

    ghost tree = { λ w. ([], 0) };

    ghost syntax = { any_word I.heads };

    fn lawful() {}
}

impl<I: Operation> Peek for Word<I> {
    ghost plain = { refl };

    ghost sure = { refl };

    fn leads() {}

    fn peek(cursor: Cursor<'_, '_>) -> Result<bool, Error> {
        I::peek_word(cursor)
    }

    fn display() -> &'static str {
        "an instruction"
    }
}

/// The word that leads the first arm of an `if`.
#[derive(Drop)]
pub(crate) struct Then;

impl KeywordName for Then {
    ghost word = { codes "then" };

    fn text() -> &'static str {
        "then"
    }
}

/// The word that leads the second arm of an `if`.
#[derive(Drop)]
pub(crate) struct Else;

impl KeywordName for Else {
    ghost word = { codes "else" };

    fn text() -> &'static str {
        "else"
    }
}

/// The word that leads an offset.
#[derive(Drop)]
pub(crate) struct Offset;

impl KeywordName for Offset {
    ghost word = { codes "offset" };

    fn text() -> &'static str {
        "offset"
    }
}

/// Whether a parenthesis opens here and such a word stands behind it.
pub(crate) fn peek_led<T: Peek>(parser: &Parser<'_>) -> Result<bool, Error>
    requires { (t : Texts) × (T.syntax.starts ≡ On false AWord t ∷ []) }
    ensures { Asks result parser.now.source (ask (unders T.syntax.starts) (ahead parser.now)) }
{
    match parser.peek::<LParen>() {
        Ok(true) => parser.peek2::<T>(),
        Ok(false) => Ok(false),
        Err(e) => Err(e),
    }
}

/// Whether a group begins here.
pub(crate) fn peek_group<I: Operation>(parser: &Parser<'_>) -> Result<bool, Error>
    ensures { Asks result parser.now.source (ask (group_tests I.heads) (ahead parser.now)) }
{
    peek_led::<Word<I>>(parser)
}

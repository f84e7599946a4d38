//! Strings: their bytes, and the texts that they are.
ghost use Rattle.std.specs.Prelude.{ℕ, List, [], ◌∷◌, false, refl, string_bytes};
ghost use Rattle.std.specs.Cow.{cow_str_bytes};
ghost use Rattle.wast_grammar.specs.Tokens.{Name};
ghost use Rattle.wast_grammar.specs.Look.{ask, On, AString, Any};
ghost use Rattle.wast_grammar.specs.Grammar.{string};
ghost use Rattle.wast_grammar.specs.Lawful.{Lawful, Leads};
ghost use Rattle.wast_parser_core.specs.Productions.{name};
ghost use Rattle.wast_parser_core.specs.State.{ahead};
ghost use Rattle.wast_parser_core.specs.Reading.{Asks};
ghost use Rattle.wast_parser_core.specs.Cursors.{stands};

use crate::cursor::Cursor;
use crate::meaning::{Item, Meaning, Parse, Peek};
use crate::parser::Parser;
use item_lists::Bytes;
use std::alloc::Global;
use std::borrow::CowStr;
use wast_parser_base::Error;

/// The bytes that a string stands for.
impl<'a> Meaning for Bytes<'a> {
    ghost Tree = { List ℕ };

    ghost tree = { λ bytes. bytes };

    ghost syntax = { string };

    fn lawful()
        ensures { Lawful (string {N = Name} {P = ℕ}) }
    {}
}

impl<'a> Parse<'a> for Bytes<'a> {
    fn parse(parser: &mut Parser<'a>) -> Result<Self, Error> {
        parser.string()
    }
}

impl<'a> Peek for Bytes<'a> {
    ghost plain = { refl };

    ghost sure = { refl };

    fn leads()
        ensures { Leads (string {N = Name} {P = ℕ}).spells (On false AString Any ∷ []) }
    {}

    fn peek(cursor: Cursor<'_, '_>) -> Result<bool, Error>
        ensures { Asks result (stands cursor.entry).source (ask (On false AString Any ∷ []) (ahead (stands cursor.entry))) }
    {
        cursor.peek_string()
    }

    fn display() -> &'static str {
        "string"
    }
}

impl<'a> Item for Bytes<'a> {
    ghost inside = { refl };
}

/// The text that a string is, where it is one.
impl<'a> Meaning for CowStr<'a, Global> {
    ghost Tree = { List ℕ };

    ghost tree = { cow_str_bytes };

    ghost syntax = { name };

    fn lawful()
        ensures { Lawful (name {N = Name} {P = ℕ}) }
    {}
}

impl<'a> Parse<'a> for CowStr<'a, Global> {
    fn parse(parser: &mut Parser<'a>) -> Result<Self, Error> {
        parser.name()
    }
}

impl<'a> Peek for CowStr<'a, Global> {
    ghost plain = { refl };

    ghost sure = { refl };

    fn leads()
        ensures { Leads (name {N = Name} {P = ℕ}).spells (On false AString Any ∷ []) }
    {}

    fn peek(cursor: Cursor<'_, '_>) -> Result<bool, Error>
        ensures { Asks result (stands cursor.entry).source (ask (On false AString Any ∷ []) (ahead (stands cursor.entry))) }
    {
        cursor.peek_string()
    }

    fn display() -> &'static str {
        "string"
    }
}

impl<'a> Item for CowStr<'a, Global> {
    ghost inside = { refl };
}

impl Meaning for String {
    ghost Tree = { List ℕ };

    ghost tree = { string_bytes };

    ghost syntax = { name };

    fn lawful() {}
}

impl<'a> Parse<'a> for String {
    fn parse(parser: &mut Parser<'a>) -> Result<Self, Error> {
        let text = parser.name()?;
        Ok(text.into_owned(parser.alloc())?)
    }
}

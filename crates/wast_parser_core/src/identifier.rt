//! Identifiers and indices.
ghost use Rattle.std.specs.Prelude.{ℕ, [], ◌∷◌, false, refl};
ghost use Rattle.wast_grammar.specs.Tokens.{Name};
ghost use Rattle.wast_grammar.specs.Look.{ask, On, AnInteger, AnId, Any, this_group};
ghost use Rattle.wast_grammar.specs.Lawful.{Lawful, Leads};
ghost use Rattle.wast_parser_core.specs.State.{ahead, Keeps};
ghost use Rattle.wast_parser_core.specs.Reading.{Asks, Gives};
ghost use Rattle.wast_parser_core.specs.Cursors.{stands};
ghost use Rattle.wast_parser_core.specs.Identifiers.{Named, Reference, identifier, identifier_tree, index, index_tree, item_ref};

use crate::cursor::Cursor;
use crate::keyword::{Keyword, KeywordName};
use crate::meaning::{Item, Meaning, Parse, Peek};
use crate::option::required;
use crate::parser::Parser;
use wast_lexer::Span;
use wast_parser_base::{Error, Id, Index, ItemRef};

impl<'a> Meaning for Id<'a> {
    ghost Tree = { Named Name ℕ };

    ghost tree = { identifier_tree };

    ghost syntax = { identifier };

    fn lawful()
        ensures { Lawful (identifier {N = Name} {P = ℕ}) }
    {}
}

impl<'a> Parse<'a> for Id<'a> {
    fn parse(parser: &mut Parser<'a>) -> Result<Self, Error> {
        let (name, span) = parser.id()?;
        Ok(Id::decoded(parser.alloc(), name, span)?)
    }
}

impl<'a> Peek for Id<'a> {
    ghost plain = { refl };

    ghost sure = { refl };

    fn leads()
        ensures { Leads (identifier {N = Name} {P = ℕ}).spells (On false AnId Any ∷ []) }
    {}

    fn peek(cursor: Cursor<'_, '_>) -> Result<bool, Error>
        ensures { Asks result (stands cursor.entry).source (ask (On false AnId Any ∷ []) (ahead (stands cursor.entry))) }
    {
        cursor.peek_id()
    }

    fn display() -> &'static str {
        "an identifier"
    }
}

impl<'a> Item for Id<'a> {
    ghost inside = { refl };
}

impl<'a> Meaning for Index<'a> {
    ghost Tree = { Reference Name ℕ };

    ghost tree = { index_tree };

    ghost syntax = { index };

    fn lawful()
        ensures { Lawful (index {N = Name} {P = ℕ}) }
    {}
}

impl<'a> Parse<'a> for Index<'a> {
    fn parse(parser: &mut Parser<'a>) -> Result<Self, Error> {
        if parser.peek::<u32>()? {
            let (number, span) = <(u32, Span)>::parse(parser)?;
            Ok(Index::Num(number, span))
        } else {
            Ok(Index::Id(required(parser, "expected an index")?))
        }
    }
}

impl<'a> Peek for Index<'a> {
    ghost plain = { refl };

    ghost sure = { refl };

    fn leads()
        ensures { Leads (index {N = Name} {P = ℕ}).spells (On false AnInteger Any ∷ On false AnId Any ∷ []) }
    {}

    fn peek(cursor: Cursor<'_, '_>) -> Result<bool, Error>
        ensures { Asks result (stands cursor.entry).source (ask (On false AnInteger Any ∷ On false AnId Any ∷ []) (ahead (stands cursor.entry))) }
    {
        cursor.peek_index()
    }

    fn display() -> &'static str {
        "an index"
    }
}

impl<'a> Item for Index<'a> {
    ghost inside = { refl };
}

impl<'a, N: KeywordName> Meaning for ItemRef<'a, Keyword<N>> {
    ghost Tree = { ℕ × Reference Name ℕ };

    ghost tree = { λ r. (r.kind.span, index_tree r.idx) };

    ghost syntax = { item_ref N.word };

    fn lawful()
        ensures { Lawful (item_ref {N = Name} {P = ℕ} N.word) }
    {}
}

impl<'a, N: KeywordName> Parse<'a> for ItemRef<'a, Keyword<N>> {
    fn parse(parser: &mut Parser<'a>) -> Result<Self, Error> {
        let at = parser.at;
        let depth = parser.depth;
        let result = in_parens(parser);
        parser.depth = depth;
        if result.is_err() {
            parser.at = at;
        }
        result
    }
}

impl<'a, N: KeywordName> Peek for ItemRef<'a, Keyword<N>> {
    ghost plain = { refl };

    ghost sure = { refl };

    fn leads()
        ensures { Leads (item_ref {N = Name} {P = ℕ} N.word).spells (this_group N.word ∷ []) }
    {}

    fn peek(cursor: Cursor<'_, '_>) -> Result<bool, Error>
        ensures { Asks result (stands cursor.entry).source (ask (this_group N.word ∷ []) (ahead (stands cursor.entry))) }
    {
        cursor.peek_group(N::text())
    }

    fn display() -> &'static str {
        "an item reference"
    }
}

impl<'a, N: KeywordName> Item for ItemRef<'a, Keyword<N>> {
    ghost inside = { refl };
}

/// The same, but for the depth; where it is refused, within the parentheses too.
fn in_parens<'a, N: KeywordName>(parser: &mut Parser<'a>) -> Result<ItemRef<'a, Keyword<N>>, Error>
    ensures read { Gives (λ r. (r.kind.span, index_tree r.idx)) result parser.new ((item_ref N.word).reads (ahead parser.old)) }
    ensures keeps { Keeps (record parser.old { depth = parser.new.depth }) parser.new }
{
    parser.open()?;
    let kind = Keyword::parse(parser)?;
    let idx = Index::parse(parser)?;
    parser.close()?;
    Ok(ItemRef { kind, idx })
}

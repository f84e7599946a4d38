//! Members of groups of imports.
ghost use Rattle.std.specs.Prelude.{◌≡◌, ℕ, List, ◌∷◌, Option, IfOk, map, option_map, refl};
ghost use Rattle.std.specs.Cow.{cow_str_bytes};
ghost use Rattle.wast_signatures.specs.Tokens.{Name};
ghost use Rattle.wast_signatures.specs.Look.{ask};
ghost use Rattle.wast_signatures.specs.Lawful.{Lawful, Leads};
ghost use Rattle.wast_signatures.specs.State.{ahead};
ghost use Rattle.wast_signatures.specs.Reading.{Asks};
ghost use Rattle.wast_signatures.specs.Cursors.{stands};
ghost use Rattle.wast_imports.specs.ImportTree as spec;
ghost use Rattle.wast_imports.specs.ImportSyntax.{member_starts, member, member_name, first_member};
ghost use Rattle.wast_imports.specs.ImportViews.{item_tree, member_tree, member_name_tree};

use crate::import::{FirstItem, ImportGroup1Item, ImportGroup2Item};
use crate::item::ItemSig;
use std::alloc::{AllocError, Global};
use wast_signatures::{Cursor, Error, Item, LParen, Meaning, Parse, Parser, Peek, closed};

/// A member of a group, as it is written.
#[derive(Drop)]
pub(crate) struct Member<T> {
    pub(crate) item: T,
}

impl<'a> Meaning for Member<ImportGroup1Item<'a>> {
    ghost Tree = { List ℕ × spec.Item Name ℕ };

    ghost tree = { λ m. member_tree m.item };

    ghost syntax = { member };

    fn lawful()
        ensures { Lawful (member {N = Name} {P = ℕ}) }
    {}
}

impl<'a> Parse<'a> for Member<ImportGroup1Item<'a>> {
    fn parse(parser: &mut Parser<'a>) -> Result<Self, Error> {
        LParen::parse(parser)?;
        parser.word("item")?;
        let name = parser.name()?;
        let sig = ItemSig::parse(parser)?;
        let sig = closed(parser, sig)?;
        Ok(Member {
            item: ImportGroup1Item { name, sig },
        })
    }
}

impl<'a> Peek for Member<ImportGroup1Item<'a>> {
    ghost plain = { refl };

    ghost sure = { refl };

    fn leads()
        ensures { Leads (member {N = Name} {P = ℕ}).spells member_starts }
    {}

    fn peek(cursor: Cursor<'_, '_>) -> Result<bool, Error>
        ensures { Asks result (stands cursor.entry).source (ask member_starts (ahead (stands cursor.entry))) }
    {
        cursor.peek_group("item")
    }

    fn display() -> &'static str {
        "an item of a group"
    }
}

impl<'a> Item for Member<ImportGroup1Item<'a>> {
    ghost inside = { refl };
}

impl<'a> Meaning for Member<ImportGroup2Item<'a>> {
    ghost Tree = { List ℕ };

    ghost tree = { λ m. member_name_tree m.item };

    ghost syntax = { member_name };

    fn lawful()
        ensures { Lawful (member_name {N = Name} {P = ℕ}) }
    {}
}

impl<'a> Parse<'a> for Member<ImportGroup2Item<'a>> {
    fn parse(parser: &mut Parser<'a>) -> Result<Self, Error> {
        LParen::parse(parser)?;
        parser.word("item")?;
        let name = parser.name()?;
        let name = closed(parser, name)?;
        Ok(Member {
            item: ImportGroup2Item { name },
        })
    }
}

impl<'a> Peek for Member<ImportGroup2Item<'a>> {
    ghost plain = { refl };

    ghost sure = { refl };

    fn leads()
        ensures { Leads (member_name {N = Name} {P = ℕ}).spells member_starts }
    {}

    fn peek(cursor: Cursor<'_, '_>) -> Result<bool, Error>
        ensures { Asks result (stands cursor.entry).source (ask member_starts (ahead (stands cursor.entry))) }
    {
        cursor.peek_group("item")
    }

    fn display() -> &'static str {
        "a name of a group"
    }
}

impl<'a> Item for Member<ImportGroup2Item<'a>> {
    ghost inside = { refl };
}

impl<'a> Meaning for Member<FirstItem<'a>> {
    ghost Tree = { List ℕ × Option (spec.Item Name ℕ) };

    ghost tree = { λ m. (cow_str_bytes m.item.name, option_map item_tree m.item.sig) };

    ghost syntax = { first_member };

    fn lawful()
        ensures { Lawful (first_member {N = Name} {P = ℕ}) }
    {}
}

impl<'a> Parse<'a> for Member<FirstItem<'a>> {
    fn parse(parser: &mut Parser<'a>) -> Result<Self, Error> {
        LParen::parse(parser)?;
        parser.word("item")?;
        let name = parser.name()?;
        let sig = Option::parse(parser)?;
        let sig = closed(parser, sig)?;
        Ok(Member {
            item: FirstItem { name, sig },
        })
    }
}

impl<'a> Peek for Member<FirstItem<'a>> {
    ghost plain = { refl };

    ghost sure = { refl };

    fn leads()
        ensures { Leads (first_member {N = Name} {P = ℕ}).spells member_starts }
    {}

    fn peek(cursor: Cursor<'_, '_>) -> Result<bool, Error>
        ensures { Asks result (stands cursor.entry).source (ask member_starts (ahead (stands cursor.entry))) }
    {
        cursor.peek_group("item")
    }

    fn display() -> &'static str {
        "the first item of a group"
    }
}

/// The first, and then the others.
pub(crate) fn with_more<T: Drop>(
    alloc: Global,
    first: T,
    more: Vec<Member<T>>,
) -> Result<Vec<T>, AllocError>
    ensures { IfOk result (λ items. items.items ≡ first ∷ map (λ m. m.item) more.items) }
{
    let mut items = Vec::new(alloc);
    items.push(first)?;
    for member in more {
        items.push(member.item)?;
    }
    Ok(items)
}

//! The clauses of `try_table`.
ghost use Rattle.std.specs.Prelude.{◌≡◌, ℕ, option_map, refl};
ghost use Rattle.wast_signatures.specs.Tokens.{Name};
ghost use Rattle.wast_signatures.specs.Look.{ask};
ghost use Rattle.wast_signatures.specs.Lawful.{Lawful, Leads};
ghost use Rattle.wast_signatures.specs.State.{ahead};
ghost use Rattle.wast_signatures.specs.Reading.{Asks};
ghost use Rattle.wast_signatures.specs.Cursors.{stands};
ghost use Rattle.wast_signatures.specs.Identifiers.{Reference, index_tree};
ghost use Rattle.wast_signatures.specs.declared.Index.{Index};
ghost use Rattle.wast_typed_operands.specs.TypedTree as spec;
ghost use Rattle.wast_typed_operands.specs.TypedSyntax.{tag_label, clause, catch_starts};
ghost use Rattle.wast_typed_operands.specs.TypedViews.{catch_of, catch_tree, tag_of, with_tag};

use crate::keyword;
use wast_signatures::{
    Cursor, Error, Group, Index, Item, Meaning, Parse, Parser, Peek, group_of, or_peek, pair,
};

/// What a clause catches: exceptions of a tag, or all; with a reference to the exception, or without.
#[derive(Drop)]
pub enum TryTableCatchKind<'a> {
    Catch(Index<'a>),
    CatchRef(Index<'a>),
    CatchAll,
    CatchAllRef,
}

impl<'a> TryTableCatchKind<'a> {
    /// The tag of what is caught, where that is of one.
    pub fn tag_index(&self) -> Option<&Index<'a>>
        ensures { option_map (λ tag. index_tree tag.now) result ≡ tag_of self.now }
    {
        match self {
            TryTableCatchKind::Catch(tag) | TryTableCatchKind::CatchRef(tag) => Some(tag),
            TryTableCatchKind::CatchAll | TryTableCatchKind::CatchAllRef => None,
        }
    }

    /// The same with another tag; what catches all has none.
    pub fn with_tag_index(self, tag: Index<'a>) -> Self
        ensures { (label : Index) → catch_of result label ≡ with_tag (index_tree tag.entry) (catch_of self.entry label) }
    {
        match self {
            TryTableCatchKind::Catch(_) => TryTableCatchKind::Catch(tag),
            TryTableCatchKind::CatchRef(_) => TryTableCatchKind::CatchRef(tag),
            other => other,
        }
    }
}

/// A clause of `try_table`: what it catches, and the label to which it branches then.
#[derive(Drop)]
pub struct TryTableCatch<'a> {
    pub kind: TryTableCatchKind<'a>,
    pub label: Index<'a>,
}

impl<'a> Meaning for TryTableCatch<'a> {
    ghost Tree = { spec.Catch Name ℕ };

    ghost tree = { catch_tree };

    ghost syntax = { clause };

    fn lawful()
        ensures { Lawful (clause {N = Name} {P = ℕ}) }
    {}
}

impl<'a> Parse<'a> for TryTableCatch<'a> {
    fn parse(parser: &mut Parser<'a>) -> Result<Self, Error> {
        if parser.peek::<Group<keyword::Catch>>()? {
            let TagLabel { tag, label } = group_of(parser, "catch")?;
            Ok(TryTableCatch {
                kind: TryTableCatchKind::Catch(tag),
                label,
            })
        } else if parser.peek::<Group<keyword::CatchRef>>()? {
            let TagLabel { tag, label } = group_of(parser, "catch_ref")?;
            Ok(TryTableCatch {
                kind: TryTableCatchKind::CatchRef(tag),
                label,
            })
        } else if parser.peek::<Group<keyword::CatchAll>>()? {
            let label = group_of(parser, "catch_all")?;
            Ok(TryTableCatch {
                kind: TryTableCatchKind::CatchAll,
                label,
            })
        } else {
            let label = group_of(parser, "catch_all_ref")?;
            Ok(TryTableCatch {
                kind: TryTableCatchKind::CatchAllRef,
                label,
            })
        }
    }
}

impl<'a> Peek for TryTableCatch<'a> {
    ghost plain = { refl };

    ghost sure = { refl };

    fn leads()
        ensures { Leads (clause {N = Name} {P = ℕ}).spells catch_starts }
    {}

    fn peek(cursor: Cursor<'_, '_>) -> Result<bool, Error>
        ensures { Asks result (stands cursor.entry).source (ask catch_starts (ahead (stands cursor.entry))) }
    {
        let found = cursor.peek_group("catch");
        let found = or_peek::<Group<keyword::CatchRef>>(found, cursor);
        let found = or_peek::<Group<keyword::CatchAll>>(found, cursor);
        or_peek::<Group<keyword::CatchAllRef>>(found, cursor)
    }

    fn display() -> &'static str {
        "a clause"
    }
}

impl<'a> Item for TryTableCatch<'a> {
    ghost inside = { refl };
}

/// A tag and a label.
#[derive(Drop)]
struct TagLabel<'a> {
    tag: Index<'a>,
    label: Index<'a>,
}

impl<'a> Meaning for TagLabel<'a> {
    ghost Tree = { Reference Name ℕ × Reference Name ℕ };

    ghost tree = { λ x. (index_tree x.tag, index_tree x.label) };

    ghost syntax = { tag_label };

    fn lawful()
        ensures { Lawful (tag_label {N = Name} {P = ℕ}) }
    {}
}

impl<'a> Parse<'a> for TagLabel<'a> {
    fn parse(parser: &mut Parser<'a>) -> Result<Self, Error> {
        let (tag, label) = pair(parser)?;
        Ok(TagLabel { tag, label })
    }
}

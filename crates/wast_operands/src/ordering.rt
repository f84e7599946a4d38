//! Orderings of atomic instructions.
ghost use Rattle.std.specs.Prelude.{◌≡◌, ℕ, [], true, refl};
ghost use Rattle.wast_vector_operands.specs.Tokens.{Name};
ghost use Rattle.wast_vector_operands.specs.Look.{ask, apart};
ghost use Rattle.wast_vector_operands.specs.Lawful.{Lawful, Leads};
ghost use Rattle.wast_vector_operands.specs.State.{ahead};
ghost use Rattle.wast_vector_operands.specs.Reading.{Asks};
ghost use Rattle.wast_vector_operands.specs.Cursors.{stands};
ghost use Rattle.wast_operands.specs.OperandTree as spec;
ghost use Rattle.wast_operands.specs.OperandSyntax.{ordering_word, orderings, ordering_starts, ordering, optional_ordering, ordered};
ghost use Rattle.wast_operands.specs.OperandViews.{ordering_tree};

use crate::index::{StructAccess, TableArg};
use wast_vector_operands::{Cursor, Error, Index, Item, Meaning, Parse, Parser, Peek, WordSet};

/// How an atomic instruction is ordered with others.
#[derive(Clone, Copy, PartialEq, Eq, Hash)]
pub enum Ordering {
    AcqRel,
    SeqCst,
}

impl WordSet for Ordering {
    ghost Entry = { spec.Ordering };

    ghost entry = { ordering_tree };

    ghost word = { ordering_word };

    ghost entries = { orderings };

    fn of(text: &[u8]) -> Option<Self> {
        if text == "acq_rel".as_bytes() {
            Some(Ordering::AcqRel)
        } else if text == "seq_cst".as_bytes() {
            Some(Ordering::SeqCst)
        } else {
            None
        }
    }
}

impl Meaning for Ordering {
    ghost Tree = { spec.Ordering };

    ghost tree = { ordering_tree };

    ghost syntax = { ordering };

    fn lawful()
        ensures { Lawful (ordering {N = Name} {P = ℕ}) }
    {}
}

impl<'a> Parse<'a> for Ordering {
    fn parse(parser: &mut Parser<'a>) -> Result<Self, Error> {
        let (ordering, _) = parser.among("expected an ordering")?;
        Ok(ordering)
    }
}

impl Peek for Ordering {
    ghost plain = { refl };

    ghost sure = { refl };

    fn leads()
        ensures { Leads (ordering {N = Name} {P = ℕ}).spells ordering_starts }
    {}

    fn peek(cursor: Cursor<'_, '_>) -> Result<bool, Error>
        ensures { Asks result (stands cursor.entry).source (ask ordering_starts (ahead (stands cursor.entry))) }
    {
        cursor.peek_among::<Ordering>()
    }

    fn display() -> &'static str {
        "an ordering"
    }
}

impl Item for Ordering {
    ghost inside = { refl };
}

/// What can stand behind an ordering that may be left out: it doesn't begin with one, and registers no annotation.
pub trait Unordered: Meaning {
    ghost plain: { Self.registers ≡ [] };

    ghost clear: { apart (optional_ordering {N = Name} {P = ℕ}).stops Self.syntax.starts ≡ true };
}

impl<'a> Unordered for Index<'a> {
    ghost plain = { refl };

    ghost clear = { refl };
}

impl<'a> Unordered for TableArg<'a> {
    ghost plain = { refl };

    ghost clear = { refl };
}

impl<'a> Unordered for StructAccess<'a> {
    ghost plain = { refl };

    ghost clear = { refl };
}

/// An operand behind an ordering, which is `seq_cst` where it isn't written.
#[derive(Drop)]
pub struct Ordered<T> {
    pub ordering: Ordering,
    pub inner: T,
}

impl<T: Unordered> Meaning for Ordered<T> {
    ghost Tree = { spec.Ordering × T.Tree };

    ghost tree = { λ o. (ordering_tree o.ordering, T.tree o.inner) };

    ghost syntax = { ordered T.syntax };

    fn lawful() {
        T::lawful();
    }
}

impl<'a, T: Parse<'a> + Unordered> Parse<'a> for Ordered<T> {
    fn parse(parser: &mut Parser<'a>) -> Result<Self, Error> {
        let ordering: Option<Ordering> = Option::parse(parser)?;
        let inner = T::parse(parser)?;
        Ok(Ordered {
            ordering: ordering.unwrap_or(Ordering::SeqCst),
            inner,
        })
    }
}

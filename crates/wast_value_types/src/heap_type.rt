//! Heap types.
ghost use Rattle.std.specs.Prelude.{◌≡◌, ℕ, IfOk, refl, IsOk, true};
ghost use Rattle.wast_words.specs.Tokens.{Name};
ghost use Rattle.wast_words.specs.Look.{ask};
ghost use Rattle.wast_words.specs.Lawful.{Lawful, Leads};
ghost use Rattle.wast_words.specs.State.{ahead};
ghost use Rattle.wast_words.specs.Reading.{Asks};
ghost use Rattle.wast_words.specs.Cursors.{stands};
ghost use Rattle.wast_value_types.specs.ValueTree as spec;
ghost use Rattle.wast_words.specs.WordSyntax.{keyword, keywords};
ghost use Rattle.wast_value_types.specs.ValueSyntax.{heap_words, heap_type, heap_starts};
ghost use Rattle.wast_value_types.specs.ValueViews.{heap_word, heap_text, heap_tree};
ghost use Rattle.wast_value_types.specs.Nameless.{heap_nameless};

use crate::keyword::{Exact, Shared};
use std::alloc::{AllocError, Global};
use wast_words::{
    Cursor, Error, Group, Index, Item, Meaning, Parse, Parser, Peek, Word, Words, Written, find,
    group_of, or_peek,
};

/// An abstract heap type (6.4.2), or one of the stack switching proposal.
#[derive(Clone, Copy, PartialEq, Eq, Hash)]
pub enum AbstractHeapType {
    Func,
    Extern,
    Exn,
    Cont,
    Any,
    Eq,
    Struct,
    Array,
    I31,
    NoFunc,
    NoExtern,
    None,
    NoExn,
    NoCont,
}

/// A heap type (6.4.2): an abstract one, which may be shared, or the index of a type, which may be exact. Indices are the
/// same wherever they stand; equal heap types hash alike.
#[derive(Drop)]
#[derive_where(PartialEq, Eq, Hash)]
pub enum HeapType<'a> {
    Abstract { shared: bool, ty: AbstractHeapType },
    Concrete(Index<'a>),
    Exact(Index<'a>),
}

impl<'a> HeapType<'a> {
    /// The same heap type at the same place. Fails only for want of memory, of which one without a name needs none.
    pub fn clone(&self, alloc: Global) -> Result<Self, AllocError>
        ensures same { IfOk result (λ copy. copy ≡ self.now) }
        ensures plain { heap_nameless self.now ≡ true → IsOk result }
    {
        match self {
            HeapType::Abstract { shared, ty } => Ok(HeapType::Abstract {
                shared: *shared,
                ty: *ty,
            }),
            HeapType::Concrete(index) => Ok(HeapType::Concrete(index.clone(alloc)?)),
            HeapType::Exact(index) => Ok(HeapType::Exact(index.clone(alloc)?)),
        }
    }
}

impl Meaning for AbstractHeapType {
    ghost Tree = { spec.HeapWord };

    ghost tree = { heap_word };

    ghost syntax = { keyword heap_words };

    fn lawful()
        ensures { Lawful (keyword {N = Name} {P = ℕ} heap_words) }
    {}
}

impl<'a> Parse<'a> for AbstractHeapType {
    fn parse(parser: &mut Parser<'a>) -> Result<Self, Error> {
        let word: Word<AbstractHeapType> = parser.parse()?;
        Ok(word.value)
    }
}

impl Peek for AbstractHeapType {
    ghost plain = { refl };

    ghost sure = { refl };

    fn leads()
        ensures { Leads (keyword {N = Name} {P = ℕ} heap_words).spells (keywords heap_words) }
    {}

    fn peek(cursor: Cursor<'_, '_>) -> Result<bool, Error>
        ensures { Asks result (stands cursor.entry).source (ask (keywords heap_words) (ahead (stands cursor.entry))) }
    {
        Word::<AbstractHeapType>::peek(cursor)
    }

    fn display() -> &'static str {
        AbstractHeapType::NAME
    }
}

impl Item for AbstractHeapType {
    ghost inside = { refl };
}

impl<'a> Meaning for HeapType<'a> {
    ghost Tree = { spec.HeapType Name ℕ };

    ghost tree = { heap_tree };

    ghost syntax = { heap_type };

    fn lawful()
        ensures { Lawful (heap_type {N = Name} {P = ℕ}) }
    {}
}

impl<'a> Parse<'a> for HeapType<'a> {
    #[tactic(auto, using(crate::proofs::ValueLaws::not_shared))]
    fn parse(parser: &mut Parser<'a>) -> Result<Self, Error> {
        if parser.peek::<Index>()? {
            Ok(HeapType::Concrete(Index::parse(parser)?))
        } else if parser.peek::<AbstractHeapType>()? {
            let ty = AbstractHeapType::parse(parser)?;
            Ok(HeapType::Abstract { shared: false, ty })
        } else if parser.peek::<Group<Exact>>()? {
            Ok(HeapType::Exact(group_of(parser, "exact")?))
        } else if parser.peek::<Group<Shared>>()? {
            let ty = group_of(parser, "shared")?;
            Ok(HeapType::Abstract { shared: true, ty })
        } else {
            Err(parser.error("expected a heap type"))
        }
    }
}

impl<'a> Peek for HeapType<'a> {
    ghost plain = { refl };

    ghost sure = { refl };

    fn leads()
        ensures { Leads (heap_type {N = Name} {P = ℕ}).spells heap_starts }
    {}

    fn peek(cursor: Cursor<'_, '_>) -> Result<bool, Error>
        ensures { Asks result (stands cursor.entry).source (ask heap_starts (ahead (stands cursor.entry))) }
    {
        let found = Index::peek(cursor);
        let found = or_peek::<AbstractHeapType>(found, cursor);
        let found = or_peek::<Group<Exact>>(found, cursor);
        or_peek::<Group<Shared>>(found, cursor)
    }

    fn display() -> &'static str {
        "a heap type"
    }
}

impl<'a> Item for HeapType<'a> {
    ghost inside = { refl };
}

/// The abstract heap types in the order of their keywords.
const HEAP_TYPES: [AbstractHeapType; 14] = [
    AbstractHeapType::Func,
    AbstractHeapType::Extern,
    AbstractHeapType::Exn,
    AbstractHeapType::Cont,
    AbstractHeapType::Any,
    AbstractHeapType::Eq,
    AbstractHeapType::Struct,
    AbstractHeapType::Array,
    AbstractHeapType::I31,
    AbstractHeapType::NoFunc,
    AbstractHeapType::NoExtern,
    AbstractHeapType::None,
    AbstractHeapType::NoExn,
    AbstractHeapType::NoCont,
];

impl Written for AbstractHeapType {
    ghost Tree = { spec.HeapWord };

    ghost entry = { λ h. (heap_text h, heap_word h) };

    ghost entries = { heap_words };

    fn text(self) -> &'static str {
        match self {
            AbstractHeapType::Func => "func",
            AbstractHeapType::Extern => "extern",
            AbstractHeapType::Exn => "exn",
            AbstractHeapType::Cont => "cont",
            AbstractHeapType::Any => "any",
            AbstractHeapType::Eq => "eq",
            AbstractHeapType::Struct => "struct",
            AbstractHeapType::Array => "array",
            AbstractHeapType::I31 => "i31",
            AbstractHeapType::NoFunc => "nofunc",
            AbstractHeapType::NoExtern => "noextern",
            AbstractHeapType::None => "none",
            AbstractHeapType::NoExn => "noexn",
            AbstractHeapType::NoCont => "nocont",
        }
    }
}

impl Words for AbstractHeapType {
    const NAME: &'static str = "an abstract heap type";

    const EXPECTED: &'static str = "expected an abstract heap type";

    fn of(text: &[u8]) -> Option<Self> {
        find(&HEAP_TYPES, text)
    }
}

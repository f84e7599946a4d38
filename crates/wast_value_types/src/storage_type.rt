//! Storage types and field types.
ghost use Rattle.std.specs.Prelude.{◌≡◌, ℕ, IfOk, refl, IsOk, true};
ghost use Rattle.wast_words.specs.Tokens.{Name};
ghost use Rattle.wast_words.specs.Look.{ask};
ghost use Rattle.wast_words.specs.Lawful.{Lawful, Leads};
ghost use Rattle.wast_words.specs.State.{ahead};
ghost use Rattle.wast_words.specs.Reading.{Asks};
ghost use Rattle.wast_words.specs.Cursors.{stands};
ghost use Rattle.wast_value_types.specs.ValueTree.{Packed};
ghost use Rattle.wast_value_types.specs.ValueTree as spec;
ghost use Rattle.wast_value_types.specs.ValueSyntax.{packed_words, field_starts, storage_type, field_type};
ghost use Rattle.wast_value_types.specs.ValueViews.{packed_type, packed_text, storage_tree, field_tree};
ghost use Rattle.wast_value_types.specs.Nameless.{storage_nameless};

use crate::keyword::Mut;
use crate::val_type::ValType;
use std::alloc::{AllocError, Global};
use wast_words::{
    Cursor, Error, Group, Item, Meaning, Parse, Parser, Peek, Word, Words, Written, find, group_of,
    or_peek, required,
};

/// A storage type (6.4.6): what a field holds.
#[derive(Drop)]
pub enum StorageType<'a> {
    I8,
    I16,
    Val(ValType<'a>),
}

impl<'a> StorageType<'a> {
    /// The same storage type at the same place. Fails only for want of memory, of which one without a name needs none.
    pub fn clone(&self, alloc: Global) -> Result<Self, AllocError>
        ensures same { IfOk result (λ copy. copy ≡ self.now) }
        ensures plain { storage_nameless self.now ≡ true → IsOk result }
    {
        match self {
            StorageType::I8 => Ok(StorageType::I8),
            StorageType::I16 => Ok(StorageType::I16),
            StorageType::Val(val_type) => Ok(StorageType::Val(val_type.clone(alloc)?)),
        }
    }
}

impl<'a> Meaning for StorageType<'a> {
    ghost Tree = { spec.StorageType Name ℕ };

    ghost tree = { storage_tree };

    ghost syntax = { storage_type };

    fn lawful()
        ensures { Lawful (storage_type {N = Name} {P = ℕ}) }
    {}
}

impl<'a> Parse<'a> for StorageType<'a> {
    fn parse(parser: &mut Parser<'a>) -> Result<Self, Error> {
        if parser.peek::<Word<PackedType>>()? {
            let packed: Word<PackedType> = parser.parse()?;
            Ok(packed.value.storage_type())
        } else {
            Ok(StorageType::Val(required(parser, "expected a storage type")?))
        }
    }
}

/// A field type (6.4.6): what a field holds, and whether it can be set.
#[derive(Drop)]
pub struct FieldType<'a> {
    pub mutable: bool,
    pub ty: StorageType<'a>,
}

impl<'a> Meaning for FieldType<'a> {
    ghost Tree = { spec.FieldType Name ℕ };

    ghost tree = { field_tree };

    ghost syntax = { field_type };

    fn lawful()
        ensures { Lawful (field_type {N = Name} {P = ℕ}) }
    {}
}

impl<'a> Parse<'a> for FieldType<'a> {
    fn parse(parser: &mut Parser<'a>) -> Result<Self, Error> {
        let mutable = parser.peek::<Group<Mut>>()?;
        let ty = if mutable {
            group_of(parser, "mut")?
        } else {
            StorageType::parse(parser)?
        };
        Ok(FieldType { mutable, ty })
    }
}

impl<'a> Peek for FieldType<'a> {
    ghost plain = { refl };

    ghost sure = { refl };

    fn leads()
        ensures { Leads (field_type {N = Name} {P = ℕ}).spells field_starts }
    {}

    fn peek(cursor: Cursor<'_, '_>) -> Result<bool, Error>
        ensures { Asks result (stands cursor.entry).source (ask field_starts (ahead (stands cursor.entry))) }
    {
        let found = Group::<Mut>::peek(cursor);
        let found = or_peek::<Word<PackedType>>(found, cursor);
        or_peek::<ValType>(found, cursor)
    }

    fn display() -> &'static str {
        "a field type"
    }
}

impl<'a> Item for FieldType<'a> {
    ghost inside = { refl };
}

/// A packed type (6.4.6).
#[derive(Clone, Copy)]
enum PackedType {
    I8,
    I16,
}

/// The packed types in the order of their keywords.
const PACKED_TYPES: [PackedType; 2] = [PackedType::I8, PackedType::I16];

impl PackedType {
    /// The same as a storage type.
    fn storage_type<'a>(self) -> StorageType<'a>
        ensures { storage_tree result ≡ Packed (packed_type self) }
    {
        match self {
            PackedType::I8 => StorageType::I8,
            PackedType::I16 => StorageType::I16,
        }
    }
}

impl Written for PackedType {
    ghost Tree = { spec.PackedType };

    ghost entry = { λ p. (packed_text p, packed_type p) };

    ghost entries = { packed_words };

    fn text(self) -> &'static str {
        match self {
            PackedType::I8 => "i8",
            PackedType::I16 => "i16",
        }
    }
}

impl Words for PackedType {
    const NAME: &'static str = "a packed type";

    const EXPECTED: &'static str = "expected a packed type";

    fn of(text: &[u8]) -> Option<Self> {
        find(&PACKED_TYPES, text)
    }
}

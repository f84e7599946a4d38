//! The types of tables, memories, globals and tags (WebAssembly 3.0, 5.3).

ghost use Rattle.std.specs.Prelude.{◌≡◌, ◌++◌, ◌∷◌, ◌<◌, ◌^◌, if◌then◌else◌, unwrap_or};
ghost use Rattle.wasm_encoder_items.specs.EntityTypes.{global_flags};
ghost use Rattle.wasm_encoder_items.specs.Views.{limits_view, table_view, memory_view, global_view};

use crate::limits::{Limits, flag};
use wasm_encoder_base::{Encode, EncodeError, RefType, ValType};

/// The type of a table (5.3).
#[derive(Clone, Copy, Debug, PartialEq, Eq, Hash)]
pub struct TableType {
    /// What it holds.
    pub element_type: RefType,
    /// Whether its indices have 64 bits; else they have 32.
    pub table64: bool,
    /// How many elements it has at first.
    pub minimum: u64,
    /// How many elements it can have at most.
    pub maximum: Option<u64>,
    /// Whether threads share it (a proposal).
    pub shared: bool,
}

impl TableType {
    /// The type of its indices.
    pub fn index_type(&self) -> ValType
        ensures { result ≡ (if self.now.table64 then ValType.I64 else ValType.I32) }
    {
        index_type(self.table64)
    }

    fn limits(&self) -> Limits
        ensures { limits_view result ≡ (table_view self.now).limits }
    {
        Limits {
            minimum: self.minimum,
            maximum: self.maximum,
            shared: self.shared,
            is_64: self.table64,
            page_size_log2: None,
        }
    }
}

/// The elements' type and the limits.
impl Encode for TableType {
    ghost use Rattle.wasm_encoder_items.specs.EntityTypes.{table_bytes};
    ghost use Rattle.wasm_encoder_items.specs.Views.{table_view};

    ghost can_encode = { λ _. Unit {0} };

    ghost fits = { λ _. Unit {0} };

    ghost spelling = { λ t. table_bytes (table_view t) };

    fn encode(&self, sink: &mut Vec<u8>) -> Result<(), EncodeError> {
        (self.element_type, self.limits()).encode(sink)
    }
}

/// The type of a memory (5.3).
#[derive(Clone, Copy, Debug, PartialEq, Eq, Hash)]
pub struct MemoryType {
    /// How many pages it has at first.
    pub minimum: u64,
    /// How many pages it can have at most.
    pub maximum: Option<u64>,
    /// Whether its addresses have 64 bits; else they have 32.
    pub memory64: bool,
    /// Whether threads share it (a proposal).
    pub shared: bool,
    /// The logarithm of a page's bytes to the base 2, where it is not 16 (a proposal).
    pub page_size_log2: Option<u32>,
}

impl MemoryType {
    /// The type of its addresses.
    pub fn index_type(&self) -> ValType
        ensures { result ≡ (if self.now.memory64 then ValType.I64 else ValType.I32) }
    {
        index_type(self.memory64)
    }

    /// The logarithm of a page's bytes to the base 2: 16 where none is given.
    pub fn page_size_log2(&self) -> u32
        ensures { result ≡ unwrap_or self.now.page_size_log2 16 }
    {
        self.page_size_log2.unwrap_or(16)
    }

    /// How many bytes a page has; their logarithm to the base 2 has to be below 32.
    pub fn page_size(&self) -> u32
        requires { unwrap_or self.now.page_size_log2 16 < 32 }
        ensures { result ≡ 2 ^ unwrap_or self.now.page_size_log2 16 }
    {
        1 << self.page_size_log2()
    }

    fn limits(&self) -> Limits
        ensures { limits_view result ≡ memory_view self.now }
    {
        Limits {
            minimum: self.minimum,
            maximum: self.maximum,
            shared: self.shared,
            is_64: self.memory64,
            page_size_log2: self.page_size_log2,
        }
    }
}

/// The limits.
impl Encode for MemoryType {
    ghost use Rattle.wasm_encoder_items.specs.EntityTypes.{limits_bytes};
    ghost use Rattle.wasm_encoder_items.specs.Views.{memory_view};

    ghost can_encode = { λ _. Unit {0} };

    ghost fits = { λ _. Unit {0} };

    ghost spelling = { λ m. limits_bytes (memory_view m) };

    fn encode(&self, sink: &mut Vec<u8>) -> Result<(), EncodeError> {
        self.limits().encode(sink)
    }
}

/// The type of a global (5.3).
#[derive(Clone, Copy, Debug, PartialEq, Eq, Hash)]
pub struct GlobalType {
    /// What it holds.
    pub val_type: ValType,
    /// Whether it can be set.
    pub mutable: bool,
    /// Whether threads share it (a proposal).
    pub shared: bool,
}

impl GlobalType {
    /// 1 mutable, 2 shared.
    fn flags(&self) -> u8
        ensures { result ≡ global_flags (global_view self.now) }
    {
        flag(self.mutable, 1) + flag(self.shared, 2)
    }
}

/// The value's type and the flags.
impl Encode for GlobalType {
    ghost use Rattle.wasm_encoder_items.specs.EntityTypes.{global_bytes};
    ghost use Rattle.wasm_encoder_items.specs.Views.{global_view};

    ghost can_encode = { λ _. Unit {0} };

    ghost fits = { λ _. Unit {0} };

    ghost spelling = { λ g. global_bytes (global_view g) };

    fn encode(&self, sink: &mut Vec<u8>) -> Result<(), EncodeError> {
        (self.val_type, self.flags()).encode(sink)
    }
}

/// What a tag is for; each number is its byte.
#[derive(Clone, Copy, Debug, PartialEq, Eq)]
pub enum TagKind {
    Exception = 0x00,
}

/// The type of a tag (5.3).
#[derive(Clone, Copy, Debug, PartialEq, Eq)]
pub struct TagType {
    pub kind: TagKind,
    /// The index of the function type, whose parameters are what an exception carries.
    pub func_type_idx: u32,
}

/// The kind and the index.
impl Encode for TagType {
    ghost use Rattle.wasm_encoder_items.specs.EntityTypes.{tag_bytes};

    ghost can_encode = { λ _. Unit {0} };

    ghost fits = { λ _. Unit {0} };

    ghost spelling = { λ t. tag_bytes t.func_type_idx };

    fn encode(&self, sink: &mut Vec<u8>) -> Result<(), EncodeError> {
        (self.kind as u8, self.func_type_idx).encode(sink)
    }
}

/// What is imported (5.3); functions and tags by the index of their type.
#[derive(Clone, Copy, Debug, PartialEq, Eq)]
pub enum EntityType {
    Function(u32),
    Table(TableType),
    Memory(MemoryType),
    Global(GlobalType),
    Tag(TagType),
}

impl From<TableType> for EntityType {
    ghost use Rattle.std.specs.Prelude.{◌≡◌};
    ghost use Rattle.wasm_encoder_items.specs.declared.types.EntityType.TheVariants.{Table};

    ghost from_gives = { λ t entity. entity ≡ Table t };

    fn from(t: TableType) -> Self {
        EntityType::Table(t)
    }
}

impl From<MemoryType> for EntityType {
    ghost use Rattle.std.specs.Prelude.{◌≡◌};
    ghost use Rattle.wasm_encoder_items.specs.declared.types.EntityType.TheVariants.{Memory};

    ghost from_gives = { λ t entity. entity ≡ Memory t };

    fn from(t: MemoryType) -> Self {
        EntityType::Memory(t)
    }
}

impl From<GlobalType> for EntityType {
    ghost use Rattle.std.specs.Prelude.{◌≡◌};
    ghost use Rattle.wasm_encoder_items.specs.declared.types.EntityType.TheVariants.{Global};

    ghost from_gives = { λ t entity. entity ≡ Global t };

    fn from(t: GlobalType) -> Self {
        EntityType::Global(t)
    }
}

impl From<TagType> for EntityType {
    ghost use Rattle.std.specs.Prelude.{◌≡◌};
    ghost use Rattle.wasm_encoder_items.specs.declared.types.EntityType.TheVariants.{Tag};

    ghost from_gives = { λ t entity. entity ≡ Tag t };

    fn from(t: TagType) -> Self {
        EntityType::Tag(t)
    }
}

/// The kind and the type.
impl Encode for EntityType {
    ghost use Rattle.wasm_encoder_items.specs.EntityTypes.{entity_bytes};
    ghost use Rattle.wasm_encoder_items.specs.Views.{entity_view};

    ghost can_encode = { λ _. Unit {0} };

    ghost fits = { λ _. Unit {0} };

    ghost spelling = { λ e. entity_bytes (entity_view e) };

    fn encode(&self, sink: &mut Vec<u8>) -> Result<(), EncodeError> {
        match self {
            EntityType::Function(index) => (0x00u8, index).encode(sink),
            EntityType::Table(t) => (0x01u8, t).encode(sink),
            EntityType::Memory(t) => (0x02u8, t).encode(sink),
            EntityType::Global(t) => (0x03u8, t).encode(sink),
            EntityType::Tag(t) => (0x04u8, t).encode(sink),
        }
    }
}

/// The type of indices and addresses of 64 bits, or of 32.
fn index_type(is_64: bool) -> ValType
    ensures { result ≡ (if is_64 then ValType.I64 else ValType.I32) }
{
    if is_64 { ValType::I64 } else { ValType::I32 }
}

//! The type section (WebAssembly 3.0, 5.5.4).

ghost use Rattle.std.specs.Prelude.{◌≡◌, ◌<◌, ◌^◌, length, map, nat_eq, All, IfOk};
ghost use Rattle.wasm_encoder_base.specs.Lists.{no_items, list_bytes, list_section};
ghost use Rattle.wasm_encoder_base.specs.Types.{Function, Array, Struct};
ghost use Rattle.wasm_encoder_base.specs.Views.{val_view, storage_view, field_view, func_view, sub_view, func_fits, composite_fits};
ghost use Rattle.wasm_encoder_items.specs.TypeEntries.{OneType, TypeGroup, plain, entry_bytes};
ghost use Rattle.wasm_encoder_sections.specs.Writes.{Writes};

use std::alloc::{AllocError, Global};
use std::marker::Model;
use wasm_encoder_base::{
    ArrayType, Encode, EncodeError, EncodedList, FieldType, FuncType, Part, Section, SectionId,
    StorageType, SubType, ValType,
};
use wasm_encoder_items::{Fields, Group, Signature};

/// The type section: types, and groups of types that may name each other. A group is one entry. Contracts see how many
/// entries there are, and their bytes.
#[derive(Debug, Drop)]
pub struct TypeSection {
    entries: EncodedList,
}

impl Model for TypeSection {
    ghost use Rattle.wasm_encoder_base.specs.Lists.{Listed};

    ghost Value = { Listed };

    ghost view = { λ section. section.entries };
}

impl TypeSection {
    /// A section without entries.
    pub fn new(alloc: Global) -> Self
        ensures { result ≡ no_items }
    {
        TypeSection {
            entries: EncodedList::new(alloc),
        }
    }

    /// How many entries there are.
    pub fn len(&self) -> u32
        ensures { result ≡ self.now.count }
    {
        self.entries.len()
    }

    /// Whether there are no entries.
    pub fn is_empty(&self) -> bool
        ensures { result ≡ nat_eq self.now.count 0 }
    {
        self.entries.is_empty()
    }

    /// What writes one entry.
    pub fn ty(&mut self) -> CoreTypeEncoder<'_>
        ensures value { result.section.now ≡ self.old }
        ensures same_section { result.section.ghost_name ≡ self.entry.ghost_name }
    {
        CoreTypeEncoder { section: self }
    }

    /// The same section, in memory of its own. Fails only where no memory is found.
    pub fn clone(&self) -> Result<Self, AllocError>
        ensures { IfOk result (λ section. section ≡ self.now) }
    {
        let entries = self.entries.clone()?;
        Ok(TypeSection { entries })
    }
}

/// The size, and the list of entries.
impl Encode for TypeSection {
    ghost can_encode = { λ _. Unit {0} };

    ghost fits = { λ section. length (list_bytes section) < 2 ^ 32 };

    ghost spelling = { list_section };

    fn encode(&self, sink: &mut Vec<u8>) -> Result<(), EncodeError> {
        Part(&self.entries).encode(sink)
    }
}

impl Section for TypeSection {
    ghost section_id = { λ _. 1 };

    fn id(&self) -> u8 {
        SectionId::TypeItem.into()
    }
}

/// Writes one entry of a type section, which then counts one more. Each call is the last.
///
/// Refused, the section is unchanged.
#[derive(Debug, Drop)]
pub struct CoreTypeEncoder<'a> {
    /// The section that is written to.
    pub section: &'a mut TypeSection,
}

impl CoreTypeEncoder<'_> {
    /// Writes a function type with these parameters and results.
    pub fn function(self, params: &[ValType], results: &[ValType]) -> Result<(), EncodeError>
        ensures { Writes (entry_bytes (plain (Function (record { params = map val_view params.now; results = map val_view results.now })))) ((length params.now < 2 ^ 32) × (length results.now < 2 ^ 32)) self.entry.section.now self.exit.0.now result }
    {
        self.write(&Signature { params, results })
    }

    /// Writes a function type.
    pub fn func_type(self, func_type: &FuncType) -> Result<(), EncodeError>
        ensures { Writes (entry_bytes (plain (Function (func_view func_type.now)))) (func_fits func_type.now) self.entry.section.now self.exit.0.now result }
    {
        self.write(func_type)
    }

    /// Writes an array type by what the elements are, and whether they can be set.
    pub fn array(self, element_type: &StorageType, mutable: bool) -> Result<(), EncodeError>
        ensures { Writes (entry_bytes (plain (Array (record { element_type = storage_view element_type.now; mutable = mutable })))) (Unit {0}) self.entry.section.now self.exit.0.now result }
    {
        self.write(&ArrayType(FieldType {
            element_type: *element_type,
            mutable,
        }))
    }

    /// Writes a structure type by its fields.
    pub fn struct_(self, fields: &[FieldType]) -> Result<(), EncodeError>
        ensures { Writes (entry_bytes (plain (Struct (map field_view fields.now)))) (length fields.now < 2 ^ 32) self.entry.section.now self.exit.0.now result }
    {
        self.write(&Fields(fields))
    }

    /// Writes a type that may have a supertype, or subtypes.
    pub fn subtype(self, sub_type: &SubType) -> Result<(), EncodeError>
        ensures { Writes (entry_bytes (OneType (sub_view sub_type.now))) (composite_fits sub_type.now.composite_type) self.entry.section.now self.exit.0.now result }
    {
        self.write(sub_type)
    }

    /// Writes a group of types that may name each other.
    pub fn rec(self, types: &[SubType]) -> Result<(), EncodeError>
        ensures { Writes (entry_bytes (TypeGroup (map sub_view types.now))) ((length types.now < 2 ^ 32) × All (λ t. composite_fits t.composite_type) types.now) self.entry.section.now self.exit.0.now result }
    {
        self.write(&Group(types))
    }

    fn write<T: Encode>(self, entry: &T) -> Result<(), EncodeError>
        requires { T.can_encode entry.now }
        ensures { Writes (T.spelling entry.now) (T.fits entry.now) self.entry.section.now self.exit.0.now result }
    {
        let CoreTypeEncoder { section } = self;
        section.entries.append(entry)
    }
}

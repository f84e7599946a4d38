//! The import section (WebAssembly 3.0, 5.5.5).

ghost use Rattle.std.specs.Prelude.{◌≡◌, ◌<◌, ◌^◌, length, nat_eq, IfOk};
ghost use Rattle.std.specs.Borrow.{sem};
ghost use Rattle.wasm_encoder_base.specs.Adds.{Adds, KeptIfRefused};
ghost use Rattle.wasm_encoder_base.specs.Lists.{no_items, with_item, list_bytes, list_section, HasRoom};
ghost use Rattle.wasm_encoder_items.specs.Imports.{import_bytes, imports_bytes};
ghost use Rattle.wasm_encoder_items.specs.Views.{entity_view, imports_view, ImportsFit};
ghost use Rattle.wasm_encoder_items.specs.declared.types.EntityType.{EntityType};
ghost use Rattle.wasm_encoder_sections.specs.contracts.imports.ImportSection.{the_row};

use std::alloc::{AllocError, Global};
use std::marker::Model;
use wasm_encoder_base::{Added, Encode, EncodeError, EncodedList, Part, Section, SectionId};
use wasm_encoder_items::{EntityType, Import, Imports};

/// The import section: what a module imports. A group of imports is one entry. Contracts see how many there are, and their bytes.
#[derive(Debug, Drop)]
pub struct ImportSection {
    entries: EncodedList,
}

impl Model for ImportSection {
    ghost use Rattle.wasm_encoder_base.specs.Lists.{Listed};

    ghost Value = { Listed };

    ghost view = { λ section. section.entries };
}

impl ImportSection {
    /// A section without entries.
    pub fn new(alloc: Global) -> Self
        ensures { result ≡ no_items }
    {
        ImportSection {
            entries: EncodedList::new(alloc),
        }
    }

    /// How many entries there are.
    pub fn len(&self) -> u32
        ensures { result ≡ self.now.count }
    {
        self.entries.len()
    }

    /// Whether there are no entries.
    pub fn is_empty(&self) -> bool
        ensures { result ≡ nat_eq self.now.count 0 }
    {
        self.entries.is_empty()
    }

    /// Appends an entry: an import, or a group, which readers of WebAssembly 3.0 don't know.
    pub fn imports(&mut self, imports: Imports<'_>) -> Result<Added<'_, Self>, EncodeError>
        ensures* refused { sem 𝓛 (KeptIfRefused the_row self.entry result) }
        ensures adds { Adds self.entry (with_item self.old (imports_bytes (imports_view imports.entry))) (HasRoom self.old × ImportsFit imports.entry) result }
    {
        self.entries.append(&imports)?;
        Ok(Added { target: self })
    }

    /// Appends an import.
    pub fn import<T: Into<EntityType>>(
        &mut self,
        module: &str,
        name: &str,
        ty: T,
    ) -> Result<Added<'_, Self>, EncodeError>
        ensures* refused { sem 𝓛 (KeptIfRefused the_row self.entry result) }
        ensures adds { (entity : EntityType) × T.converts ty entity × Adds self.entry (with_item self.old (import_bytes (record { module_name = «module».now; name = name.now; type = entity_view entity }))) (HasRoom self.old × (length «module».now < 2 ^ 32) × (length name.now < 2 ^ 32)) result }
    {
        let ty = ty.into();
        self.entries.append(&Import { module, name, ty })?;
        Ok(Added { target: self })
    }

    /// The same section, in memory of its own. Fails only where no memory is found.
    pub fn clone(&self) -> Result<Self, AllocError>
        ensures { IfOk result (λ section. section ≡ self.now) }
    {
        let entries = self.entries.clone()?;
        Ok(ImportSection { entries })
    }
}

/// The size, and the list of entries.
impl Encode for ImportSection {
    ghost can_encode = { λ _. Unit {0} };

    ghost fits = { λ section. length (list_bytes section) < 2 ^ 32 };

    ghost spelling = { list_section };

    fn encode(&self, sink: &mut Vec<u8>) -> Result<(), EncodeError> {
        Part(&self.entries).encode(sink)
    }
}

impl Section for ImportSection {
    ghost section_id = { λ _. 2 };

    fn id(&self) -> u8 {
        SectionId::Import.into()
    }
}

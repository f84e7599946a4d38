//! The export section (WebAssembly 3.0, 5.5.10).

ghost use Rattle.std.specs.Prelude.{◌≡◌, ◌<◌, ◌^◌, length, nat_eq, IfOk};
ghost use Rattle.std.specs.Borrow.{sem};
ghost use Rattle.wasm_encoder_base.specs.Adds.{Adds, KeptIfRefused};
ghost use Rattle.wasm_encoder_base.specs.Lists.{no_items, with_item, list_bytes, list_section, HasRoom};
ghost use Rattle.wasm_encoder_items.specs.Imports.{export_bytes};
ghost use Rattle.wasm_encoder_items.specs.Views.{export_kind_view};
ghost use Rattle.wasm_encoder_sections.specs.contracts.exports.ExportSection.{the_row};

use std::alloc::{AllocError, Global};
use std::marker::Model;
use wasm_encoder_base::{Added, Encode, EncodeError, EncodedList, Part, Section, SectionId};
use wasm_encoder_items::{Export, ExportKind};

/// The export section: what a module exports. Contracts see how many there are, and their bytes.
#[derive(Debug, Drop)]
pub struct ExportSection {
    exports: EncodedList,
}

impl Model for ExportSection {
    ghost use Rattle.wasm_encoder_base.specs.Lists.{Listed};

    ghost Value = { Listed };

    ghost view = { λ section. section.exports };
}

impl ExportSection {
    /// A section without exports.
    pub fn new(alloc: Global) -> Self
        ensures { result ≡ no_items }
    {
        ExportSection {
            exports: EncodedList::new(alloc),
        }
    }

    /// How many exports there are.
    pub fn len(&self) -> u32
        ensures { result ≡ self.now.count }
    {
        self.exports.len()
    }

    /// Whether there are no exports.
    pub fn is_empty(&self) -> bool
        ensures { result ≡ nat_eq self.now.count 0 }
    {
        self.exports.is_empty()
    }

    /// Appends an export: its name, and what of which index it is.
    pub fn export(
        &mut self,
        name: &str,
        kind: ExportKind,
        index: u32,
    ) -> Result<Added<'_, Self>, EncodeError>
        ensures* refused { sem 𝓛 (KeptIfRefused the_row self.entry result) }
        ensures adds { Adds self.entry (with_item self.old (export_bytes (record { name = name.now; kind = export_kind_view kind; index = index }))) (HasRoom self.old × (length name.now < 2 ^ 32)) result }
    {
        self.exports.append(&Export { name, kind, index })?;
        Ok(Added { target: self })
    }

    /// The same section, in memory of its own. Fails only where no memory is found.
    pub fn clone(&self) -> Result<Self, AllocError>
        ensures { IfOk result (λ section. section ≡ self.now) }
    {
        let exports = self.exports.clone()?;
        Ok(ExportSection { exports })
    }
}

/// The size, and the list of exports.
impl Encode for ExportSection {
    ghost can_encode = { λ _. Unit {0} };

    ghost fits = { λ section. length (list_bytes section) < 2 ^ 32 };

    ghost spelling = { list_section };

    fn encode(&self, sink: &mut Vec<u8>) -> Result<(), EncodeError> {
        Part(&self.exports).encode(sink)
    }
}

impl Section for ExportSection {
    ghost section_id = { λ _. 7 };

    fn id(&self) -> u8 {
        SectionId::Export.into()
    }
}

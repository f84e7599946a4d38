//! The producers section (tool conventions of WebAssembly).

ghost use Rattle.std.specs.Prelude.{◌≡◌, ◌+◌, ◌<◌, ◌^◌, ◌++◌, length, codes, IfOk};
ghost use Rattle.std.specs.Borrow.{sem};
ghost use Rattle.wasm_encoder_base.specs.Bytes.{sized};
ghost use Rattle.wasm_encoder_base.specs.Adds.{Adds, KeptIfRefused};
ghost use Rattle.wasm_encoder_base.specs.Lists.{no_items, with_item, list_bytes, HasRoom};
ghost use Rattle.wasm_encoder_custom.specs.Custom.{custom_bytes, CustomFits};
ghost use Rattle.wasm_encoder_custom.specs.Producers.{producers_section, producer_bytes};
ghost use Rattle.wasm_encoder_custom.specs.contracts.producers.ProducersSection.{the_row};
ghost use Rattle.wasm_encoder_custom.specs.contracts.producers.ProducersField.{the_row as field_row};

use crate::custom::encode_custom;
use std::alloc::{AllocError, Global};
use std::marker::Model;
use wasm_encoder_base::{Added, Encode, EncodeError, EncodedList, Section, SectionId};

/// The custom section `producers`: what made a module.
///
/// The names of the fields are to be distinct (`language`, `processed-by` and `sdk` are known); that is left to the
/// caller.
#[derive(Debug, Drop)]
pub struct ProducersSection {
    fields: EncodedList,
}

impl Model for ProducersSection {
    ghost use Rattle.wasm_encoder_base.specs.Lists.{Listed};

    ghost Value = { Listed };

    ghost view = { λ section. section.fields };
}

impl ProducersSection {
    /// A section without fields.
    pub fn new(alloc: Global) -> Self
        ensures { result ≡ no_items }
    {
        ProducersSection {
            fields: EncodedList::new(alloc),
        }
    }

    /// Appends a field: its name and its values.
    pub fn field(
        &mut self,
        name: &str,
        values: &ProducersField,
    ) -> Result<Added<'_, Self>, EncodeError>
        ensures* refused { sem 𝓛 (KeptIfRefused the_row self.entry result) }
        ensures adds { Adds self.entry (with_item self.old (sized name.now ++ list_bytes values.now)) (HasRoom self.old × (length name.now < 2 ^ 32)) result }
    {
        self.fields.append(&(name, values))?;
        Ok(Added { target: self })
    }

    /// The same section, in memory of its own. Fails only where no memory is found.
    pub fn clone(&self) -> Result<Self, AllocError>
        ensures { IfOk result (λ section. section ≡ self.now) }
    {
        let fields = self.fields.clone()?;
        Ok(ProducersSection { fields })
    }
}

/// The size, `producers`, and the list of fields.
impl Encode for ProducersSection {
    ghost can_encode = { λ _. Unit {0} };

    ghost fits = { λ section. CustomFits (producers_section section) };

    ghost spelling = { λ section. custom_bytes (producers_section section) };

    fn encode(&self, sink: &mut Vec<u8>) -> Result<(), EncodeError> {
        encode_custom("producers", &self.fields, sink)
    }
}

impl Section for ProducersSection {
    ghost section_id = { λ _. 0 };

    fn id(&self) -> u8 {
        SectionId::Custom.into()
    }
}

/// The values of a field of the producers section: producers with their versions.
///
/// The names are to be distinct; that is left to the caller.
#[derive(Debug, Drop)]
pub struct ProducersField {
    values: EncodedList,
}

impl Model for ProducersField {
    ghost use Rattle.wasm_encoder_base.specs.Lists.{Listed};

    ghost Value = { Listed };

    ghost view = { λ field. field.values };
}

impl ProducersField {
    /// A field without values.
    pub fn new(alloc: Global) -> Self
        ensures { result ≡ no_items }
    {
        ProducersField {
            values: EncodedList::new(alloc),
        }
    }

    /// Appends a producer and its version, which may be empty.
    pub fn value(&mut self, name: &str, version: &str) -> Result<Added<'_, Self>, EncodeError>
        ensures* refused { sem 𝓛 (KeptIfRefused field_row self.entry result) }
        ensures adds { Adds self.entry (with_item self.old (producer_bytes (record { name = name.now; version = version.now }))) (HasRoom self.old × (length name.now < 2 ^ 32) × (length version.now < 2 ^ 32)) result }
    {
        self.values.append(&(name, version))?;
        Ok(Added { target: self })
    }

    /// The same values, in memory of their own. Fails only where no memory is found.
    pub fn clone(&self) -> Result<Self, AllocError>
        ensures { IfOk result (λ field. field ≡ self.now) }
    {
        let values = self.values.clone()?;
        Ok(ProducersField { values })
    }
}

/// The count, then each producer and version.
impl Encode for ProducersField {
    ghost can_encode = { λ _. Unit {0} };

    ghost fits = { λ _. Unit {0} };

    ghost spelling = { list_bytes };

    fn encode(&self, sink: &mut Vec<u8>) -> Result<(), EncodeError> {
        self.values.encode(sink)
    }
}

//! The linking section (tool conventions of WebAssembly).

ghost use Rattle.std.specs.Prelude.{◌≡◌, ◌+◌, ◌<◌, ◌^◌, ◌++◌, length, codes, IfOk};
ghost use Rattle.std.specs.Borrow.{sem};
ghost use Rattle.wasm_encoder_base.specs.Bytes.{sized, optional};
ghost use Rattle.wasm_encoder_base.specs.Adds.{Adds, KeptIfRefused};
ghost use Rattle.wasm_encoder_base.specs.Lists.{no_items, with_item, list_bytes, HasRoom};
ghost use Rattle.wasm_encoder_custom.specs.Custom.{custom_bytes, CustomFits};
ghost use Rattle.wasm_encoder_custom.specs.Linking.{linking_section, version, symbol_table_bytes, target_arch_bytes};
ghost use Rattle.wasm_encoder_custom.specs.contracts.linking.LinkingSection.{the_row};

use crate::custom::encode_custom;
use crate::symbols::SymbolTable;
use std::alloc::{AllocError, Global};
use std::marker::Model;
use wasm_encoder_base::{Added, Encode, EncodeError, Measure, Part, RawBytes, Section, SectionId};

/// The custom section `linking`: what makes of a module an object file. Contracts see its data.
#[derive(Debug, Drop)]
pub struct LinkingSection {
    bytes: Vec<u8>,
}

impl Model for LinkingSection {
    ghost use Rattle.std.specs.Prelude.{List, ℕ};

    ghost Value = { List ℕ };

    ghost view = { λ section. section.bytes.items };
}

impl LinkingSection {
    /// A section of version 2, without subsections. Fails only where no memory is found.
    pub fn new(alloc: Global) -> Result<Self, AllocError>
        ensures { IfOk result (λ section. section ≡ version) }
    {
        let mut bytes = Vec::new(alloc);
        bytes.push(2)?;
        Ok(LinkingSection { bytes })
    }

    /// Appends a symbol table.
    pub fn symbol_table(&mut self, symbols: &SymbolTable) -> Result<Added<'_, Self>, EncodeError>
        ensures* refused { sem 𝓛 (KeptIfRefused the_row self.entry result) }
        ensures adds { Adds self.entry (self.old ++ symbol_table_bytes (list_bytes symbols.now)) (length (list_bytes symbols.now) < 2 ^ 32) result }
    {
        symbols.encode(&mut self.bytes)?;
        Ok(Added { target: self })
    }

    /// Appends the name of the architecture that the module is for, as `wasm32`.
    pub fn target_arch(&mut self, name: &str) -> Result<Added<'_, Self>, EncodeError>
        ensures* refused { sem 𝓛 (KeptIfRefused the_row self.entry result) }
        ensures adds { Adds self.entry (self.old ++ target_arch_bytes name.now) (length (sized name.now) < 2 ^ 32) result }
    {
        (9u8, Part(name)).encode(&mut self.bytes)?;
        Ok(Added { target: self })
    }

    /// The same section, in memory of its own. Fails only where no memory is found.
    pub fn clone(&self) -> Result<Self, AllocError>
        ensures { IfOk result (λ section. section ≡ self.now) }
    {
        let bytes = self.bytes.clone()?;
        Ok(LinkingSection { bytes })
    }
}

/// The size, `linking`, and the version and subsections.
impl Encode for LinkingSection {
    ghost can_encode = { λ _. Unit {0} };

    ghost fits = { λ section. CustomFits (linking_section section) };

    ghost spelling = { λ section. custom_bytes (linking_section section) };

    fn encode(&self, sink: &mut Vec<u8>) -> Result<(), EncodeError> {
        encode_custom("linking", &RawBytes(self.bytes.as_slice()), sink)
    }
}

impl Section for LinkingSection {
    ghost section_id = { λ _. 0 };

    fn id(&self) -> u8 {
        SectionId::Custom.into()
    }
}

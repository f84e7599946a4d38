//! The function section (WebAssembly 3.0, 5.5.6).

ghost use Rattle.std.specs.Prelude.{◌≡◌, ◌<◌, ◌^◌, length, nat_eq, IfOk};
ghost use Rattle.std.specs.Borrow.{sem};
ghost use Rattle.wasm_encoder_base.specs.Adds.{Adds, KeptIfRefused};
ghost use Rattle.wasm_encoder_base.specs.Lists.{no_items, with_item, list_bytes, list_section, HasRoom};
ghost use Rattle.wasm_encoder_base.specs.Leb.{uleb};
ghost use Rattle.wasm_encoder_sections.specs.contracts.functions.FunctionSection.{the_row};

use std::alloc::{AllocError, Global};
use std::marker::Model;
use wasm_encoder_base::{Added, Encode, EncodeError, EncodedList, Part, Section, SectionId};

/// The function section: the types of a module's functions. Contracts see how many there are, and their bytes.
#[derive(Debug, Drop)]
pub struct FunctionSection {
    types: EncodedList,
}

impl Model for FunctionSection {
    ghost use Rattle.wasm_encoder_base.specs.Lists.{Listed};

    ghost Value = { Listed };

    ghost view = { λ section. section.types };
}

impl FunctionSection {
    /// A section without functions.
    pub fn new(alloc: Global) -> Self
        ensures { result ≡ no_items }
    {
        FunctionSection {
            types: EncodedList::new(alloc),
        }
    }

    /// How many functions there are.
    pub fn len(&self) -> u32
        ensures { result ≡ self.now.count }
    {
        self.types.len()
    }

    /// Whether there are no functions.
    pub fn is_empty(&self) -> bool
        ensures { result ≡ nat_eq self.now.count 0 }
    {
        self.types.is_empty()
    }

    /// Appends a function by the index of its type.
    pub fn function(&mut self, type_index: u32) -> Result<Added<'_, Self>, EncodeError>
        ensures* refused { sem 𝓛 (KeptIfRefused the_row self.entry result) }
        ensures adds { Adds self.entry (with_item self.old (uleb type_index)) (HasRoom self.old) result }
    {
        self.types.append(&type_index)?;
        Ok(Added { target: self })
    }

    /// The same section, in memory of its own. Fails only where no memory is found.
    pub fn clone(&self) -> Result<Self, AllocError>
        ensures { IfOk result (λ section. section ≡ self.now) }
    {
        let types = self.types.clone()?;
        Ok(FunctionSection { types })
    }
}

/// The size, and the list of functions.
impl Encode for FunctionSection {
    ghost can_encode = { λ _. Unit {0} };

    ghost fits = { λ section. length (list_bytes section) < 2 ^ 32 };

    ghost spelling = { list_section };

    fn encode(&self, sink: &mut Vec<u8>) -> Result<(), EncodeError> {
        Part(&self.types).encode(sink)
    }
}

impl Section for FunctionSection {
    ghost section_id = { λ _. 3 };

    fn id(&self) -> u8 {
        SectionId::Function.into()
    }
}

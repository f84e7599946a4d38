//! The memory section (WebAssembly 3.0, 5.5.8).

ghost use Rattle.std.specs.Prelude.{◌≡◌, ◌<◌, ◌^◌, length, nat_eq, IfOk};
ghost use Rattle.std.specs.Borrow.{sem};
ghost use Rattle.wasm_encoder_base.specs.Adds.{Adds, KeptIfRefused};
ghost use Rattle.wasm_encoder_base.specs.Lists.{no_items, with_item, list_bytes, list_section, HasRoom};
ghost use Rattle.wasm_encoder_items.specs.EntityTypes.{limits_bytes};
ghost use Rattle.wasm_encoder_items.specs.Views.{memory_view};
ghost use Rattle.wasm_encoder_sections.specs.contracts.memories.MemorySection.{the_row};

use std::alloc::{AllocError, Global};
use std::marker::Model;
use wasm_encoder_base::{Added, Encode, EncodeError, EncodedList, Part, Section, SectionId};
use wasm_encoder_items::MemoryType;

/// The memory section: a module's memories. Contracts see how many there are, and their bytes.
#[derive(Debug, Drop)]
pub struct MemorySection {
    memories: EncodedList,
}

impl Model for MemorySection {
    ghost use Rattle.wasm_encoder_base.specs.Lists.{Listed};

    ghost Value = { Listed };

    ghost view = { λ section. section.memories };
}

impl MemorySection {
    /// A section without memories.
    pub fn new(alloc: Global) -> Self
        ensures { result ≡ no_items }
    {
        MemorySection {
            memories: EncodedList::new(alloc),
        }
    }

    /// How many memories there are.
    pub fn len(&self) -> u32
        ensures { result ≡ self.now.count }
    {
        self.memories.len()
    }

    /// Whether there are no memories.
    pub fn is_empty(&self) -> bool
        ensures { result ≡ nat_eq self.now.count 0 }
    {
        self.memories.is_empty()
    }

    /// Appends a memory.
    pub fn memory(&mut self, memory_type: MemoryType) -> Result<Added<'_, Self>, EncodeError>
        ensures* refused { sem 𝓛 (KeptIfRefused the_row self.entry result) }
        ensures adds { Adds self.entry (with_item self.old (limits_bytes (memory_view memory_type))) (HasRoom self.old) result }
    {
        self.memories.append(&memory_type)?;
        Ok(Added { target: self })
    }

    /// The same section, in memory of its own. Fails only where no memory is found.
    pub fn clone(&self) -> Result<Self, AllocError>
        ensures { IfOk result (λ section. section ≡ self.now) }
    {
        let memories = self.memories.clone()?;
        Ok(MemorySection { memories })
    }
}

/// The size, and the list of memories.
impl Encode for MemorySection {
    ghost can_encode = { λ _. Unit {0} };

    ghost fits = { λ section. length (list_bytes section) < 2 ^ 32 };

    ghost spelling = { list_section };

    fn encode(&self, sink: &mut Vec<u8>) -> Result<(), EncodeError> {
        Part(&self.memories).encode(sink)
    }
}

impl Section for MemorySection {
    ghost section_id = { λ _. 5 };

    fn id(&self) -> u8 {
        SectionId::Memory.into()
    }
}

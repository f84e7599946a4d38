//! The tag section (WebAssembly 3.0, 5.5.16).

ghost use Rattle.std.specs.Prelude.{◌≡◌, ◌<◌, ◌^◌, length, nat_eq, IfOk};
ghost use Rattle.std.specs.Borrow.{sem};
ghost use Rattle.wasm_encoder_base.specs.Adds.{Adds, KeptIfRefused};
ghost use Rattle.wasm_encoder_base.specs.Lists.{no_items, with_item, list_bytes, list_section, HasRoom};
ghost use Rattle.wasm_encoder_items.specs.EntityTypes.{tag_bytes};
ghost use Rattle.wasm_encoder_sections.specs.contracts.tags.TagSection.{the_row};

use std::alloc::{AllocError, Global};
use std::marker::Model;
use wasm_encoder_base::{Added, Encode, EncodeError, EncodedList, Part, Section, SectionId};
use wasm_encoder_items::TagType;

/// The tag section: a module's tags. Contracts see how many there are, and their bytes.
#[derive(Debug, Drop)]
pub struct TagSection {
    tags: EncodedList,
}

impl Model for TagSection {
    ghost use Rattle.wasm_encoder_base.specs.Lists.{Listed};

    ghost Value = { Listed };

    ghost view = { λ section. section.tags };
}

impl TagSection {
    /// A section without tags.
    pub fn new(alloc: Global) -> Self
        ensures { result ≡ no_items }
    {
        TagSection {
            tags: EncodedList::new(alloc),
        }
    }

    /// How many tags there are.
    pub fn len(&self) -> u32
        ensures { result ≡ self.now.count }
    {
        self.tags.len()
    }

    /// Whether there are no tags.
    pub fn is_empty(&self) -> bool
        ensures { result ≡ nat_eq self.now.count 0 }
    {
        self.tags.is_empty()
    }

    /// Appends a tag.
    pub fn tag(&mut self, tag_type: TagType) -> Result<Added<'_, Self>, EncodeError>
        ensures* refused { sem 𝓛 (KeptIfRefused the_row self.entry result) }
        ensures adds { Adds self.entry (with_item self.old (tag_bytes tag_type.func_type_idx)) (HasRoom self.old) result }
    {
        self.tags.append(&tag_type)?;
        Ok(Added { target: self })
    }

    /// The same section, in memory of its own. Fails only where no memory is found.
    pub fn clone(&self) -> Result<Self, AllocError>
        ensures { IfOk result (λ section. section ≡ self.now) }
    {
        let tags = self.tags.clone()?;
        Ok(TagSection { tags })
    }
}

/// The size, and the list of tags.
impl Encode for TagSection {
    ghost can_encode = { λ _. Unit {0} };

    ghost fits = { λ section. length (list_bytes section) < 2 ^ 32 };

    ghost spelling = { list_section };

    fn encode(&self, sink: &mut Vec<u8>) -> Result<(), EncodeError> {
        Part(&self.tags).encode(sink)
    }
}

impl Section for TagSection {
    ghost section_id = { λ _. 13 };

    fn id(&self) -> u8 {
        SectionId::Tag.into()
    }
}

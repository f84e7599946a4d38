//! Memories.
ghost use Rattle.wasm_encoder_items.specs.EntityTypes.{Limits, limits_bytes};
ghost use Rattle.wasm_layout.specs.IsModule.{IsLimits};
ghost use Rattle.wast_fields.specs.FieldTree.{Define};
ghost use Rattle.wast_fields.specs.MemoryViews.{memory_definition};
ghost use Rattle.wast_meant.specs.FieldsMeant.{memories_of};
ghost use Rattle.wast_section_items.specs.Fits.{NoCounts};
ghost use Rattle.wast_section_items.specs.One.{one_memory};
ghost use Rattle.wast_section_items.specs.Ready.{FieldReady};

use crate::adding::add_memory;
use crate::item::SectionItem;
use std::alloc::Global;
use wasm_encoder_base::EncodeError;
use wasm_encoder_sections::MemorySection;
use wast_conversions::memory_type;
use wast_customs::CustomPlaceAnchor;
use wast_fields::{Memory, MemoryKind};

/// Its type (6.6, memories).
impl SectionItem for Memory<'_> {
    type Section = MemorySection;

    const ANCHOR: CustomPlaceAnchor = CustomPlaceAnchor::Memory;

    ghost Item = { Limits };

    ghost spell = { limits_bytes };

    ghost Fits = { NoCounts };

    ghost Sound = { IsLimits };

    ghost items = { λ m. memories_of (memory_definition m).defined };

    ghost Ready = { λ m. FieldReady (Define (memory_definition m)) };

    ghost one = { one_memory };

    ghost listed = { λ section. section };

    fn encode(&self, _alloc: Global, section: &mut MemorySection) -> Result<(), EncodeError> {
        match &self.kind {
            MemoryKind::Normal(ty) => add_memory(section, memory_type(ty)),
            MemoryKind::Import { .. } | MemoryKind::Inline { .. } => unreachable!(),
        }
    }
}

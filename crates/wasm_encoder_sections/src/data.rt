//! The data section (WebAssembly 3.0, 5.5.14).

ghost use Rattle.std.specs.Prelude.{◌≡◌, ◌<◌, ◌^◌, length, nat_eq, IfOk};
ghost use Rattle.std.specs.Borrow.{sem};
ghost use Rattle.wasm_encoder_base.specs.Adds.{Adds, KeptIfRefused};
ghost use Rattle.wasm_encoder_base.specs.Lists.{no_items, with_item, list_bytes, list_section, HasRoom};
ghost use Rattle.wasm_encoder_items.specs.Segments.{ActiveData, PassiveData, data_bytes, ended};
ghost use Rattle.wasm_encoder_items.specs.SegmentViews.{data_view};
ghost use Rattle.wasm_encoder_sections.specs.contracts.data.DataSection.{the_row};

use std::alloc::{AllocError, Global};
use std::marker::Model;
use wasm_encoder_base::{
    Added, Encode, EncodeError, EncodedList, Part, RawBytes, Section, SectionId,
};
use wasm_encoder_code::ConstExpr;
use wasm_encoder_items::{DataSegment, DataSegmentMode};

/// The data section: a module's data segments. Contracts see how many there are, and their bytes.
#[derive(Debug, Drop)]
pub struct DataSection {
    segments: EncodedList,
}

impl Model for DataSection {
    ghost use Rattle.wasm_encoder_base.specs.Lists.{Listed};

    ghost Value = { Listed };

    ghost view = { λ section. section.segments };
}

impl DataSection {
    /// A section without segments.
    pub fn new(alloc: Global) -> Self
        ensures { result ≡ no_items }
    {
        DataSection {
            segments: EncodedList::new(alloc),
        }
    }

    /// How many segments there are.
    pub fn len(&self) -> u32
        ensures { result ≡ self.now.count }
    {
        self.segments.len()
    }

    /// Whether there are no segments.
    pub fn is_empty(&self) -> bool
        ensures { result ≡ nat_eq self.now.count 0 }
    {
        self.segments.is_empty()
    }

    /// Appends a segment.
    pub fn segment(&mut self, segment: DataSegment<'_>) -> Result<Added<'_, Self>, EncodeError>
        ensures* refused { sem 𝓛 (KeptIfRefused the_row self.entry result) }
        ensures adds { Adds self.entry (with_item self.old (data_bytes ended (data_view segment.entry))) (HasRoom self.old × (length segment.entry.bytes.now < 2 ^ 32)) result }
    {
        self.segments.append(&segment)?;
        Ok(Added { target: self })
    }

    /// Appends a segment that is copied into the memory before the module starts.
    pub fn active(
        &mut self,
        memory_index: u32,
        offset: &ConstExpr,
        bytes: &[u8],
    ) -> Result<Added<'_, Self>, EncodeError>
        ensures* refused { sem 𝓛 (KeptIfRefused the_row self.entry result) }
        ensures adds { Adds self.entry (with_item self.old (data_bytes ended (ActiveData memory_index offset.now bytes.now))) (HasRoom self.old × (length bytes.now < 2 ^ 32)) result }
    {
        let mode = DataSegmentMode::Active {
            memory_index,
            offset,
        };
        let segment = DataSegment { mode, bytes };
        self.segments.append(&segment)?;
        Ok(Added { target: self })
    }

    /// Appends a segment that instructions copy.
    pub fn passive(&mut self, bytes: &[u8]) -> Result<Added<'_, Self>, EncodeError>
        ensures* refused { sem 𝓛 (KeptIfRefused the_row self.entry result) }
        ensures adds { Adds self.entry (with_item self.old (data_bytes ended (PassiveData bytes.now))) (HasRoom self.old × (length bytes.now < 2 ^ 32)) result }
    {
        let mode = DataSegmentMode::Passive;
        let segment = DataSegment { mode, bytes };
        self.segments.append(&segment)?;
        Ok(Added { target: self })
    }

    /// Appends a segment that is encoded already.
    pub fn raw(&mut self, bytes: &[u8]) -> Result<Added<'_, Self>, EncodeError>
        ensures* refused { sem 𝓛 (KeptIfRefused the_row self.entry result) }
        ensures adds { Adds self.entry (with_item self.old (bytes.now)) (HasRoom self.old) result }
    {
        self.segments.append(&RawBytes(bytes))?;
        Ok(Added { target: self })
    }

    /// The same section, in memory of its own. Fails only where no memory is found.
    pub fn clone(&self) -> Result<Self, AllocError>
        ensures { IfOk result (λ section. section ≡ self.now) }
    {
        let segments = self.segments.clone()?;
        Ok(DataSection { segments })
    }
}

/// The size, and the list of segments.
impl Encode for DataSection {
    ghost can_encode = { λ _. Unit {0} };

    ghost fits = { λ section. length (list_bytes section) < 2 ^ 32 };

    ghost spelling = { list_section };

    fn encode(&self, sink: &mut Vec<u8>) -> Result<(), EncodeError> {
        Part(&self.segments).encode(sink)
    }
}

impl Section for DataSection {
    ghost section_id = { λ _. 11 };

    fn id(&self) -> u8 {
        SectionId::Data.into()
    }
}

//! The element section (WebAssembly 3.0, 5.5.12).

ghost use Rattle.std.specs.Prelude.{◌≡◌, ◌<◌, ◌^◌, length, nat_eq, IfOk};
ghost use Rattle.std.specs.Borrow.{sem};
ghost use Rattle.wasm_encoder_base.specs.Adds.{Adds, KeptIfRefused};
ghost use Rattle.wasm_encoder_base.specs.Lists.{no_items, with_item, list_bytes, list_section, HasRoom};
ghost use Rattle.wasm_encoder_items.specs.Segments.{element_bytes, ended};
ghost use Rattle.wasm_encoder_items.specs.SegmentViews.{element_view, elements_view, ElementsFit};
ghost use Rattle.wasm_encoder_items.specs.declared.elements.ElementMode.TheVariants.{Passive, Declared, Active};
ghost use Rattle.wasm_encoder_sections.specs.contracts.elements.ElementSection.{the_row};

use std::alloc::{AllocError, Global};
use std::marker::Model;
use wasm_encoder_base::{
    Added, Encode, EncodeError, EncodedList, Part, RawBytes, Section, SectionId,
};
use wasm_encoder_code::ConstExpr;
use wasm_encoder_items::{ElementMode, ElementSegment, Elements};

/// The element section: a module's element segments. Contracts see how many there are, and their bytes.
#[derive(Debug, Drop)]
pub struct ElementSection {
    segments: EncodedList,
}

impl Model for ElementSection {
    ghost use Rattle.wasm_encoder_base.specs.Lists.{Listed};

    ghost Value = { Listed };

    ghost view = { λ section. section.segments };
}

impl ElementSection {
    /// A section without segments.
    pub fn new(alloc: Global) -> Self
        ensures { result ≡ no_items }
    {
        ElementSection {
            segments: EncodedList::new(alloc),
        }
    }

    /// How many segments there are.
    pub fn len(&self) -> u32
        ensures { result ≡ self.now.count }
    {
        self.segments.len()
    }

    /// Whether there are no segments.
    pub fn is_empty(&self) -> bool
        ensures { result ≡ nat_eq self.now.count 0 }
    {
        self.segments.is_empty()
    }

    /// Appends a segment.
    pub fn segment(&mut self, segment: ElementSegment<'_>) -> Result<Added<'_, Self>, EncodeError>
        ensures* refused { sem 𝓛 (KeptIfRefused the_row self.entry result) }
        ensures adds { Adds self.entry (with_item self.old (element_bytes ended (element_view segment.entry))) (HasRoom self.old × ElementsFit segment.entry.elements) result }
    {
        self.segments.append(&segment)?;
        Ok(Added { target: self })
    }

    /// Appends a segment that is copied into the table, or the first where none is given, before the module starts.
    pub fn active(
        &mut self,
        table_index: Option<u32>,
        offset: &ConstExpr,
        elements: Elements<'_>,
    ) -> Result<Added<'_, Self>, EncodeError>
        ensures* refused { sem 𝓛 (KeptIfRefused the_row self.entry result) }
        ensures adds { Adds self.entry (with_item self.old (element_bytes ended (elements_view (Active table_index offset.entry) elements.entry))) (HasRoom self.old × ElementsFit elements.entry) result }
    {
        let mode = ElementMode::Active {
            table: table_index,
            offset,
        };
        let segment = ElementSegment { mode, elements };
        self.segments.append(&segment)?;
        Ok(Added { target: self })
    }

    /// Appends a segment that instructions copy.
    pub fn passive(&mut self, elements: Elements<'_>) -> Result<Added<'_, Self>, EncodeError>
        ensures* refused { sem 𝓛 (KeptIfRefused the_row self.entry result) }
        ensures adds { Adds self.entry (with_item self.old (element_bytes ended (elements_view Passive elements.entry))) (HasRoom self.old × ElementsFit elements.entry) result }
    {
        let mode = ElementMode::Passive;
        let segment = ElementSegment { mode, elements };
        self.segments.append(&segment)?;
        Ok(Added { target: self })
    }

    /// Appends a segment that just declares its functions.
    pub fn declared(&mut self, elements: Elements<'_>) -> Result<Added<'_, Self>, EncodeError>
        ensures* refused { sem 𝓛 (KeptIfRefused the_row self.entry result) }
        ensures adds { Adds self.entry (with_item self.old (element_bytes ended (elements_view Declared elements.entry))) (HasRoom self.old × ElementsFit elements.entry) result }
    {
        let mode = ElementMode::Declared;
        let segment = ElementSegment { mode, elements };
        self.segments.append(&segment)?;
        Ok(Added { target: self })
    }

    /// Appends a segment that is encoded already.
    pub fn raw(&mut self, bytes: &[u8]) -> Result<Added<'_, Self>, EncodeError>
        ensures* refused { sem 𝓛 (KeptIfRefused the_row self.entry result) }
        ensures adds { Adds self.entry (with_item self.old (bytes.now)) (HasRoom self.old) result }
    {
        self.segments.append(&RawBytes(bytes))?;
        Ok(Added { target: self })
    }

    /// The same section, in memory of its own. Fails only where no memory is found.
    pub fn clone(&self) -> Result<Self, AllocError>
        ensures { IfOk result (λ section. section ≡ self.now) }
    {
        let segments = self.segments.clone()?;
        Ok(ElementSection { segments })
    }
}

/// The size, and the list of segments.
impl Encode for ElementSection {
    ghost can_encode = { λ _. Unit {0} };

    ghost fits = { λ section. length (list_bytes section) < 2 ^ 32 };

    ghost spelling = { list_section };

    fn encode(&self, sink: &mut Vec<u8>) -> Result<(), EncodeError> {
        Part(&self.segments).encode(sink)
    }
}

impl Section for ElementSection {
    ghost section_id = { λ _. 9 };

    fn id(&self) -> u8 {
        SectionId::Element.into()
    }
}

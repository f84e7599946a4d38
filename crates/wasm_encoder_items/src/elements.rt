//! Element segments (WebAssembly 3.0, 5.5.12).

ghost use Rattle.std.specs.Prelude.{◌≡◌, ◌++◌, ◌∷◌, ◌<◌, ◌^◌, length, IfOk};
ghost use Rattle.wasm_encoder_base.specs.Encodes.{Encodes};
ghost use Rattle.wasm_encoder_base.specs.Views.{ref_view};
ghost use Rattle.wasm_encoder_items.specs.Segments.{is_funcref, ended, element_bytes};
ghost use Rattle.wasm_encoder_items.specs.SegmentViews.{functions_view, expressions_view};

use crate::copies::copied_items;
use std::alloc::AllocError;
use wasm_encoder_base::{AbstractHeapType, Encode, EncodeError, HeapType, Items, RefType};
use wasm_encoder_code::ConstExpr;

/// When an element segment is used.
#[derive(Clone, Debug, Drop)]
pub enum ElementMode<'a> {
    /// Where an instruction says so.
    Passive,
    /// Never: its functions are just declared.
    Declared,
    /// Before the module starts, where it is copied into a table.
    Active {
        /// The table; the first where there is none.
        table: Option<u32>,
        /// Where in the table.
        offset: &'a ConstExpr,
    },
}

/// The elements of a segment.
#[derive(Debug, Drop)]
pub enum Elements<'a> {
    /// References to the functions with these indices.
    Functions(Items<'a, u32>),
    /// Values of the type.
    Expressions(RefType, Items<'a, ConstExpr>),
}

impl<'a> Elements<'a> {
    /// The same elements. Fails only where no memory is found.
    pub fn clone(&self) -> Result<Self, AllocError>
        ensures { IfOk result (λ elements. elements ≡ self.now) }
    {
        match self {
            Elements::Functions(functions) => Ok(Elements::Functions(functions.clone()?)),
            Elements::Expressions(ty, values) => {
                Ok(Elements::Expressions(*ty, copied_items(values)?))
            }
        }
    }
}

/// An element segment.
#[derive(Debug, Drop)]
pub struct ElementSegment<'a> {
    pub mode: ElementMode<'a>,
    pub elements: Elements<'a>,
}

impl<'a> ElementSegment<'a> {
    /// The same segment. Fails only where no memory is found.
    pub fn clone(&self) -> Result<Self, AllocError>
        ensures { IfOk result (λ segment. segment ≡ self.now) }
    {
        Ok(ElementSegment {
            mode: self.mode.clone()?,
            elements: self.elements.clone()?,
        })
    }
}

/// The flag, and by it the table, the offset, the kind or type of the elements, and the elements.
impl Encode for ElementSegment<'_> {
    ghost use Rattle.wasm_encoder_items.specs.Segments.{element_bytes, ended};
    ghost use Rattle.wasm_encoder_items.specs.SegmentViews.{element_view, ElementsFit};

    ghost can_encode = { λ _. Unit {0} };

    ghost fits = { λ s. ElementsFit s.elements };

    ghost spelling = { λ s. element_bytes ended (element_view s) };

    fn encode(&self, sink: &mut Vec<u8>) -> Result<(), EncodeError> {
        match &self.elements {
            Elements::Functions(functions) => self
                .mode
                .encode_functions(functions.as_slice(), sink),
            Elements::Expressions(ty, elements) => self
                .mode
                .encode_expressions(ty, elements.as_slice(), sink),
        }
    }
}

impl ElementMode<'_> {
    /// Appends the segment of these functions in this mode.
    fn encode_functions(&self, functions: &[u32], sink: &mut Vec<u8>) -> Result<(), EncodeError>
        ensures { Encodes (element_bytes ended (functions_view self.now functions.now)) (length functions.now < 2 ^ 32) sink.old.items sink.new.items result }
    {
        let of_functions = (0x00u8, functions);
        match self {
            ElementMode::Active {
                table: None,
                offset,
            } => (0x00u8, (*offset, functions)).encode(sink),
            ElementMode::Passive => (0x01u8, of_functions).encode(sink),
            ElementMode::Active {
                table: Some(table),
                offset,
            } => (0x02u8, (*table, (*offset, of_functions))).encode(sink),
            ElementMode::Declared => (0x03u8, of_functions).encode(sink),
        }
    }

    /// Appends the segment of these values in this mode.
    fn encode_expressions(
        &self,
        ty: &RefType,
        values: &[ConstExpr],
        sink: &mut Vec<u8>,
    ) -> Result<(), EncodeError>
        ensures { Encodes (element_bytes ended (expressions_view self.now (ref_view ty.now) values.now)) (length values.now < 2 ^ 32) sink.old.items sink.new.items result }
    {
        let of_type = (*ty, values);
        match self {
            ElementMode::Active {
                table: None,
                offset,
            } => {
                if is_funcref(ty) {
                    (0x04u8, (*offset, values)).encode(sink)
                } else {
                    (0x06u8, (0u32, (*offset, of_type))).encode(sink)
                }
            }
            ElementMode::Passive => (0x05u8, of_type).encode(sink),
            ElementMode::Active {
                table: Some(table),
                offset,
            } => (0x06u8, (*table, (*offset, of_type))).encode(sink),
            ElementMode::Declared => (0x07u8, of_type).encode(sink),
        }
    }
}

/// Whether the type is `funcref`.
fn is_funcref(ty: &RefType) -> bool
    ensures { result ≡ is_funcref (ref_view ty.now) }
{
    matches!(
        ty,
        RefType {
            nullable: true,
            heap_type: HeapType::Abstract(AbstractHeapType::Func)
        }
    )
}

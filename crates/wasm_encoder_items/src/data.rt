//! Data segments (WebAssembly 3.0, 5.5.14).

ghost use Rattle.std.specs.Prelude.{◌≡◌, ◌++◌, ◌∷◌, length};

use wasm_encoder_base::{Encode, EncodeError, Part, RawBytes};
use wasm_encoder_code::ConstExpr;

/// When a data segment is used.
#[derive(Clone, Debug, Drop)]
pub enum DataSegmentMode<'a> {
    /// Before the module starts, where it is copied into a memory.
    Active {
        /// The memory.
        memory_index: u32,
        /// Where in the memory, in bytes.
        offset: &'a ConstExpr,
    },
    /// Where an instruction says so.
    Passive,
}

/// A data segment.
#[derive(Clone, Debug, Drop)]
pub struct DataSegment<'a> {
    pub mode: DataSegmentMode<'a>,
    pub bytes: &'a [u8],
}

/// 0 and the offset where the memory is the first; 1 where there is none; else 2, the memory and the offset; then the byte
/// count and the bytes.
impl Encode for DataSegment<'_> {
    ghost use Rattle.std.specs.Prelude.{◌<◌, ◌^◌, length};
    ghost use Rattle.wasm_encoder_items.specs.Segments.{data_bytes, ended};
    ghost use Rattle.wasm_encoder_items.specs.SegmentViews.{data_view};

    ghost can_encode = { λ _. Unit {0} };

    ghost fits = { λ s. length s.bytes.now < 2 ^ 32 };

    ghost spelling = { λ s. data_bytes ended (data_view s) };

    fn encode(&self, sink: &mut Vec<u8>) -> Result<(), EncodeError> {
        let bytes = Part(RawBytes(self.bytes));
        match &self.mode {
            DataSegmentMode::Active {
                memory_index: 0,
                offset,
            } => (0x00u8, (*offset, bytes)).encode(sink),
            DataSegmentMode::Passive => (0x01u8, bytes).encode(sink),
            DataSegmentMode::Active {
                memory_index,
                offset,
            } => ((0x02u8, *memory_index), (*offset, bytes)).encode(sink),
        }
    }
}

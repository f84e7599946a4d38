//! Sections and their numbers (WebAssembly 3.0, 5.5.2).

ghost use Rattle.std.specs.Prelude.{◌≡◌, ℕ};

use wasm_encoder_bytes::Encode;

/// The kinds of sections (5.5.2); each number is the section's first byte.
#[derive(Clone, Copy, Debug, PartialEq, Eq, Hash)]
pub enum SectionId {
    Custom = 0,
    TypeItem = 1,
    Import = 2,
    Function = 3,
    Table = 4,
    Memory = 5,
    Global = 6,
    Export = 7,
    Start = 8,
    Element = 9,
    Code = 10,
    Data = 11,
    DataCount = 12,
    Tag = 13,
}

impl From<SectionId> for u8 {
    ghost use Rattle.wasm_encoder_base.specs.Views.{section_number};

    ghost from_gives = { λ id n. n ≡ section_number id };

    fn from(id: SectionId) -> Self {
        id as u8
    }
}

/// A section of a module (5.5.2): its spelling is to be that of its size and what stands in it.
pub trait Section: Encode {
    ghost section_id: { Self → ℕ };

    /// The number that stands before the section.
    fn id(&self) -> u8
        ensures { result ≡ section_id self.now };
}

//! The start section (WebAssembly 3.0, 5.5.11) and the data count section (5.5.15).

ghost use Rattle.wasm_encoder_base.specs.Bytes.{sized};
ghost use Rattle.wasm_encoder_base.specs.Encodes.{Encodes};
ghost use Rattle.wasm_encoder_base.specs.Leb.{uleb};
ghost use Rattle.wasm_encoder_sections.specs.Sections.{start_section, data_count_section};

use wasm_encoder_base::{Encode, EncodeError, Part, Section, SectionId};

/// The start section: which function runs when the module starts.
#[derive(Clone, Copy, Debug)]
pub struct StartSection {
    /// The function's index.
    pub function_index: u32,
}

/// The size and the index.
impl Encode for StartSection {
    ghost can_encode = { λ _. Unit {0} };

    ghost fits = { λ _. Unit {0} };

    ghost spelling = { λ section. start_section section.function_index };

    fn encode(&self, sink: &mut Vec<u8>) -> Result<(), EncodeError> {
        encode_number(self.function_index, sink)
    }
}

impl Section for StartSection {
    ghost section_id = { λ _. 8 };

    fn id(&self) -> u8 {
        SectionId::Start.into()
    }
}

/// The data count section: how many data segments there are, for those who read the code before them.
#[derive(Clone, Copy, Debug)]
pub struct DataCountSection {
    /// The number of data segments.
    pub count: u32,
}

/// The size and the count.
impl Encode for DataCountSection {
    ghost can_encode = { λ _. Unit {0} };

    ghost fits = { λ _. Unit {0} };

    ghost spelling = { λ section. data_count_section section.count };

    fn encode(&self, sink: &mut Vec<u8>) -> Result<(), EncodeError> {
        encode_number(self.count, sink)
    }
}

impl Section for DataCountSection {
    ghost section_id = { λ _. 12 };

    fn id(&self) -> u8 {
        SectionId::DataCount.into()
    }
}

/// Appends the number with its size before it.
#[tactic(auto, using(crate::proofs::Short::short))]
fn encode_number(number: u32, sink: &mut Vec<u8>) -> Result<(), EncodeError>
    ensures { Encodes (sized (uleb number)) (Unit {0}) sink.old.items sink.new.items result }
{
    Part(number).encode(sink)
}

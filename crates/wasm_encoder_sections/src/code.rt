//! The code section (WebAssembly 3.0, 5.5.13).

ghost use Rattle.std.specs.Prelude.{◌≡◌, ◌<◌, ◌^◌, length, nat_eq, IfOk};
ghost use Rattle.std.specs.Borrow.{sem};
ghost use Rattle.wasm_encoder_base.specs.Adds.{Adds, KeptIfRefused};
ghost use Rattle.wasm_encoder_base.specs.Lists.{no_items, with_item, list_bytes, list_section, HasRoom};
ghost use Rattle.wasm_encoder_sections.specs.Codes.{function_item};
ghost use Rattle.wasm_encoder_sections.specs.contracts.code.CodeSection.{the_row};

use std::alloc::{AllocError, Global};
use std::marker::Model;
use wasm_encoder_base::{
    Added, Encode, EncodeError, EncodedList, Part, RawBytes, Section, SectionId,
};
use wasm_encoder_code::Function;

/// The code section: the bodies of a module's functions. Contracts see how many there are, and their bytes.
#[derive(Debug, Drop)]
pub struct CodeSection {
    bodies: EncodedList,
}

impl Model for CodeSection {
    ghost use Rattle.wasm_encoder_base.specs.Lists.{Listed};

    ghost Value = { Listed };

    ghost view = { λ section. section.bodies };
}

impl CodeSection {
    /// A section without bodies.
    pub fn new(alloc: Global) -> Self
        ensures { result ≡ no_items }
    {
        CodeSection {
            bodies: EncodedList::new(alloc),
        }
    }

    /// How many bodies there are.
    pub fn len(&self) -> u32
        ensures { result ≡ self.now.count }
    {
        self.bodies.len()
    }

    /// Whether there are no bodies.
    pub fn is_empty(&self) -> bool
        ensures { result ≡ nat_eq self.now.count 0 }
    {
        self.bodies.is_empty()
    }

    /// How many bytes the bodies have with their sizes, the count aside.
    pub fn byte_len(&self) -> usize
        ensures { result ≡ length self.now.bytes }
    {
        self.bodies.as_bytes().len()
    }

    /// Appends a body.
    pub fn function(&mut self, function: &Function) -> Result<Added<'_, Self>, EncodeError>
        ensures* refused { sem 𝓛 (KeptIfRefused the_row self.entry result) }
        ensures adds { Adds self.entry (with_item self.old (function_item function.now)) (HasRoom self.old × (length function.now < 2 ^ 32)) result }
    {
        self.bodies.append(function)?;
        Ok(Added { target: self })
    }

    /// Appends a body that is encoded already, without its size, which is written before it: what `function` appends for a function with
    /// these bytes, as `into_raw_body` gives them.
    pub fn raw(&mut self, bytes: &[u8]) -> Result<Added<'_, Self>, EncodeError>
        ensures* refused { sem 𝓛 (KeptIfRefused the_row self.entry result) }
        ensures adds { Adds self.entry (with_item self.old (function_item bytes.now)) (HasRoom self.old × (length bytes.now < 2 ^ 32)) result }
    {
        self.bodies.append(&Part(RawBytes(bytes)))?;
        Ok(Added { target: self })
    }

    /// The same section, in memory of its own. Fails only where no memory is found.
    pub fn clone(&self) -> Result<Self, AllocError>
        ensures { IfOk result (λ section. section ≡ self.now) }
    {
        let bodies = self.bodies.clone()?;
        Ok(CodeSection { bodies })
    }
}

/// The size, and the list of bodies.
impl Encode for CodeSection {
    ghost can_encode = { λ _. Unit {0} };

    ghost fits = { λ section. length (list_bytes section) < 2 ^ 32 };

    ghost spelling = { list_section };

    fn encode(&self, sink: &mut Vec<u8>) -> Result<(), EncodeError> {
        Part(&self.bodies).encode(sink)
    }
}

impl Section for CodeSection {
    ghost section_id = { λ _. 10 };

    fn id(&self) -> u8 {
        SectionId::Code.into()
    }
}

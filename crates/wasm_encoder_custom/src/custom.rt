//! Custom sections (WebAssembly 3.0, 5.5.3).

ghost use Rattle.std.specs.Prelude.{◌≡◌, IfOk};
ghost use Rattle.std.specs.Cow.{cow_str_bytes};
ghost use Rattle.wasm_encoder_base.specs.Encodes.{Encodes};
ghost use Rattle.wasm_encoder_custom.specs.Custom.{custom, custom_bytes, CustomFits};

use std::alloc::{AllocError, Global};
use std::borrow::CowStr;
use wasm_encoder_base::{Bytes, Encode, EncodeError, Measure, Part, RawBytes, Section, SectionId};

/// A custom section (5.5.3): its name, and its data.
#[derive(Debug, Drop, PartialEq)]
pub struct CustomSection<'a> {
    /// The name of the section.
    pub name: CowStr<'a, Global>,
    /// The section's data.
    pub bytes: Bytes<'a>,
}

impl<'a> CustomSection<'a> {
    /// The same section. Fails only where no memory is found.
    pub fn clone(&self) -> Result<Self, AllocError>
        ensures name { IfOk result (λ section. cow_str_bytes section.name ≡ cow_str_bytes self.now.name) }
        ensures bytes { IfOk result (λ section. section.bytes ≡ self.now.bytes) }
    {
        let name = self.name.clone()?;
        let bytes = self.bytes.clone()?;
        Ok(CustomSection { name, bytes })
    }
}

/// The size, the name, and the data as it is.
impl Encode for CustomSection<'_> {
    ghost can_encode = { λ _. Unit {0} };

    ghost fits = { λ section. CustomFits (custom (cow_str_bytes section.name) section.bytes) };

    ghost spelling = { λ section. custom_bytes (custom (cow_str_bytes section.name) section.bytes) };

    fn encode(&self, sink: &mut Vec<u8>) -> Result<(), EncodeError> {
        encode_custom(self.name.as_str(), &RawBytes(self.bytes.as_slice()), sink)
    }
}

impl Section for CustomSection<'_> {
    ghost section_id = { λ _. 0 };

    fn id(&self) -> u8 {
        SectionId::Custom.into()
    }
}

/// A custom section as it stands after its number: the bytes have to be its size, its name and its data.
#[derive(Clone, Debug, Drop)]
pub struct RawCustomSection<'a>(pub &'a [u8]);

/// The bytes as they are.
impl Encode for RawCustomSection<'_> {
    ghost can_encode = { λ _. Unit {0} };

    ghost fits = { λ _. Unit {0} };

    ghost spelling = { λ section. section.0.now };

    fn encode(&self, sink: &mut Vec<u8>) -> Result<(), EncodeError> {
        RawBytes(self.0).encode(sink)
    }
}

impl Section for RawCustomSection<'_> {
    ghost section_id = { λ _. 0 };

    fn id(&self) -> u8 {
        SectionId::Custom.into()
    }
}

/// Appends a custom section: its size, its name, and its data.
pub fn encode_custom<T: Measure>(
    name: &str,
    contents: &T,
    sink: &mut Vec<u8>,
) -> Result<(), EncodeError>
    requires { T.Encode.can_encode contents.now }
    ensures { Encodes (custom_bytes (custom name.now (T.Encode.spelling contents.now))) (CustomFits (custom name.now (T.Encode.spelling contents.now)) × T.Encode.fits contents.now) sink.old.items sink.new.items result }
{
    Part((name, contents)).encode(sink)
}

//! Modules (WebAssembly 3.0, 5.5.17).

ghost use Rattle.std.specs.Prelude.{◌≡◌, ◌++◌, [], IfOk};
ghost use Rattle.std.specs.Borrow.{sem};
ghost use Rattle.wasm_encoder_base.specs.Adds.{Adds, KeptIfRefused};
ghost use Rattle.wasm_encoder.specs.Module.{header, numbered};
ghost use Rattle.wasm_encoder.specs.contracts.module.Module.{the_row};

use std::alloc::{AllocError, Global};
use std::marker::Model;
use wasm_encoder_base::{Added, Encode, EncodeError, Section};

/// The magic number and the version.
const HEADER: [u8; 8] = [0x00, 0x61, 0x73, 0x6D, 0x01, 0x00, 0x00, 0x00];

/// A module that is built section by section. Contracts see the bytes of its sections, one after another.
///
/// The order of the sections is left to the caller (5.5.17).
#[derive(Debug, Drop)]
pub struct Module {
    bytes: Vec<u8>,
}

impl Model for Module {
    ghost use Rattle.std.specs.Prelude.{List, ℕ};
    ghost use Rattle.wasm_encoder.specs.Module.{HasHeader, after_header};

    ghost Value = { List ℕ };

    ghost view = { λ m. after_header m.bytes.items };

    ghost invariant = { λ m. HasHeader m.bytes.items };
}

impl Module {
    /// A module without sections. Fails only where no memory is found.
    pub fn new(alloc: Global) -> Result<Self, AllocError>
        ensures { IfOk result (λ m. m ≡ []) }
    {
        let bytes = Vec::from_slice(alloc, &HEADER)?;
        Ok(Module { bytes })
    }

    /// Appends a section: its number, and its encoding. Refused as the section's `encode` is; the module is unchanged then.
    pub fn section<S: Section>(&mut self, section: &S) -> Result<Added<'_, Self>, EncodeError>
        requires { S.Encode.can_encode section.now }
        ensures* refused { sem 𝓛 (KeptIfRefused the_row self.entry result) }
        ensures adds { Adds self.entry (self.old ++ numbered (S.section_id section.now) (S.Encode.spelling section.now)) (S.Encode.fits section.now) result }
    {
        (section.id(), section).encode(&mut self.bytes)?;
        Ok(Added { target: self })
    }

    /// The header and the sections. Takes no memory.
    pub fn finish(self) -> Vec<u8>
        ensures { result.items ≡ header ++ self }
    {
        let Module { bytes } = self;
        bytes
    }

    /// The same module, in memory of its own. Fails only where no memory is found.
    pub fn clone(&self) -> Result<Self, AllocError>
        ensures { IfOk result (λ m. m ≡ self.now) }
    {
        let bytes = self.bytes.clone()?;
        Ok(Module { bytes })
    }
}

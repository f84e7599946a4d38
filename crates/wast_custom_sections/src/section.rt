//! Sections behind their numbers.
ghost use Rattle.wasm_encoder_base.specs.Encodes.{Encodes};
ghost use Rattle.wasm_encoder.specs.Module.{numbered};
ghost use Rattle.wast_custom_sections.specs.Parts.{AreCustom};

use wasm_encoder::Module;
use wasm_encoder_base::{Encode, EncodeError, Section};
use wasm_encoder_custom::RawCustomSection;

/// Appends a section: its number, and its encoding.
pub(crate) fn put_section<S: Section>(section: &S, sink: &mut Vec<u8>) -> Result<(), EncodeError>
    requires { S.Encode.can_encode section.now }
    ensures { Encodes (numbered (S.section_id section.now) (S.Encode.spelling section.now)) (S.Encode.fits section.now) sink.old.items sink.new.items result }
{
    (section.id(), section).encode(sink)
}

/// Appends custom sections to those of a module, all or none: the bytes of each, the number included.
pub(crate) fn put_sections(sections: &[u8], module: &mut Module) -> Result<(), EncodeError>
    requires { AreCustom sections.now }
    ensures { Encodes sections.now (Unit {0}) «module».old «module».new result }
{
    // The number of the first is that of a custom section, which the module appends itself.
    let [_, behind @ ..] = sections else {
        return Ok(());
    };
    add_section(&RawCustomSection(behind), module)
}

/// Appends a section to those of a module.
pub fn add_section<S: Section>(section: &S, module: &mut Module) -> Result<(), EncodeError>
    requires { S.Encode.can_encode section.now }
    ensures { Encodes (numbered (S.section_id section.now) (S.Encode.spelling section.now)) (S.Encode.fits section.now) «module».old «module».new result }
{
    module.section(section)?;
    Ok(())
}

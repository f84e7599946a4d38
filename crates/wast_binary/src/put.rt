//! Sections, appended to those of a module.
ghost use Rattle.wasm_encoder_base.specs.Encodes.{Encodes};
ghost use Rattle.wasm_encoder.specs.Module.{numbered};
ghost use Rattle.wast_binary.specs.Puts.{unless, FitsUnless};

use wasm_encoder::Module;
use wasm_encoder_base::{EncodeError, Section};
use wast_custom_sections::add_section;

/// Appends a section, unless it is empty.
pub(crate) fn put_unless_empty<S: Section>(
    section: &S,
    is_empty: bool,
    module: &mut Module,
) -> Result<(), EncodeError>
    requires { S.Encode.can_encode section.now }
    ensures { Encodes (unless is_empty (numbered (S.section_id section.now) (S.Encode.spelling section.now))) (FitsUnless is_empty (S.Encode.fits section.now)) «module».old «module».new result }
{
    if is_empty {
        Ok(())
    } else {
        add_section(section, module)
    }
}

//! Why a module was not encoded.
ghost use Rattle.std.specs.Prelude.{◌≡◌};
ghost use Rattle.wast_encode.specs.Faults.{as_fault};

use wasm_encoder_base::EncodeError;
use wast_parser::{Error, Span};

/// Why a module was not encoded.
#[derive(Debug, Drop, thiserror::Error)]
pub enum EncodeFault {
    /// A demand of names isn't met, as that a name or a use of a type stands for what it must, that no two items bear one name, or that
    /// imports stand first; the first, with its place and message.
    #[error("{0}")]
    Unmet(Error),
    /// A form has no binary here; the first, by the place of its field and what it is called.
    #[error("uncovered form: {form}")]
    Uncovered { span: Span, form: &'static str },
    /// A count or length of the binary is past 4294967295.
    #[error("a count or length is past 4294967295")]
    TooLarge,
    /// A growth found no memory, or the module has more than is counted (see `encode_module`).
    #[error("out of memory")]
    Memory,
}

/// The fault that an encoder's error is.
pub(crate) fn fault_of(error: EncodeError) -> EncodeFault
    ensures { result ≡ as_fault error }
{
    match error {
        EncodeError::Memory => EncodeFault::Memory,
        EncodeError::TooLarge => EncodeFault::TooLarge,
    }
}

ghost use Rattle.std.specs.Prelude.{◌≡◌};

use std::alloc::{AllocError, AllocFailed};
use thiserror::Error;

/// Why a value was not encoded.
#[derive(Clone, Copy, Debug, PartialEq, Eq, Hash, Error)]
pub enum EncodeError {
    /// A growth of the sink, or of another vector, found no memory.
    #[error("out of memory")]
    Memory = 1,
    /// A count or length is past 4294967295; never given for another reason.
    #[error("a count or length is past 4294967295")]
    TooLarge = 2,
}

impl From<AllocError> for EncodeError {
    ghost use Rattle.wasm_encoder_bytes.specs.declared.error.EncodeError.TheVariants.{Memory};

    ghost from_gives = { λ _ e. e ≡ Memory };

    fn from(_e: AllocError) -> Self {
        EncodeError::Memory
    }
}

impl<T: Drop> From<AllocFailed<T>> for EncodeError {
    ghost use Rattle.wasm_encoder_bytes.specs.declared.error.EncodeError.TheVariants.{Memory};

    ghost from_gives = { λ _ e. e ≡ Memory };

    fn from(_e: AllocFailed<T>) -> Self {
        EncodeError::Memory
    }
}

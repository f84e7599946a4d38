//! The calls behind a row, of which one may be refused.

use crate::encoded;
use std::alloc::{AllocError, Global};
use wasm_encoder::{EncodeError, Section};

/// What calls answered: a refusal, where there was one.
#[derive(Clone, Copy)]
pub struct Calls {
    refused: Option<EncodeError>,
}

impl Calls {
    /// None was refused.
    pub fn new() -> Self {
        Calls { refused: None }
    }

    pub fn note<T: Drop>(&mut self, answer: Result<T, EncodeError>) {
        if let Err(error) = answer {
            self.refused = Some(error);
        }
    }

    /// Notes a copy, which is let go.
    pub fn note_copy<T: Drop>(&mut self, copy: Result<T, AllocError>) {
        if let Err(error) = copy {
            self.refused = Some(EncodeError::from(error));
        }
    }

    /// The section, unless a call was refused.
    pub fn encoded<S: Section + Drop>(
        self,
        alloc: Global,
        section: S,
    ) -> Result<Vec<u8>, EncodeError>
        requires { S.Encode.can_encode section }
    {
        match self.refused {
            Some(error) => Err(error),
            None => encoded(alloc, &section),
        }
    }

    /// This value, unless a call was refused.
    pub fn with<T: Drop>(self, value: T) -> Result<T, EncodeError> {
        match self.refused {
            Some(error) => Err(error),
            None => Ok(value),
        }
    }
}

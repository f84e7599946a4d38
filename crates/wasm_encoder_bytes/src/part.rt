//! Spellings made of others: one after another, what there may be, bytes as they are, and parts with their size before
//! them.

ghost use Rattle.std.specs.Prelude.{◌≡◌, ◌<◌, ◌≤◌, ◌^◌, ◌++◌, length, IfSome, IfNone};
ghost use Rattle.wasm_encoder_bytes.specs.Bytes.{optional, sized};

use crate::encode::{Encode, encode_both};
use crate::error::EncodeError;
use crate::leb::encoding_size;
use crate::list::EncodedList;

/// The first, then the second.
impl<A: Encode, B: Encode> Encode for (A, B) {
    ghost can_encode = { λ pair. A.can_encode pair.0 × B.can_encode pair.1 };

    ghost fits = { λ pair. A.fits pair.0 × B.fits pair.1 };

    ghost spelling = { λ pair. A.spelling pair.0 ++ B.spelling pair.1 };

    fn encode(&self, sink: &mut Vec<u8>) -> Result<(), EncodeError> {
        encode_both(&self.0, &self.1, sink)
    }
}

/// The three, one after another.
impl<A: Encode, B: Encode, C: Encode> Encode for (A, B, C) {
    ghost can_encode = { λ three. A.can_encode three.0 × B.can_encode three.1 × C.can_encode three.2 };

    ghost fits = { λ three. A.fits three.0 × B.fits three.1 × C.fits three.2 };

    ghost spelling = { λ three. A.spelling three.0 ++ B.spelling three.1 ++ C.spelling three.2 };

    fn encode(&self, sink: &mut Vec<u8>) -> Result<(), EncodeError> {
        encode_both(&(&self.0, &self.1), &self.2, sink)
    }
}

/// The value, where there is one.
impl<T: Encode> Encode for Option<T> {
    ghost can_encode = { λ value. IfSome value T.can_encode };

    ghost fits = { λ value. IfSome value T.fits };

    ghost spelling = { optional T.spelling };

    fn encode(&self, sink: &mut Vec<u8>) -> Result<(), EncodeError> {
        match self {
            Some(value) => value.encode(sink),
            None => Ok(()),
        }
    }
}

/// Bytes that are written as they are.
#[derive(Clone, Copy, Debug)]
pub struct RawBytes<'a>(pub &'a [u8]);

impl Encode for RawBytes<'_> {
    ghost can_encode = { λ _. Unit {0} };

    ghost fits = { λ _. Unit {0} };

    ghost spelling = { λ bytes. bytes.0.now };

    fn encode(&self, sink: &mut Vec<u8>) -> Result<(), EncodeError> {
        sink.extend_from_slice(self.0)?;
        Ok(())
    }
}

/// A value whose length in bytes is known before it is written.
pub trait Measure: Encode {
    /// How many bytes the spelling has; `None` only where they are more than 4294967295. Takes no memory.
    fn byte_len(&self) -> Option<usize>
        ensures some { IfSome result (λ n. n ≡ length (Self.Encode.spelling self.now)) }
        ensures none { IfNone result (2 ^ 32 ≤ length (Self.Encode.spelling self.now)) };
}

impl Measure for u8 {
    fn byte_len(&self) -> Option<usize> {
        Some(1)
    }
}

impl Measure for u32 {
    fn byte_len(&self) -> Option<usize> {
        Some(encoding_size(*self))
    }
}

impl Measure for &str {
    fn byte_len(&self) -> Option<usize> {
        let count = u32::try_from(self.len()).ok()?;
        encoding_size(count).checked_add(self.len())
    }
}

impl Measure for RawBytes<'_> {
    fn byte_len(&self) -> Option<usize> {
        Some(self.0.len())
    }
}

impl Measure for EncodedList {
    fn byte_len(&self) -> Option<usize> {
        encoding_size(self.len()).checked_add(self.as_bytes().len())
    }
}

impl<T: Measure> Measure for &T {
    fn byte_len(&self) -> Option<usize> {
        (**self).byte_len()
    }
}

impl<A: Measure, B: Measure> Measure for (A, B) {
    fn byte_len(&self) -> Option<usize> {
        let first = self.0.byte_len()?;
        let second = self.1.byte_len()?;
        first.checked_add(second)
    }
}

/// A part with its size in bytes before it.
#[derive(Clone, Copy, Debug)]
pub struct Part<T>(pub T);

impl<T: Measure> Encode for Part<T> {
    ghost can_encode = { λ part. T.Encode.can_encode part.0 };

    ghost fits = { λ part. T.Encode.fits part.0 × (length (T.Encode.spelling part.0) < 2 ^ 32) };

    ghost spelling = { λ part. sized (T.Encode.spelling part.0) };

    fn encode(&self, sink: &mut Vec<u8>) -> Result<(), EncodeError> {
        let Some(size) = self.0.byte_len() else {
            return Err(EncodeError::TooLarge);
        };
        encode_both(&size, &self.0, sink)
    }
}

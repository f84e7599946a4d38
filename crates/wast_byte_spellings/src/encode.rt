//! Spellings in bytes of what a text spells.

ghost use Rattle.std.specs.Prelude.{◌<◌, ◌^◌, ◌++◌, ℕ, [], ◌∷◌, All, List, length};
ghost use Rattle.std.specs.Cow.{cow_str_bytes};
ghost use Rattle.wasm_encoder_bytes.specs.Bytes.{counted, sized};
ghost use Rattle.wasm_encoder_bytes.specs.Encodes.{Encodes, Puts};
ghost use Rattle.wasm_encoder_bytes.specs.Leb.{sleb, uleb};

use std::alloc::Global;
use std::borrow::CowStr;
use wasm_encoder_bytes::{EncodeError, encode_sized, rolled_back};

/// A value of a text that has a spelling in bytes.
///
/// An implementation gives two meanings, and every call is proved from them alone: the `spelling`; and `fits`, that every
/// count and length in it, and the value where it is one, is at most 4294967295.
pub trait Encode {
    ghost fits: { Self → Type 0 };

    ghost spelling: { Self → List ℕ };

    /// Appends the spelling to `sink`.
    ///
    /// Answers [`EncodeError::TooLarge`] exactly where, memory found, a count or length does not fit, and
    /// [`EncodeError::Memory`] where a growth found no memory. Refused, the bytes of `sink` are unchanged.
    fn encode(&self, sink: &mut Vec<u8>) -> Result<(), EncodeError>
        ensures { Encodes (spelling self.now) (fits self.now) sink.old.items sink.new.items result };
}

/// The byte itself (5.2.1).
impl Encode for u8 {
    ghost fits = { λ _. Unit {0} };

    ghost spelling = { λ n. n ∷ [] };

    fn encode(&self, sink: &mut Vec<u8>) -> Result<(), EncodeError> {
        wasm_encoder_bytes::Encode::encode(self, sink)
    }
}

/// The shortest unsigned LEB128 (5.2.2).
impl Encode for u32 {
    ghost fits = { λ _. Unit {0} };

    ghost spelling = { uleb };

    fn encode(&self, sink: &mut Vec<u8>) -> Result<(), EncodeError> {
        wasm_encoder_bytes::Encode::encode(self, sink)
    }
}

/// The shortest unsigned LEB128 (5.2.2).
impl Encode for u64 {
    ghost fits = { λ _. Unit {0} };

    ghost spelling = { uleb };

    fn encode(&self, sink: &mut Vec<u8>) -> Result<(), EncodeError> {
        wasm_encoder_bytes::Encode::encode(self, sink)
    }
}

/// A count or length: the shortest unsigned LEB128, too large past 4294967295.
impl Encode for usize {
    ghost fits = { λ n. n < 2 ^ 32 };

    ghost spelling = { uleb };

    fn encode(&self, sink: &mut Vec<u8>) -> Result<(), EncodeError> {
        wasm_encoder_bytes::Encode::encode(self, sink)
    }
}

/// The shortest signed LEB128 (5.2.2).
impl Encode for i32 {
    ghost fits = { λ _. Unit {0} };

    ghost spelling = { sleb };

    fn encode(&self, sink: &mut Vec<u8>) -> Result<(), EncodeError> {
        wasm_encoder_bytes::Encode::encode(self, sink)
    }
}

/// The shortest signed LEB128 (5.2.2).
impl Encode for i64 {
    ghost fits = { λ _. Unit {0} };

    ghost spelling = { sleb };

    fn encode(&self, sink: &mut Vec<u8>) -> Result<(), EncodeError> {
        wasm_encoder_bytes::Encode::encode(self, sink)
    }
}

/// A name: the byte count, then the bytes (5.2.4).
impl Encode for &str {
    ghost fits = { λ text. length text.now < 2 ^ 32 };

    ghost spelling = { λ text. sized text.now };

    fn encode(&self, sink: &mut Vec<u8>) -> Result<(), EncodeError> {
        encode_sized(self.as_bytes(), sink)
    }
}

/// A name (5.2.4).
impl<'a> Encode for CowStr<'a, Global> {
    ghost fits = { λ text. length (cow_str_bytes text) < 2 ^ 32 };

    ghost spelling = { λ text. sized (cow_str_bytes text) };

    fn encode(&self, sink: &mut Vec<u8>) -> Result<(), EncodeError> {
        (&**self).encode(sink)
    }
}

/// What the reference points to.
impl<T: Encode> Encode for &T {
    ghost fits = { λ value. T.fits value.now };

    ghost spelling = { λ value. T.spelling value.now };

    fn encode(&self, sink: &mut Vec<u8>) -> Result<(), EncodeError> {
        (**self).encode(sink)
    }
}

/// What the box holds.
impl<T: Encode> Encode for Box<T> {
    ghost fits = { λ value. T.fits value.value };

    ghost spelling = { λ value. T.spelling value.value };

    fn encode(&self, sink: &mut Vec<u8>) -> Result<(), EncodeError> {
        (**self).encode(sink)
    }
}

/// A list: the count, then the items (5.1.3).
impl<T: Encode> Encode for &[T] {
    ghost fits = { λ items. (length items.now < 2 ^ 32) × All T.fits items.now };

    ghost spelling = { λ items. counted T.spelling items.now };

    fn encode(&self, sink: &mut Vec<u8>) -> Result<(), EncodeError> {
        let start = sink.len();
        let answer = put_all(*self, sink);
        rolled_back(sink, start, answer)
    }
}

/// A list (5.1.3).
impl<T: Encode> Encode for Vec<T> {
    ghost fits = { λ items. (length items.items < 2 ^ 32) × All T.fits items.items };

    ghost spelling = { λ items. counted T.spelling items.items };

    fn encode(&self, sink: &mut Vec<u8>) -> Result<(), EncodeError> {
        self.as_slice().encode(sink)
    }
}

/// One after the other.
impl<T: Encode, U: Encode> Encode for (T, U) {
    ghost fits = { λ both. T.fits both.0 × U.fits both.1 };

    ghost spelling = { λ both. T.spelling both.0 ++ U.spelling both.1 };

    fn encode(&self, sink: &mut Vec<u8>) -> Result<(), EncodeError> {
        let start = sink.len();
        self.0.encode(sink)?;
        let answer = self.1.encode(sink);
        rolled_back(sink, start, answer)
    }
}

/// One after the other.
impl<T: Encode, U: Encode, V: Encode> Encode for (T, U, V) {
    ghost fits = { λ all. T.fits all.0 × U.fits all.1 × V.fits all.2 };

    ghost spelling = { λ all. T.spelling all.0 ++ U.spelling all.1 ++ V.spelling all.2 };

    fn encode(&self, sink: &mut Vec<u8>) -> Result<(), EncodeError> {
        (&self.0, (&self.1, &self.2)).encode(sink)
    }
}

/// Appends the count and the items; refused, the sink is as it was and what was appended.
fn put_all<T: Encode>(items: &[T], sink: &mut Vec<u8>) -> Result<(), EncodeError>
    ensures { Puts (counted T.spelling items.now) ((length items.now < 2 ^ 32) × All T.fits items.now) sink.old.items sink.new.items result }
{
    items.len().encode(sink)?;
    for item in items {
        item.encode(sink)?;
    }
    Ok(())
}

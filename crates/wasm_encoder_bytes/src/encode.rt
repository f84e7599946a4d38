ghost use Rattle.std.specs.Prelude.{◌≡◌, ℕ, ◌<◌, ◌^◌, ◌++◌, [], ◌∷◌, List, length, All};
ghost use Rattle.wasm_encoder_bytes.specs.Leb.{uleb, sleb};
ghost use Rattle.wasm_encoder_bytes.specs.Encodes.{Encodes, Puts};
ghost use Rattle.wasm_encoder_bytes.specs.Bytes.{counted, sized};

use crate::adding::rolled_back;
use crate::error::EncodeError;
use crate::leb::{push_signed, push_unsigned};

/// A value that has a spelling in bytes.
///
/// An implementation gives three meanings, and every call is proved from them alone: the `spelling`;
/// `fits`, that every count and length in it, and the value where it is one, is at most 4294967295; and
/// `can_encode`, which a caller of [`encode`](Encode::encode) has to show. Every number and text meets
/// `can_encode`; references and slices ask it of what they hold, so the empty slice meets it.
pub trait Encode {
    ghost can_encode: { Self → Type 0 };

    ghost fits: { Self → Type 0 };

    ghost spelling: { Self → List ℕ };

    /// Appends the spelling to `sink`.
    ///
    /// Answers [`EncodeError::TooLarge`] exactly where, memory found, a count or length does not fit, and
    /// [`EncodeError::Memory`] where a growth found no memory. Refused, the bytes of `sink` are unchanged.
    /// All this is the record `Encodes` of `specs/`, which each call that appends in this way promises.
    fn encode(&self, sink: &mut Vec<u8>) -> Result<(), EncodeError>
        requires { can_encode self.now }
        ensures { Encodes (spelling self.now) (fits self.now) sink.old.items sink.new.items result };
}

/// The byte itself (5.2.1).
impl Encode for u8 {
    ghost can_encode = { λ _. Unit {0} };

    ghost fits = { λ _. Unit {0} };

    ghost spelling = { λ n. n ∷ [] };

    fn encode(&self, sink: &mut Vec<u8>) -> Result<(), EncodeError> {
        sink.push(*self)?;
        Ok(())
    }
}

/// The shortest unsigned LEB128 (5.2.2).
impl Encode for u32 {
    ghost can_encode = { λ _. Unit {0} };

    ghost fits = { λ _. Unit {0} };

    ghost spelling = { uleb };

    fn encode(&self, sink: &mut Vec<u8>) -> Result<(), EncodeError> {
        push_unsigned(sink, u64::from(*self))?;
        Ok(())
    }
}

/// The shortest unsigned LEB128 (5.2.2).
impl Encode for u64 {
    ghost can_encode = { λ _. Unit {0} };

    ghost fits = { λ _. Unit {0} };

    ghost spelling = { uleb };

    fn encode(&self, sink: &mut Vec<u8>) -> Result<(), EncodeError> {
        push_unsigned(sink, *self)?;
        Ok(())
    }
}

/// A count or length: the shortest unsigned LEB128, too large past 4294967295.
impl Encode for usize {
    ghost can_encode = { λ _. Unit {0} };

    ghost fits = { λ n. n < 2 ^ 32 };

    ghost spelling = { uleb };

    fn encode(&self, sink: &mut Vec<u8>) -> Result<(), EncodeError> {
        if *self > 4294967295 {
            return Err(EncodeError::TooLarge);
        }
        push_unsigned(sink, *self as u64)?;
        Ok(())
    }
}

/// The shortest signed LEB128 (5.2.2).
impl Encode for i32 {
    ghost can_encode = { λ _. Unit {0} };

    ghost fits = { λ _. Unit {0} };

    ghost spelling = { sleb };

    fn encode(&self, sink: &mut Vec<u8>) -> Result<(), EncodeError> {
        push_signed(sink, i64::from(*self))?;
        Ok(())
    }
}

/// The shortest signed LEB128 (5.2.2).
impl Encode for i64 {
    ghost can_encode = { λ _. Unit {0} };

    ghost fits = { λ _. Unit {0} };

    ghost spelling = { sleb };

    fn encode(&self, sink: &mut Vec<u8>) -> Result<(), EncodeError> {
        push_signed(sink, *self)?;
        Ok(())
    }
}

/// A name: the byte count, then the bytes (5.2.4).
impl Encode for &str {
    ghost can_encode = { λ _. Unit {0} };

    ghost fits = { λ text. length text.now < 2 ^ 32 };

    ghost spelling = { λ text. sized text.now };

    fn encode(&self, sink: &mut Vec<u8>) -> Result<(), EncodeError> {
        encode_sized(self.as_bytes(), sink)
    }
}

/// What the reference points to.
impl<T: Encode> Encode for &T {
    ghost can_encode = { λ value. T.can_encode value.now };

    ghost fits = { λ value. T.fits value.now };

    ghost spelling = { λ value. T.spelling value.now };

    fn encode(&self, sink: &mut Vec<u8>) -> Result<(), EncodeError> {
        (**self).encode(sink)
    }
}

/// A list: the count, then the items (5.1.3).
impl<T: Encode> Encode for &[T] {
    ghost can_encode = { λ items. All T.can_encode items.now };

    ghost fits = { λ items. (length items.now < 2 ^ 32) × All T.fits items.now };

    ghost spelling = { λ items. counted T.spelling items.now };

    fn encode(&self, sink: &mut Vec<u8>) -> Result<(), EncodeError> {
        let start = sink.len();
        let answer = put_all(*self, sink);
        rolled_back(sink, start, answer)
    }
}

/// Appends the count and the items; refused, the sink is as it was and what was appended.
fn put_all<T: Encode>(items: &[T], sink: &mut Vec<u8>) -> Result<(), EncodeError>
    requires { All T.can_encode items.now }
    ensures { Puts (counted T.spelling items.now) ((length items.now < 2 ^ 32) × All T.fits items.now) sink.old.items sink.new.items result }
{
    items.len().encode(sink)?;
    for item in items {
        item.encode(sink)?;
    }
    Ok(())
}

/// Appends two spellings, one after the other. Refused as [`Encode::encode`] is; the bytes of `sink` are unchanged then.
pub fn encode_both<T: Encode, U: Encode>(
    first: &T,
    second: &U,
    sink: &mut Vec<u8>,
) -> Result<(), EncodeError>
    requires first { T.can_encode first.now }
    requires second { U.can_encode second.now }
    ensures { Encodes (T.spelling first.now ++ U.spelling second.now) (T.fits first.now × U.fits second.now) sink.old.items sink.new.items result }
{
    let start = sink.len();
    first.encode(sink)?;
    let answer = second.encode(sink);
    rolled_back(sink, start, answer)
}

/// Appends the byte count and the bytes as they are: a name (5.2.4), or a part that has its size before it. Refused as
/// [`Encode::encode`] is; the bytes of `sink` are unchanged then.
pub fn encode_sized(bytes: &[u8], sink: &mut Vec<u8>) -> Result<(), EncodeError>
    ensures { Encodes (sized bytes.now) (length bytes.now < 2 ^ 32) sink.old.items sink.new.items result }
{
    let start = sink.len();
    bytes.len().encode(sink)?;
    let answer = sink.extend_from_slice(bytes);
    rolled_back(sink, start, answer)?;
    Ok(())
}

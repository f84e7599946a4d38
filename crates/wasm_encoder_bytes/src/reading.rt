//! Numbers at the front of bytes.

ghost use Rattle.std.specs.Prelude.{◌≡◌, ℕ, ℤ, pos, negsuc, Bool, true, ◌+◌, ◌-◌, ◌*◌, ◌<◌, ◌≤◌, ◌^◌, ◌≤ℤ◌, ◌⊎◌, nat_le, length, IfSome, IfNone, cond};
ghost use Rattle.wasm_encoder_bytes.specs.Leb.{seven, leb, uleb, sleb};
ghost use Rattle.wasm_encoder_bytes.specs.Front.{StandsInFront};

use crate::leb::seven;

/// Value and length of the shortest unsigned LEB128 of a number of 32 bits that stands at the front of
/// `bytes`; `None` where there is none. Takes no memory.
#[tactic(auto, unfolding(crate::specs::Leb::uleb))]
pub fn read_u32(bytes: &[u8]) -> Option<(u32, usize)>
    ensures found { IfSome result (λ x. StandsInFront (uleb x.0) bytes.now) }
    ensures length { IfSome result (λ x. x.1 ≡ length (uleb x.0)) }
    ensures none { IfNone result ((n : ℕ) → n < 2 ^ 32 → StandsInFront (uleb n) bytes.now → ⊥) }
{
    let number = read_leb(bytes, 128, 4_294_967_295)?;
    Some((number.size as u32, number.len))
}

/// Value and length of the shortest signed LEB128 of a number of 33 bits that stands at the front of
/// `bytes`; `None` where there is none. Takes no memory.
#[tactic(auto, unfolding(crate::specs::Leb::sleb))]
pub fn read_s33(bytes: &[u8]) -> Option<(i64, usize)>
    ensures range { IfSome result (λ x. (negsuc 4294967295 ≤ℤ x.0) × (x.0 ≤ℤ pos 4294967295)) }
    ensures found { IfSome result (λ x. StandsInFront (sleb x.0) bytes.now) }
    ensures length { IfSome result (λ x. x.1 ≡ length (sleb x.0)) }
    ensures none { IfNone result ((z : ℤ) → negsuc 4294967295 ≤ℤ z → z ≤ℤ pos 4294967295 → StandsInFront (sleb z) bytes.now → ⊥) }
{
    let number = read_leb(bytes, 64, 4_294_967_295)?;
    Some((number.value(), number.len))
}

/// A number as it is spelled: its bits, turned over where `flip`, and how many bytes they take.
#[derive(Clone, Copy)]
struct Spelled {
    flip: bool,
    size: u64,
    len: usize,
}

impl Spelled {
    /// The signed number.
    fn value(self) -> i64
        requires { self.size < 2 ^ 32 }
        ensures { result ≡ cond self.flip (negsuc self.size) (pos self.size) }
    {
        if self.flip {
            -(self.size as i64) - 1
        } else {
            self.size as i64
        }
    }
}

/// The number up to `most` whose LEB128, where the last byte stands for less than `last`, is at the front.
/// It calls itself at most four times: `most` is divided by 128 each time.
fn read_leb(bytes: &[u8], last: u8, most: u64) -> Option<Spelled>
    requires last { (last ≡ 64) ⊎ (last ≡ 128) }
    requires most { most < 2 ^ 32 }
    ensures sign { IfSome result (λ x. x.flip ≡ true → last ≡ 64) }
    ensures range { IfSome result (λ x. x.size ≤ most) }
    ensures within { IfSome result (λ x. x.len ≤ length bytes.now) }
    ensures found { IfSome result (λ x. StandsInFront (leb x.flip last x.size) bytes.now) }
    ensures length { IfSome result (λ x. x.len ≡ length (leb x.flip last x.size)) }
    ensures none { IfNone result ((flip : Bool) (n : ℕ) → (flip ≡ true → last ≡ 64) → n ≤ most → StandsInFront (leb flip last n) bytes.now → ⊥) }
{
    match bytes {
        [] => None,
        [first, rest @ ..] => {
            let first = *first;
            if first < 128 {
                return last_byte(first, last, most);
            }
            if most < u64::from(last) {
                return None;
            }
            match read_leb(rest, last, most / 128) {
                None => None,
                Some(higher) => one_more(first, higher, last, most),
            }
        }
    }
}

/// The number up to `most` that one byte spells.
fn last_byte(byte: u8, last: u8, most: u64) -> Option<Spelled>
    requires seven_bits { byte < 128 }
    requires last { (last ≡ 64) ⊎ (last ≡ 128) }
    ensures some { IfSome result (λ x. (x.flip ≡ nat_le last byte) × (x.size ≡ seven x.flip byte) × (x.size ≤ most) × (x.len ≡ 1)) }
    ensures none { IfNone result (most < seven (nat_le last byte) byte) }
{
    let flip = byte >= last;
    let size = u64::from(seven(flip, byte));
    if size > most {
        return None;
    }
    Some(Spelled { flip, size, len: 1 })
}

/// The number up to `most` that a byte before the spelling of `higher` makes, where no shorter spelling does.
fn one_more(byte: u8, higher: Spelled, last: u8, most: u64) -> Option<Spelled>
    requires not_last { 128 ≤ byte }
    requires last { (last ≡ 64) ⊎ (last ≡ 128) }
    requires most { most < 2 ^ 32 }
    requires size { higher.size < 2 ^ 32 }
    requires len { higher.len + 1 < 2 ^ 64 }
    ensures some { IfSome result (λ x. (x.flip ≡ higher.flip) × (x.size ≡ seven higher.flip (byte - 128) + 128 * higher.size) × (x.size ≤ most) × (last ≤ x.size) × (x.len ≡ higher.len + 1)) }
    ensures none { IfNone result (last ≤ seven higher.flip (byte - 128) + 128 * higher.size → seven higher.flip (byte - 128) + 128 * higher.size ≤ most → ⊥) }
{
    let size = u64::from(seven(higher.flip, byte - 128)) + 128 * higher.size;
    if size < u64::from(last) || size > most {
        return None;
    }
    Some(Spelled {
        flip: higher.flip,
        size,
        len: higher.len + 1,
    })
}

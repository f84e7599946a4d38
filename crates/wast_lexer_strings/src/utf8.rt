//! Whether bytes are a text, told byte by byte and without a buffer.

ghost use Rattle.std.specs.Prelude.{◌≡◌, ◌↔◌, ◌≤◌, ◌<◌, ℕ, IsTrue, MatchOption};
ghost use Rattle.simdutf8.specs.Steps.{IsClosed, Step, least_after, most_after};
ghost use Rattle.wast_lexer_strings.specs.StringScan.{meant};
ghost use Rattle.wast_lexer_strings.specs.Feeds.{Leads, Fails};

use crate::piece::Piece;

/// The last three bytes of a text that is read byte by byte.
#[derive(Clone, Copy)]
pub(crate) struct Tail {
    pub(crate) x: u8,
    pub(crate) y: u8,
    pub(crate) z: u8,
}

pub(crate) fn follow_piece(tail: Tail, piece: Piece) -> Option<Tail>
    ensures { MatchOption result (Fails tail (meant piece)) (λ t. Leads tail (meant piece) t) }
{
    match piece {
        Piece::Byte(byte) => follow(tail, &[byte]),
        Piece::Char(c) => {
            let mut buffer = [0u8; 4];
            let text = c.encode_utf8(&mut buffer);
            follow(tail, text.as_bytes())
        }
    }
}

/// The last three bytes behind these.
fn follow(tail: Tail, bytes: &[u8]) -> Option<Tail>
    ensures { MatchOption result (Fails tail bytes.now) (λ t. Leads tail bytes.now t) }
{
    let mut last = tail;
    let mut at = 0;
    'bytes: while at < bytes.len() {
        let byte = bytes[at];
        if !may_follow(last, byte) {
            return None;
        }
        last = Tail {
            x: last.y,
            y: last.z,
            z: byte,
        };
        at += 1;
    }
    Some(last)
}

/// Whether no character is left open.
pub(crate) fn is_closed(tail: Tail) -> bool
    ensures { IsTrue result ↔ IsClosed tail.x tail.y tail.z }
{
    tail.x < 0xf0 && tail.y < 0xe0 && tail.z < 0xc0
}

/// Whether a byte may come next.
fn may_follow(tail: Tail, byte: u8) -> bool
    ensures { IsTrue result ↔ Step tail.x tail.y tail.z byte }
{
    if is_closed(tail) {
        return byte < 0x80 || 0xc0 <= byte;
    }
    if 0xf0 <= tail.x || 0xe0 <= tail.y {
        return is_continuation(tail.z) && is_continuation(byte);
    }
    0xc2 <= tail.z && tail.z <= 0xf4 && fits_after(tail.z, byte)
}

fn fits_after(lead: u8, byte: u8) -> bool
    ensures { IsTrue result ↔ ((least_after lead ≤ byte) × (byte ≤ most_after lead)) }
{
    let least = match lead {
        0xe0 => 0xa0,
        0xf0 => 0x90,
        _ => 0x80,
    };
    let most = match lead {
        0xed => 0x9f,
        0xf4 => 0x8f,
        _ => 0xbf,
    };
    least <= byte && byte <= most
}

fn is_continuation(byte: u8) -> bool
    ensures { IsTrue result ↔ ((128 ≤ byte) × (byte < 192)) }
{
    0x80 <= byte && byte < 0xc0
}

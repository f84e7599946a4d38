ghost use Rattle.std.specs.Prelude.{◌≡◌, ◌+◌, ◌<◌, ◌≤◌, ◌++◌, length, List, ℕ, OnOk, OnErr};
ghost use Rattle.wasm_encoder_bytes.specs.Leb.{seven, leb, uleb, sleb};

use crate::adding::rolled_back;
use std::alloc::AllocError;

/// How many bytes the shortest unsigned LEB128 of `n` has: 1 to 5 (WebAssembly 3.0, 5.2.2).
/// Takes no memory.
pub fn encoding_size(n: u32) -> usize
    ensures { result ≡ length (uleb n) }
{
    match n {
        0..=0x7f => 1,
        0x80..=0x3fff => 2,
        0x4000..=0x1f_ffff => 3,
        0x20_0000..=0xfff_ffff => 4,
        _ => 5,
    }
}

/// Appends the shortest unsigned LEB128 of `n`; refused, the sink's bytes are unchanged.
#[tactic(auto, unfolding(crate::specs::Leb::uleb))]
pub fn push_unsigned(sink: &mut Vec<u8>, n: u64) -> Result<(), AllocError>
    ensures ok { OnOk result (sink.new.items ≡ sink.old.items ++ uleb n) }
    ensures err { OnErr result (sink.new.items ≡ sink.old.items) }
{
    push_leb(sink, false, 128, n)
}

/// Appends the shortest signed LEB128 of `n`; refused, the sink's bytes are unchanged.
#[tactic(auto, unfolding(crate::specs::Leb::sleb))]
pub fn push_signed(sink: &mut Vec<u8>, n: i64) -> Result<(), AllocError>
    ensures ok { OnOk result (sink.new.items ≡ sink.old.items ++ sleb n) }
    ensures err { OnErr result (sink.new.items ≡ sink.old.items) }
{
    if n >= 0 {
        push_leb(sink, false, 64, n as u64)
    } else {
        push_leb(sink, true, 64, (-(n + 1)) as u64)
    }
}

/// Seven bits, turned over where `flip`.
pub fn seven(flip: bool, d: u8) -> u8
    requires { d < 128 }
    ensures value { result ≡ seven flip d }
    ensures low { result < 128 }
{
    if flip { 127 - d } else { d }
}

/// Appends `n`, seven bits at a time, the last byte of which stands for less than `limit`; refused, the
/// sink's bytes are unchanged.
#[inline(always)]
fn push_leb(sink: &mut Vec<u8>, flip: bool, limit: u64, n: u64) -> Result<(), AllocError>
    requires low { 0 < limit }
    requires high { limit ≤ 128 }
    ensures ok { OnOk result (sink.new.items ≡ sink.old.items ++ leb flip limit n) }
    ensures err { OnErr result (sink.new.items ≡ sink.old.items) }
{
    let start = sink.len();
    let answer = put_leb(sink, flip, limit, n);
    rolled_back(sink, start, answer)
}

/// The same; refused, the sink is as it was and what was appended.
fn put_leb(sink: &mut Vec<u8>, flip: bool, limit: u64, n: u64) -> Result<(), AllocError>
    requires low { 0 < limit }
    requires high { limit ≤ 128 }
    ensures ok { OnOk result (sink.new.items ≡ sink.old.items ++ leb flip limit n) }
    ensures grows { (more : List ℕ) × (sink.new.items ≡ sink.old.items ++ more) }
{
    let mut rest = n;
    while rest >= limit {
        sink.push(128 + seven(flip, (rest % 128) as u8))?;
        rest /= 128;
    }
    sink.push(seven(flip, rest as u8))?;
    Ok(())
}

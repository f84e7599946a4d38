//! Searches that loop over bytes.

ghost use Rattle.std.specs.Prelude.{◌≡◌, ◌≤◌, ℕ, length, drop};
ghost use Rattle.wast_lexer.specs.Kinds.{is_space, is_idchar};
ghost use Rattle.wast_lexer.specs.Scan.{skip, is_neither};

use crate::scan::is_space;
use crate::word::is_idchar;
use memchr::memchr2;

/// Where the run of spaces ends.
#[tactic(auto, using(crate::proofs::Searches::skips))]
pub(crate) fn space_end(text: &[u8], from: usize) -> usize
    requires { from ≤ length text.now }
    ensures forward { from ≤ result }
    ensures within { result ≤ length text.now }
    ensures rest { drop result text.now ≡ skip is_space (drop from text.now) }
{
    let mut end = from;
    while end < text.len() && is_space(text[end]) {
        end += 1;
    }
    end
}

/// Where the run of identifier characters ends.
#[tactic(auto, using(crate::proofs::Searches::skips))]
pub(crate) fn name_end(text: &[u8], from: usize) -> usize
    requires { from ≤ length text.now }
    ensures forward { from ≤ result }
    ensures within { result ≤ length text.now }
    ensures rest { drop result text.now ≡ skip is_idchar (drop from text.now) }
{
    let mut end = from;
    while end < text.len() && is_idchar(text[end]) {
        end += 1;
    }
    end
}

/// The first place from here on of one of two bytes, or the end.
pub(crate) fn find_either(text: &[u8], from: usize, a: u8, b: u8) -> usize
    requires { from ≤ length text.now }
    ensures forward { from ≤ result }
    ensures within { result ≤ length text.now }
    ensures rest { drop result text.now ≡ skip (is_neither a b) (drop from text.now) }
{
    match memchr2(a, b, &text[from..]) {
        Some(count) => from + count,
        None => text.len(),
    }
}

//! Where groups of parentheses end.

ghost use Rattle.std.specs.Prelude.{◌≡◌, ◌≤◌, length, drop};
ghost use Rattle.wast_lexer.specs.Entries.{parens_of};
ghost use Rattle.wast_lexer.specs.ParenEnds.{closing, index_of};

use crate::entry::Entry;
use crate::paren::{Paren, paren_of};

/// The index of the `)` that ends the group which is open at this index.
pub(crate) fn closing(entries: &[Entry], from: usize) -> Option<usize>
    requires { from ≤ length entries.now }
    ensures { result ≡ index_of from (closing 0 (drop from (parens_of entries.now))) }
{
    let mut depth = 0usize;
    let mut at = from;
    'tokens: while at < entries.len() {
        match paren_of(entries[at].kind) {
            Paren::Opens => depth += 1,
            Paren::Closes => {
                if depth == 0 {
                    return Some(at);
                }
                depth -= 1;
            }
            Paren::Other => {}
        }
        at += 1;
    }
    None
}

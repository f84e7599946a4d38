//! Which word a text is.
ghost use Rattle.std.specs.Prelude.{◌≡◌, ◌≤◌, length, slice_get, take};
ghost use Rattle.wast_grammar.specs.Spelling.{same_text};
ghost use Rattle.wast_mnemonics.specs.Rows.{row_number, has_text, word_in};
ghost use Rattle.wast_mnemonics.specs.TextTable.{TextEntry, text_table};
ghost use Rattle.wast_mnemonics.specs.Words.{entry_of};

use crate::slots::row_number;
use crate::table::{LONGEST, Row, WORDS};
use crate::word::Word;
use wast_parser::WordSet;

/// The instructions of the text format, by mnemonic (6.5).
impl WordSet for Word {
    ghost Entry = { TextEntry };

    ghost entry = { entry_of };

    ghost word = { λ t. t.mnemonic };

    ghost entries = { text_table };

    #[inline(always)]
    fn of(text: &[u8]) -> Option<Self> {
        find_row(rows(), text)
    }
}

fn rows() -> &'static [Row]
    ensures { result.now ≡ WORDS }
{
    &WORDS
}

#[inline(always)]
fn find_row(rows: &[Row], text: &[u8]) -> Option<Word>
    ensures { result ≡ word_in text.now (slice_get rows.now (row_number text.now)) }
{
    match rows.get(row_number(text)) {
        Some(row) if has_text(row, text) => Some(row.2),
        _ => None,
    }
}

#[inline(always)]
fn has_text(row: &Row, text: &[u8]) -> bool
    ensures { result ≡ has_text text.now row.now }
{
    row.1 as usize == text.len() && text.len() <= LONGEST && begins(&row.0, text)
}

/// Whether bytes begin with these. One by one, as those of a mnemonic are few.
#[inline(always)]
fn begins(bytes: &[u8], text: &[u8]) -> bool
    requires { length text.now ≤ length bytes.now }
    ensures { result ≡ same_text (take (length text.now) bytes.now) text.now }
{
    let mut i = 0;
    'bytes: while i < text.len() {
        if bytes[i] != text[i] {
            return false;
        }
        i += 1;
    }
    true
}

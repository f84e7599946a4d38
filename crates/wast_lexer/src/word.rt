//! Words: identifier characters and strings with nothing between them.

ghost use Rattle.std.specs.Prelude.{◌≡◌, ◌≤◌, ◌<◌, ◌&&◌, ◌||◌, ℕ, IsTrue, None, true, false, length, drop, slice_index};
ghost use Rattle.std.specs.List.{list_all};
ghost use Rattle.wast_lexer_strings.specs.Strings.{is_quote};
ghost use Rattle.wast_lexer.specs.Kinds.{starts, is_idchar, is_lower, is_name};
ghost use Rattle.wast_lexer.specs.Tiling.{goes_on};
ghost use Rattle.wast_lexer.specs.Scan.{FindsToken, FindsRest, next, after_word, kind_of, plain_kind, other_kind, skip, is_annotated, is_id, is_string, is_text_string};

use crate::comment::may_stand;
use crate::skip::name_end;
use crate::token::TokenKind;
use wast_lexer_numbers::{NumberKind, number};
use wast_lexer_strings::{LexError, is_text, string_end};

/// A word: identifier characters and strings with nothing between them.
pub(crate) fn scan_word(
    text: &[u8],
    at: usize,
    allow: bool,
    opened: bool,
) -> Result<(TokenKind, usize), LexError>
    requires inside { at < length text.now }
    requires begins { goes_on (slice_index text.now at) ≡ true }
    ensures { FindsToken result text.now at (next allow opened (drop at text.now)) }
{
    if text[at] == b'"' {
        return scan_string(text, at, allow, opened);
    }
    let name = name_end(text, at);
    if at < name && !is_quote_at(text, name) {
        return scan_name(text, at, name, allow, opened);
    }
    scan_parts(text, at, allow, opened)
}

/// A word that begins with a string.
fn scan_string(
    text: &[u8],
    at: usize,
    allow: bool,
    opened: bool,
) -> Result<(TokenKind, usize), LexError>
    requires inside { at < length text.now }
    requires quote { slice_index text.now at ≡ 34 }
    ensures { FindsToken result text.now at (next allow opened (drop at text.now)) }
{
    let end = match string_end(text, at + 1) {
        Ok(end) => end,
        Err(error) => return Err(error),
    };
    if goes_on_at(text, end) {
        return scan_parts(text, at, allow, opened);
    }
    if !may_stand(&text[at..end], allow) {
        return Err(LexError::ConfusingUnicode);
    }
    Ok((TokenKind::String, end))
}

/// A word of several parts.
fn scan_parts(
    text: &[u8],
    at: usize,
    allow: bool,
    opened: bool,
) -> Result<(TokenKind, usize), LexError>
    requires inside { at < length text.now }
    requires begins { goes_on (slice_index text.now at) ≡ true }
    ensures { FindsToken result text.now at (next allow opened (drop at text.now)) }
{
    let end = match word_end(text, at) {
        Ok(end) => end,
        Err(error) => return Err(error),
    };
    let word = &text[at..end];
    if !may_stand(word, allow) {
        return Err(LexError::ConfusingUnicode);
    }
    match kind_of(word, opened) {
        None => Err(LexError::EmptyAnnotation),
        Some(kind) => Ok((kind, end)),
    }
}

/// A word of identifier characters alone, which ends at a place.
fn scan_name(
    text: &[u8],
    at: usize,
    end: usize,
    allow: bool,
    opened: bool,
) -> Result<(TokenKind, usize), LexError>
    requires nonempty { at < end }
    requires within { end ≤ length text.now }
    requires begins { goes_on (slice_index text.now at) ≡ true }
    requires rest { drop end text.now ≡ skip is_idchar (drop at text.now) }
    requires behind { starts is_quote (drop end text.now) ≡ false }
    ensures { FindsToken result text.now at (next allow opened (drop at text.now)) }
{
    match name_kind(&text[at..end], opened) {
        None => Err(LexError::EmptyAnnotation),
        Some(kind) => Ok((kind, end)),
    }
}

/// The kind of a word of identifier characters alone.
fn name_kind(word: &[u8], opened: bool) -> Option<TokenKind>
    requires all { list_all is_idchar word.now ≡ true }
    requires nonempty { 0 < length word.now }
    ensures { result ≡ kind_of opened word.now }
{
    let first = word[0];
    if opened && first == b'@' {
        return (1 < word.len()).then_some(TokenKind::Annotation);
    }
    if first == b'$' {
        return Some(if 1 < word.len() {
            TokenKind::Id
        } else {
            TokenKind::Reserved
        });
    }
    match number(word) {
        Some(NumberKind::Integer(kind)) => Some(TokenKind::Integer(kind)),
        Some(NumberKind::Float(kind)) => Some(TokenKind::Float(kind)),
        None => Some(if first.is_ascii_lowercase() {
            TokenKind::Keyword
        } else {
            TokenKind::Reserved
        }),
    }
}

/// Where the word ends.
fn word_end(text: &[u8], from: usize) -> Result<usize, LexError>
    requires { from ≤ length text.now }
    ensures { FindsRest result text.now from (after_word None (drop from text.now)) }
{
    let mut at = from;
    'parts: loop {
        at = name_end(text, at);
        if !is_quote_at(text, at) {
            return Ok(at);
        }
        match string_end(text, at + 1) {
            Ok(end) => at = end,
            Err(error) => return Err(error),
        }
    }
}

/// The kind of a word.
fn kind_of(word: &[u8], opened: bool) -> Option<TokenKind>
    ensures { result ≡ kind_of opened word.now }
{
    if opened && !word.is_empty() && word[0] == b'@' {
        return is_annotated(word).then_some(TokenKind::Annotation);
    }
    Some(plain_kind(word))
}

/// The kind of a word that is no annotation.
fn plain_kind(word: &[u8]) -> TokenKind
    ensures { result ≡ plain_kind word.now }
{
    if is_id(word) {
        return TokenKind::Id;
    }
    match number(word) {
        Some(NumberKind::Integer(kind)) => TokenKind::Integer(kind),
        Some(NumberKind::Float(kind)) => TokenKind::Float(kind),
        None => other_kind(word),
    }
}

/// The kind of a word that is no annotation, no identifier and no number.
fn other_kind(word: &[u8]) -> TokenKind
    ensures { result ≡ other_kind word.now }
{
    if is_keyword(word) {
        TokenKind::Keyword
    } else if is_string(word) {
        TokenKind::String
    } else {
        TokenKind::Reserved
    }
}

fn is_annotated(word: &[u8]) -> bool
    ensures { result ≡ is_annotated word.now }
{
    match word {
        [b'@', name @ ..] => is_name(name) || is_text_string(name),
        _ => false,
    }
}

fn is_id(word: &[u8]) -> bool
    ensures { result ≡ is_id word.now }
{
    match word {
        [b'$', name @ ..] => is_name(name) || is_string(name),
        _ => false,
    }
}

fn is_keyword(word: &[u8]) -> bool
    ensures { result ≡ starts is_lower word.now && is_name word.now }
{
    match word {
        [b'a'..=b'z', ..] => is_name(word),
        _ => false,
    }
}

fn is_name(word: &[u8]) -> bool
    ensures { result ≡ is_name word.now }
{
    !word.is_empty() && name_end(word, 0) == word.len()
}

fn is_string(word: &[u8]) -> bool
    ensures { result ≡ is_string word.now }
{
    if word.is_empty() || word[0] != b'"' {
        return false;
    }
    match string_end(word, 1) {
        Ok(end) => end == word.len(),
        Err(_) => false,
    }
}

/// Whether a word is a string that stands for a text which is not empty.
fn is_text_string(word: &[u8]) -> bool
    ensures { result ≡ is_text_string word.now }
{
    !word.is_empty() && word[0] == b'"' && is_text(word, 1)
}

pub(crate) fn is_quote_at(text: &[u8], at: usize) -> bool
    requires { at ≤ length text.now }
    ensures value { result ≡ starts is_quote (drop at text.now) }
    ensures within { IsTrue result → at < length text.now }
{
    at < text.len() && text[at] == b'"'
}

fn goes_on_at(text: &[u8], at: usize) -> bool
    requires { at ≤ length text.now }
    ensures { result ≡ starts goes_on (drop at text.now) }
{
    at < text.len() && goes_on(text[at])
}

pub(crate) fn goes_on(byte: u8) -> bool
    ensures { result ≡ goes_on byte }
{
    is_idchar(byte) || byte == b'"'
}

pub(crate) fn is_idchar(byte: u8) -> bool
    ensures { result ≡ is_idchar byte }
{
    IDCHARS[byte as usize]
}

const IDCHARS: [bool; 256] = [
    false, false, false, false, false, false, false, false, false, false, false, false, false,
    false, false, false, false, false, false, false, false, false, false, false, false, false,
    false, false, false, false, false, false, false, true, false, true, true, true, true, true,
    false, false, true, true, false, true, true, true, true, true, true, true, true, true, true,
    true, true, true, true, false, true, true, true, true, true, true, true, true, true, true,
    true, true, true, true, true, true, true, true, true, true, true, true, true, true, true, true,
    true, true, true, true, true, false, true, false, true, true, true, true, true, true, true,
    true, true, true, true, true, true, true, true, true, true, true, true, true, true, true, true,
    true, true, true, true, true, true, false, true, false, true, false, false, false, false,
    false, false, false, false, false, false, false, false, false, false, false, false, false,
    false, false, false, false, false, false, false, false, false, false, false, false, false,
    false, false, false, false, false, false, false, false, false, false, false, false, false,
    false, false, false, false, false, false, false, false, false, false, false, false, false,
    false, false, false, false, false, false, false, false, false, false, false, false, false,
    false, false, false, false, false, false, false, false, false, false, false, false, false,
    false, false, false, false, false, false, false, false, false, false, false, false, false,
    false, false, false, false, false, false, false, false, false, false, false, false, false,
    false, false, false, false, false, false, false, false, false, false, false, false, false,
    false, false, false, false, false, false, false, false,
];

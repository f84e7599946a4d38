//! Whole strings.

ghost use Rattle.std.specs.Prelude.{◌≡◌, ◌≤◌, ◌&&◌, ◌↔◌, ◌++◌, ℕ, List, length, drop, IfOk, OnOk, IsTrue};
ghost use Rattle.wast_lexer_strings.specs.Strings.{IsString};
ghost use Rattle.wast_lexer_strings.specs.StringScan.{FindsRest, read, is_text, is_empty, meant};
ghost use Rattle.wast_lexer_strings.specs.StringScan.State.{Within};

use crate::error::LexError;
use crate::piece::{Piece, behind_piece, plain_end, read_piece};
use crate::utf8::{Tail, follow_piece, is_closed};
use std::alloc::{AllocError, Global};

/// Where a string ends whose quote stands before the place (6.3.3): the byte offset behind the quote that closes it.
///
/// Refused for the first of its elements that is none, and as [`LexError::UnexpectedEof`] where the text ends before it does.
/// Which error it is, no contract says: only rows show it.
#[inline(always)]
pub fn string_end(text: &[u8], from: usize) -> Result<usize, LexError>
    requires { from ≤ length text.now }
    ensures { FindsRest result text.now from (read Within (drop from text.now)) }
{
    let mut at = plain_end(text, from);
    'elements: while at < text.len() {
        if text[at] == b'"' {
            return Ok(at + 1);
        }
        match read_piece(text, at) {
            Ok((_, end)) => at = plain_end(text, end),
            Err(error) => return Err(error),
        }
    }
    Err(LexError::UnexpectedEof)
}

/// Whether what begins at the place, a byte offset behind a quote, is the rest of a string (6.3.3) that ends where the text
/// does, and stands for UTF-8 that is not empty. It wants no memory.
pub fn is_text(text: &[u8], from: usize) -> bool
    requires { from ≤ length text.now }
    ensures { result ≡ is_text (read Within (drop from text.now)) }
{
    let mut tail = Tail { x: 0, y: 0, z: 0 };
    let mut some = false;
    let mut at = from;
    'elements: while at < text.len() {
        if text[at] == b'"' {
            return are_all(is_closed(tail), some, is_end(text, at + 1));
        }
        match read_piece(text, at) {
            Err(_) => return false,
            Ok((piece, end)) => match follow_piece(tail, piece) {
                None => return false,
                Some(next) => {
                    tail = next;
                    some = true;
                    at = end;
                }
            },
        }
    }
    false
}

/// The bytes that a string stands for (6.3.3), its quotes included in the word. Refused for want of memory alone.
pub fn string_value(alloc: Global, word: &[u8]) -> Result<Vec<u8>, AllocError>
    requires { (bytes : List ℕ) × IsString word.now bytes }
    ensures { IfOk result (λ v. IsString word.now v.items) }
{
    let mut out = Vec::with_capacity(alloc, word.len())?;
    let mut at = 1;
    'elements: while at < word.len() && word[at] != b'"' {
        let plain = plain_end(word, at);
        if at < plain {
            out.extend_from_slice(&word[at..plain])?;
            at = plain;
        } else {
            match read_piece(word, at) {
                Err(_) => return Ok(out),
                Ok((piece, end)) => {
                    push_piece(&mut out, piece)?;
                    at = end;
                }
            }
        }
    }
    out.shrink_to_fit();
    Ok(out)
}

/// Appends the bytes that a part of a string stands for.
fn push_piece(out: &mut Vec<u8>, piece: Piece) -> Result<(), AllocError>
    ensures { OnOk result (out.new.items ≡ out.old.items ++ meant piece) }
{
    match piece {
        Piece::Byte(byte) => out.push(byte)?,
        Piece::Char(c) => {
            let mut buffer = [0u8; 4];
            out.extend_from_slice(c.encode_utf8(&mut buffer).as_bytes())?;
        }
    }
    Ok(())
}

/// Whether a word is a string that stands for these bytes. It wants no memory.
pub fn stands_for(word: &[u8], bytes: &[u8]) -> bool
    ensures { IsTrue result ↔ IsString word.now bytes.now }
{
    if word.len() == 0 || word[0] != b'"' {
        return false;
    }
    let mut left = bytes;
    let mut at = 1;
    'elements: while at < word.len() {
        if word[at] == b'"' {
            return at + 1 == word.len() && left.len() == 0;
        }
        match read_piece(word, at) {
            Err(_) => return false,
            Ok((piece, end)) => match behind_piece(piece, left) {
                None => return false,
                Some(rest) => {
                    left = rest;
                    at = end;
                }
            },
        }
    }
    false
}

fn is_end(text: &[u8], at: usize) -> bool
    requires { at ≤ length text.now }
    ensures { result ≡ is_empty (drop at text.now) }
{
    if at < text.len() {
        return false;
    }
    true
}

fn are_all(a: bool, b: bool, c: bool) -> bool
    ensures { result ≡ (a && b && c) }
{
    a && b && c
}

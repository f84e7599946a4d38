//! The lines of a text that show a place of it.

ghost use Rattle.std.specs.Prelude.{◌≡◌, ◌++◌, take, drop, replicate, encode_utf8_all, string_bytes, IfOk, OnErr, OnOk};
ghost use Rattle.std.specs.Str.{IsCharBoundary, IsUtf8};
ghost use Rattle.wast_lexer.specs.Span.{column_of};
ghost use Rattle.wast_parser_base.specs.Snippet.{caret, excerpt, in_four_places, is_left_out, line_at, location, place_lines, shown, snippet, until_line_feed, without_return};

use memchr::memchr;
use std::alloc::{AllocError, Global};
use unicode_width::UnicodeWidthStr;
use wast_lexer::Span;

/// Appends the lines that show a place of a text: its line and column, both from 1, that line, and a caret below the
/// place. Nothing is appended where no character begins at the offset and the text does not end there.
///
/// Fails only where no memory is found; the text stays then.
pub fn push_place(
    alloc: Global,
    text: &mut String,
    source: &str,
    offset: usize,
) -> Result<(), AllocError>
    ensures lines { OnOk result (string_bytes text.new ≡ string_bytes text.old ++ place_lines source.now offset) }
    ensures refused { OnErr result (string_bytes text.new ≡ string_bytes text.old) }
{
    let lines = lines_at(alloc, source, offset)?;
    text.push_str(lines.as_str())
}

/// The lines that show a place of a text, none where no place is. Fails only where no memory is found.
pub(crate) fn lines_at(alloc: Global, source: &str, offset: usize) -> Result<String, AllocError>
    ensures { IfOk result (λ lines. string_bytes lines ≡ place_lines source.now offset) }
{
    if source.is_char_boundary(offset) {
        let mut lines = String::new(alloc);
        push_excerpt(alloc, &mut lines, source, offset)?;
        Ok(lines)
    } else {
        Ok(String::new(alloc))
    }
}

/// Where the place is, its line, and a caret below the place.
fn push_excerpt(
    alloc: Global,
    text: &mut String,
    source: &str,
    offset: usize,
) -> Result<(), AllocError>
    requires { IsCharBoundary source.now offset }
    ensures { OnOk result (string_bytes text.new ≡ string_bytes text.old ++ excerpt source.now offset) }
{
    let (line, column) = Span::from_offset(offset).linecol_in(source);
    let (before, after) = line_around(source, offset, column);
    push_location(alloc, text, line + 1, column + 1)?;
    text.push_str("\n      |\n ")?;
    push_number(alloc, text, line + 1)?;
    text.push_str(" | ")?;
    push_snippet(text, before)?;
    push_snippet(text, after)?;
    text.push_str("\n      | ")?;
    push_caret(alloc, text, before)
}

#[tactic(auto, unfolding(crate::specs::Snippet::location))]
fn push_location(
    alloc: Global,
    text: &mut String,
    line: usize,
    column: usize,
) -> Result<(), AllocError>
    ensures { OnOk result (string_bytes text.new ≡ string_bytes text.old ++ location line column) }
{
    let place = format!(in alloc; "\n     --> <anon>:{line}:{column}")?;
    text.push_str(place.as_str())
}

/// The number, right-aligned in four places.
#[tactic(auto, unfolding(crate::specs::Snippet::in_four_places))]
fn push_number(alloc: Global, text: &mut String, number: usize) -> Result<(), AllocError>
    ensures { OnOk result (string_bytes text.new ≡ string_bytes text.old ++ in_four_places number) }
{
    let digits = format!(in alloc; "{number}")?;
    push_spaces(text, 4usize.saturating_sub(digits.len()))?;
    text.push_str(digits.as_str())
}

/// A caret behind what shows this part of a line.
#[tactic(auto, unfolding(crate::specs::Snippet::caret, crate::specs::Snippet::snippet))]
fn push_caret(alloc: Global, text: &mut String, before: &str) -> Result<(), AllocError>
    ensures { OnOk result (string_bytes text.new ≡ string_bytes text.old ++ caret before.now) }
{
    let mut shown = String::new(alloc);
    push_snippet(&mut shown, before)?;
    push_spaces(text, shown.as_str().width())?;
    text.push_str("^")
}

/// The line that holds the offset, up to there and from there on.
fn line_around(source: &str, offset: usize, column: usize) -> (&str, &str)
    requires boundary { IsCharBoundary source.now offset }
    requires column { column ≡ column_of source.now offset }
    ensures text { IsUtf8 result.0.now }
    ensures before { result.0.now ≡ take column (line_at source.now offset) }
    ensures after { result.1.now ≡ drop column (line_at source.now offset) }
{
    let (before, after) = source.split_at(offset);
    let front = &before[before.len() - column..];
    let back = until_line_feed(after);
    if back.is_empty() {
        (without_return(front), back)
    } else {
        (front, without_return(back))
    }
}

fn until_line_feed(text: &str) -> &str
    ensures { result.now ≡ until_line_feed text.now }
{
    match memchr(b'\n', text.as_bytes()) {
        Some(end) => &text[..end],
        None => text,
    }
}

fn without_return(line: &str) -> &str
    ensures { result.now ≡ without_return line.now }
{
    let bytes = line.as_bytes();
    if !bytes.is_empty() && bytes[bytes.len() - 1] == b'\r' {
        &line[..line.len() - 1]
    } else {
        line
    }
}

/// The characters of the line, as they are shown.
fn push_snippet(text: &mut String, line: &str) -> Result<(), AllocError>
    ensures { OnOk result (string_bytes text.new ≡ string_bytes text.old ++ snippet line.now) }
{
    for character in line.chars() {
        push_shown(text, character)?;
    }
    Ok(())
}

fn push_shown(text: &mut String, character: char) -> Result<(), AllocError>
    ensures { OnOk result (string_bytes text.new ≡ string_bytes text.old ++ encode_utf8_all (shown character)) }
{
    if character == '\t' {
        text.push_str("    ")
    } else if is_left_out(character) {
        Ok(())
    } else {
        text.push(character)
    }
}

fn is_left_out(character: char) -> bool
    ensures { result ≡ is_left_out character }
{
    matches!(
        character,
        '\u{202a}'..='\u{202b}'
            | '\u{202d}'..='\u{202e}'
            | '\u{2066}'..='\u{2069}'
            | '\u{206c}'
    )
}

fn push_spaces(text: &mut String, count: usize) -> Result<(), AllocError>
    ensures { OnOk result (string_bytes text.new ≡ string_bytes text.old ++ replicate count 32) }
{
    for _ in 0..count {
        text.push(' ')?;
    }
    Ok(())
}

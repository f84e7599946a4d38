//! Faults as texts for people.

ghost use Rattle.std.specs.Prelude.{◌≡◌, ◌++◌, string_bytes, IfOk, OnOk};
ghost use Rattle.wat.specs.Render.{first_line, lines_in, place_of, rendering};

use crate::fault::Fault;
use std::alloc::{AllocError, Global};
use wast_parser_base::push_place;

/// What is wrong, and, where the fault has a place in the input, its line and column, both from 1, the column in bytes, and that
/// line with a caret below the place. A fault whose place is that of no character of the input and not its end, as of another
/// input, has none, nor has any in an input that isn't UTF-8. Fails only where no memory is found.
pub fn render(alloc: Global, fault: &Fault, input: &[u8]) -> Result<String, AllocError>
    ensures { IfOk result (λ text. string_bytes text ≡ rendering fault.now input.now) }
{
    let mut text = first_line(alloc, fault)?;
    if let Some(offset) = place_of(fault) {
        push_lines(alloc, &mut text, input, offset)?;
    }
    Ok(text)
}

#[tactic(auto, unfolding(crate::specs::Render::first_line))]
fn first_line(alloc: Global, fault: &Fault) -> Result<String, AllocError>
    ensures { IfOk result (λ text. string_bytes text ≡ first_line fault.now) }
{
    match fault {
        Fault::Read => String::from_str(alloc, "cannot read the input"),
        Fault::TooLong => String::from_str(alloc, "input longer than 4294967295 bytes"),
        Fault::NotUtf8 { offset } => format!(in alloc; "input isn't UTF-8 at byte {offset}"),
        Fault::Spelling(error) => error.message(alloc),
        Fault::NotWellFormed(_) => String::from_str(alloc, "module isn't well formed"),
        Fault::Unmet(error) => error.message(alloc),
        Fault::Uncovered { span: _, form } => format!(in alloc; "uncovered form: {form}"),
        Fault::TooLarge => String::from_str(alloc, "a count or length is past 4294967295"),
        Fault::Memory => String::from_str(alloc, "out of memory"),
        Fault::Write { written } => {
            format!(in alloc; "cannot write the output after {written} bytes")
        }
    }
}

fn place_of(fault: &Fault) -> Option<usize>
    ensures { result ≡ place_of fault.now }
{
    match fault {
        Fault::Spelling(error) | Fault::Unmet(error) => Some(error.span().offset()),
        Fault::NotWellFormed(span) | Fault::Uncovered { span, form: _ } => Some(span.offset()),
        _ => None,
    }
}

/// The lines that show the place, where the input is a text.
fn push_lines(
    alloc: Global,
    text: &mut String,
    input: &[u8],
    offset: usize,
) -> Result<(), AllocError>
    ensures { OnOk result (string_bytes text.new ≡ string_bytes text.old ++ lines_in input.now (Some offset)) }
{
    match str::from_utf8(input) {
        Ok(source) => push_place(alloc, text, source, offset),
        Err(_) => Ok(()),
    }
}

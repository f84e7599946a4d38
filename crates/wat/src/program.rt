//! The program, over any reader, writer and error writer.

ghost use Rattle.std.specs.Prelude.{◌≡◌, ◌++◌, ◌∷◌, [], ℕ, List, Result, take};
ghost use Rattle.std.specs.Io.KnownBytes.{Appends};
ghost use Rattle.wat.specs.Program.{Exits, IsReport};
ghost use Rattle.wat.specs.Run.{Runs, reader_failures, writer_failures};
ghost use Rattle.wat.specs.declared.fault.Fault.{Fault};

use crate::fault::Fault;
use crate::renderer::render;
use crate::runner::run_into;
use std::alloc::Global;
use std::io::{Read, Write};
use wat_io::{Counted, write_front};

/// As `run`, for a program: answers 0 where the whole binary was written and flushed, else 1, with the fault's text, or `out of memory` where no
/// memory is found for the text, and a line feed written to the error writer, as far as that one takes them. Its failures are ignored.
pub fn run_program<R: Read, W: Write, E: Write>(
    alloc: Global,
    reader: &mut Counted<R>,
    writer: &mut Counted<W>,
    errors: &mut E,
) -> u8
    ensures { (input : List ℕ) × (answer : Result ℕ Fault)
        × Runs 4294967296 (R.remaining reader.old.inner) (R.remaining reader.new.inner)
        (W.contents writer.old.inner) (W.contents writer.new.inner) input answer
        × Exits input answer result (E.contents errors.old) (E.contents errors.new)
        × (reader.new.failures ≡ reader_failures reader.old.failures answer)
        × (writer.new.failures ≡ writer_failures writer.old.failures answer) }
{
    let mut input = Vec::new(alloc);
    match run_into(alloc, &mut input, reader, writer) {
        Ok(_) => 0,
        Err(fault) => {
            report(alloc, errors, &fault, input.as_slice());
            1
        }
    }
}

/// Writes the fault's text, or that no memory is found for it, and a line feed.
fn report<E: Write>(alloc: Global, errors: &mut E, fault: &Fault, input: &[u8])
    ensures { (report : List ℕ) × (front : ℕ) × IsReport fault.now input.now report
        × Appends (E.contents errors.old) (E.contents errors.new) (take front report) }
{
    match render(alloc, fault, input) {
        Ok(text) => write_line(errors, text.as_bytes()),
        Err(_) => write_line(errors, b"out of memory"),
    }
}

/// Writes the line and a line feed, as far as the writer takes them.
fn write_line<E: Write>(errors: &mut E, line: &[u8])
    ensures { (front : ℕ) × Appends (E.contents errors.old) (E.contents errors.new) (take front (line.now ++ 10 ∷ [])) }
{
    if write_front(errors, line) == line.len() {
        write_front(errors, b"\n");
        let _ = errors.flush();
    }
}

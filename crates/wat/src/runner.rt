//! From a reader to a writer.

ghost use Rattle.std.specs.Prelude.{◌≡◌, ℕ, List, []};
ghost use Rattle.wat.specs.Run.{Runs, reader_failures, writer_failures};

use crate::assembler::assemble;
use crate::fault::Fault;
use std::alloc::Global;
use std::io::{Read, Write};
use wat_io::{Counted, ReadFault, read_within, write_whole};

/// How many bytes are read at most: one more than an input may have.
const BOUND: usize = 4_294_967_296;

/// Reads bytes until none come, at most 4294967296, assembles the text that they are and writes the binary. The answer is
/// the number of bytes written. Nothing is written before the binary is whole, and the writer is flushed where all of it
/// went out.
///
/// A call that fails, or a write that takes nothing, is counted, and told as `Read` or `Write`; want of memory for what is
/// read is `Memory`, and else the fault is that of `assemble`.
pub fn run<R: Read, W: Write>(
    alloc: Global,
    reader: &mut Counted<R>,
    writer: &mut Counted<W>,
) -> Result<u64, Fault>
    ensures runs { (input : List ℕ) × Runs 4294967296 (R.remaining reader.old.inner) (R.remaining reader.new.inner)
        (W.contents writer.old.inner) (W.contents writer.new.inner) input result }
    ensures reader_failures { reader.new.failures ≡ reader_failures reader.old.failures result }
    ensures writer_failures { writer.new.failures ≡ writer_failures writer.old.failures result }
{
    let mut input = Vec::new(alloc);
    run_into(alloc, &mut input, reader, writer)
}

/// As `run`, with the bytes read put into `input`.
pub(crate) fn run_into<R: Read, W: Write>(
    alloc: Global,
    input: &mut Vec<u8>,
    reader: &mut Counted<R>,
    writer: &mut Counted<W>,
) -> Result<u64, Fault>
    requires { input.old.items ≡ [] }
    ensures runs { Runs 4294967296 (R.remaining reader.old.inner) (R.remaining reader.new.inner)
        (W.contents writer.old.inner) (W.contents writer.new.inner) input.new.items result }
    ensures reader_failures { reader.new.failures ≡ reader_failures reader.old.failures result }
    ensures writer_failures { writer.new.failures ≡ writer_failures writer.old.failures result }
{
    match read_within(alloc, input, reader, BOUND) {
        Ok(()) => {}
        Err(ReadFault::Read) => return Err(Fault::Read),
        Err(ReadFault::Memory) => return Err(Fault::Memory),
    }
    let binary = assemble(alloc, input.as_slice())?;
    match write_whole(writer, binary.as_slice()) {
        Ok(()) => Ok(binary.len() as u64),
        Err(written) => Err(Fault::Write {
            written: written as u64,
        }),
    }
}

//! From bytes to a writer.

ghost use Rattle.std.specs.Prelude.{◌≡◌, ◌≤◌, length, take, IfErr, OnOk};
ghost use Rattle.std.specs.Io.KnownBytes.{Appends};
ghost use Rattle.wat_io.specs.Counted.{after_call};

use crate::counted::Counted;
use std::io::Write;

/// Writes all the bytes, each `write` given all that is left, then flushes. On a failure, which is counted, the answer is
/// how many bytes went out.
pub fn write_whole<W: Write>(writer: &mut Counted<W>, bytes: &[u8]) -> Result<(), usize>
    ensures all { OnOk result (Appends (W.contents writer.old.inner) (W.contents writer.new.inner) bytes.now) }
    ensures front { IfErr result (λ written. (written ≤ length bytes.now)
        × Appends (W.contents writer.old.inner) (W.contents writer.new.inner) (take written bytes.now)) }
    ensures failures { writer.new.failures ≡ after_call writer.old.failures result }
{
    let written = write_front(&mut writer.inner, bytes);
    if written == bytes.len() && writer.inner.flush().is_ok() {
        Ok(())
    } else {
        writer.count_failure();
        Err(written)
    }
}

/// Writes as many of the bytes as the writer takes, each `write` given all that is left, and tells how many.
pub fn write_front<W: Write>(writer: &mut W, bytes: &[u8]) -> usize
    ensures within { result ≤ length bytes.now }
    ensures front { Appends (W.contents writer.old) (W.contents writer.new) (take result bytes.now) }
{
    let mut written = 0;
    while written < bytes.len() {
        match writer.write(&bytes[written..]) {
            Ok(0) | Err(_) => return written,
            Ok(count) => written += count,
        }
    }
    written
}

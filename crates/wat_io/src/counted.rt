//! Readers and writers that count their failed calls.

ghost use Rattle.std.specs.Prelude.{◌≡◌};
ghost use Rattle.std.specs.Io.{ReadsAtMost, WritesAtMost};
ghost use Rattle.std.specs.Io.KnownBytes.{Keeps, ReadConsumes, WriteAppends};
ghost use Rattle.wat_io.specs.Counted.{Tally, after_call, after_write, one_more};

use std::io;
use std::io::{Read, Write};
use std::marker::Model;

/// A reader or a writer that counts its failed calls, those that write 0 of some bytes too, up to `u64::MAX`.
#[derive(Drop)]
pub struct Counted<T> {
    pub(crate) inner: T,
    failures: u64,
}

impl<T> Model for Counted<T> {
    ghost Value = { Tally T };

    ghost view = { λ c. record { inner = c.inner; failures = c.failures } };
}

impl<T> Counted<T> {
    /// Around this reader or writer; no call has failed.
    pub fn new(inner: T) -> Self
        ensures inner { result.inner ≡ inner }
        ensures failures { result.failures ≡ 0 }
    {
        Counted { inner, failures: 0 }
    }

    /// How many calls have failed.
    pub fn failures(&self) -> u64
        ensures { result ≡ self.now.failures }
    {
        self.failures
    }

    /// One more call has failed.
    pub(crate) fn count_failure(&mut self)
        ensures inner { self.new.inner ≡ self.old.inner }
        ensures failures { self.new.failures ≡ one_more self.old.failures }
    {
        self.failures = self.failures.saturating_add(1);
    }
}

impl<R: Read> Counted<R> {
    /// One `read` of the reader inside. One that fails is counted.
    pub fn read(&mut self, buffer: &mut [u8]) -> io::Result<usize>
        ensures failures { self.new.failures ≡ after_call self.old.failures result }
        ensures bound { ReadsAtMost result buffer.new }
        ensures bytes { ReadConsumes (R.remaining self.old.inner) (R.remaining self.new.inner) result buffer.new }
    {
        let result = self.inner.read(buffer);
        if result.is_err() {
            self.count_failure();
        }
        result
    }
}

impl<W: Write> Counted<W> {
    /// One `write` of the writer inside. One that fails is counted, as is one that takes none of some bytes.
    pub fn write(&mut self, bytes: &[u8]) -> io::Result<usize>
        ensures failures { self.new.failures ≡ after_write self.old.failures result bytes.now }
        ensures bound { WritesAtMost result bytes.now }
        ensures bytes { WriteAppends (W.contents self.old.inner) (W.contents self.new.inner) result bytes.now }
    {
        let result = self.inner.write(bytes);
        let failed = match &result {
            Ok(taken) => *taken == 0 && !bytes.is_empty(),
            Err(_) => true,
        };
        if failed {
            self.count_failure();
        }
        result
    }

    /// One `flush` of the writer inside. One that fails is counted.
    pub fn flush(&mut self) -> io::Result<()>
        ensures failures { self.new.failures ≡ after_call self.old.failures result }
        ensures bytes { Keeps (W.contents self.old.inner) (W.contents self.new.inner) }
    {
        let result = self.inner.flush();
        if result.is_err() {
            self.count_failure();
        }
        result
    }
}

//! A writer that counts bytes, failures and flushes.

ghost use Rattle.std.specs.Prelude.{◌<◌, ◌^◌};

use itoa::Buffer;
use std::io;
use std::io::Write;
use thiserror::Error;

/// A failed write or flush: the writer returned an error, or wrote none of the bytes.
#[derive(Clone, Copy, Debug, PartialEq, Eq, Error)]
#[error("the writer failed")]
pub struct Device;

/// A writer that counts the bytes written to an inner writer, its failed calls and its flushes that succeeded. The
/// counts saturate at `u64::MAX`. It has no buffer of its own.
#[derive(Drop)]
pub struct Out<W> {
    inner: W,
    taken: u64,
    failures: u64,
    flushes: u64,
    pub ghost countable: { (taken < 2 ^ 64) × ((failures < 2 ^ 64) × (flushes < 2 ^ 64)) },
}

impl<W: Write> Out<W> {
    ghost use Rattle.std.specs.Prelude.{◌≡◌, decimal, []};
    ghost use Rattle.pam_text.specs.Out.{Writes, WritesAndFlushes};

    /// A writer over `inner`, with all counts at 0.
    pub fn new(inner: W) -> Self
        ensures inner { result.inner ≡ inner }
        ensures taken { result.taken ≡ 0 }
        ensures failures { result.failures ≡ 0 }
        ensures flushes { result.flushes ≡ 0 }
    {
        Out {
            inner,
            taken: 0,
            failures: 0,
            flushes: 0,
        }
    }

    /// Returns the inner writer.
    pub fn into_inner(self) -> W
        ensures { result ≡ self.inner }
    {
        self.inner
    }

    /// The number of bytes that the inner writer has written.
    pub fn taken(&self) -> u64
        ensures { result ≡ self.now.taken }
    {
        self.taken
    }

    /// The number of failed calls of the inner writer.
    pub fn failures(&self) -> u64
        ensures { result ≡ self.now.failures }
    {
        self.failures
    }

    /// The number of flushes of the inner writer that succeeded.
    pub fn flushes(&self) -> u64
        ensures { result ≡ self.now.flushes }
    {
        self.flushes
    }

    /// Writes all of `bytes`. Continues after a short write, and retries no failure, not even an interrupted write.
    pub fn put(&mut self, bytes: &[u8]) -> Result<(), Device>
        ensures { Writes W.contents self.old self.new result bytes.now }
    {
        let mut written = 0;
        while written < bytes.len() {
            match self.write(&bytes[written..]) {
                Ok(0) => return Err(Device),
                Ok(count) => written += count,
                Err(_) => return Err(Device),
            }
        }
        Ok(())
    }

    /// Writes `number` in decimal.
    pub fn put_number(&mut self, number: u64) -> Result<(), Device>
        ensures { Writes W.contents self.old self.new result (decimal number) }
    {
        let mut buffer = Buffer::new();
        self.put(buffer.format(number).as_bytes())
    }

    /// Flushes the inner writer, once.
    pub fn finish(&mut self) -> Result<(), Device>
        ensures { WritesAndFlushes W.contents self.old self.new result [] }
    {
        match self.flush() {
            Ok(()) => Ok(()),
            Err(_) => Err(Device),
        }
    }
}

/// Each call makes one call of the inner writer.
impl<W: Write> Write for Out<W> {
    ghost use Rattle.std.specs.Prelude.{◌≡◌, ◌+◌};
    ghost use Rattle.std.specs.Io.{WritesAtMost};
    ghost use Rattle.std.specs.Io.KnownBytes.{Keeps, WriteAppends};
    ghost use Rattle.pam_text.specs.Out.{saturated, bytes_taken, write_failures, flush_failures, flushes_done};

    ghost contents = { λ o. W.contents o.inner };

    fn write(&mut self, buf: &[u8]) -> io::Result<usize>
        ensures bound { WritesAtMost result buf.now }
        ensures bytes { WriteAppends (W.contents self.old.inner) (W.contents self.new.inner) result buf.now }
        ensures taken { self.new.taken ≡ saturated (self.old.taken + bytes_taken result) }
        ensures failures { self.new.failures ≡ saturated (self.old.failures + write_failures result buf.now) }
        ensures flushes { self.new.flushes ≡ self.old.flushes }
    {
        let answer = self.inner.write(buf);
        match &answer {
            Ok(count) => {
                self.taken = self.taken.saturating_add(*count as u64);
                if *count == 0 && !buf.is_empty() {
                    self.failures = self.failures.saturating_add(1);
                }
            }
            Err(_) => self.failures = self.failures.saturating_add(1),
        }
        answer
    }

    fn flush(&mut self) -> io::Result<()>
        ensures bytes { Keeps (W.contents self.old.inner) (W.contents self.new.inner) }
        ensures taken { self.new.taken ≡ self.old.taken }
        ensures failures { self.new.failures ≡ saturated (self.old.failures + flush_failures result) }
        ensures flushes { self.new.flushes ≡ saturated (self.old.flushes + flushes_done result) }
    {
        let answer = self.inner.flush();
        match &answer {
            Ok(()) => self.flushes = self.flushes.saturating_add(1),
            Err(_) => self.failures = self.failures.saturating_add(1),
        }
        answer
    }
}

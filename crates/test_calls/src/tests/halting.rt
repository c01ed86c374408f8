//! A writer that writes little, then fails or writes nothing, and may fail to flush; and one that fails once. Both count
//! their calls.

use std::alloc::Global;
use std::io;
use std::io::{Error, ErrorKind, Write};

/// What a writer does when it is full.
#[derive(Clone, Copy, Debug)]
pub(crate) enum End {
    TakesNothing,
    Answers(ErrorKind),
}

/// Writes at most `step` bytes per call, and `room` bytes in total.
#[derive(Drop)]
pub(crate) struct Halting {
    pub bytes: Vec<u8>,
    pub calls: u32,
    pub flushes: u32,
    /// The number of bytes that were written before the last flush.
    pub flushed: usize,
    pub step: usize,
    pub room: usize,
    pub end: End,
    pub can_flush: bool,
}

pub(crate) const NOTHING: End = End::TakesNothing;

pub(crate) const FULL: End = End::Answers(ErrorKind::StorageFull);

pub(crate) const INTERRUPTED: End = End::Answers(ErrorKind::Interrupted);

impl Halting {
    pub(crate) fn new(
        alloc: Global,
        step: usize,
        room: usize,
        end: End,
        can_flush: bool,
    ) -> Halting {
        Halting {
            bytes: Vec::new(alloc),
            calls: 0,
            flushes: 0,
            flushed: 0,
            step,
            room,
            end,
            can_flush,
        }
    }
}

impl Write for Halting {
    fn write(&mut self, buf: &[u8]) -> io::Result<usize> {
        self.calls = self.calls.saturating_add(1);
        let left = self.room.saturating_sub(self.bytes.len());
        if left == 0 {
            return match self.end {
                End::TakesNothing => Ok(0),
                End::Answers(kind) => Err(Error::from(kind)),
            };
        }
        let count = buf.len().min(self.step).min(left);
        self.bytes.extend_from_slice(&buf[..count])?;
        Ok(count)
    }

    fn flush(&mut self) -> io::Result<()> {
        self.flushes = self.flushes.saturating_add(1);
        self.flushed = self.bytes.len();
        if self.can_flush {
            Ok(())
        } else {
            Err(Error::from(ErrorKind::StorageFull))
        }
    }
}

/// Fails in one call, a write or a flush, and takes everything in all others.
#[derive(Drop)]
pub(crate) struct FailingOnce {
    pub bytes: Vec<u8>,
    /// Writes and flushes, counted from 0.
    pub calls: u32,
    pub failing: u32,
}

impl FailingOnce {
    pub(crate) fn new(alloc: Global, failing: u32) -> FailingOnce {
        FailingOnce {
            bytes: Vec::new(alloc),
            calls: 0,
            failing,
        }
    }

    fn call(&mut self) -> io::Result<()> {
        let is_failing = self.calls == self.failing;
        self.calls = self.calls.saturating_add(1);
        if is_failing {
            Err(Error::from(ErrorKind::StorageFull))
        } else {
            Ok(())
        }
    }
}

impl Write for FailingOnce {
    fn write(&mut self, buf: &[u8]) -> io::Result<usize> {
        self.call()?;
        self.bytes.extend_from_slice(buf)?;
        Ok(buf.len())
    }

    fn flush(&mut self) -> io::Result<()> {
        self.call()
    }
}

//! A byte buffer of fixed capacity.

ghost use Rattle.std.specs.Prelude.{◌≡◌, ◌+◌, ◌-◌, ◌^◌, ◌<◌, ◌≤◌, ◌++◌, ◌∷◌, [], if◌then◌else◌, drop, length, take, IfOk, IsTrue};

use std::alloc::{AllocError, Global};
use std::io;
use std::io::Write;
use std::marker::Model;

/// The number of bytes that are filled with zeros at once. A text rarely needs all of the capacity.
const FILLED_BYTES: usize = 4096;

/// A writer into memory that is allocated once. It never grows.
#[derive(Drop)]
pub(crate) struct Buffer {
    /// The text, and then bytes without meaning, which later texts overwrite.
    bytes: Vec<u8>,
    /// The length of the text.
    end: usize,
}

/// Seen as the text.
impl Model for Buffer {
    ghost use Rattle.std.specs.Prelude.{◌≤◌, ℕ, List, length, take};

    ghost Value = { List ℕ };

    ghost view = { λ b. take b.end b.bytes.items };

    ghost invariant = { λ b. b.end ≤ length b.bytes.items };
}

/// Whether there is room for `count` bytes after the first `end`. Fills the capacity with zeros as far as it is needed.
#[inline]
fn has_room(bytes: &mut Vec<u8>, end: usize, count: usize) -> bool
    requires { end ≤ length bytes.old.items }
    ensures text { take end bytes.new.items ≡ take end bytes.old.items }
    ensures within { end ≤ length bytes.new.items }
    ensures room { IsTrue result → end + count ≤ length bytes.new.items }
{
    bytes.len() - end >= count || fill(bytes, count)
}

/// Appends zeros, at least `count`, if the capacity has room for them. Returns whether it had.
#[cold]
#[inline(never)]
fn fill(bytes: &mut Vec<u8>, count: usize) -> bool
    ensures text { take (length bytes.old.items) bytes.new.items ≡ bytes.old.items }
    ensures room { IsTrue result → length bytes.old.items + count ≤ length bytes.new.items }
{
    let room = bytes.capacity().saturating_sub(bytes.len());
    if room < count {
        return false;
    }
    let added = count.max(FILLED_BYTES).min(room);
    bytes.resize(bytes.len() + added, 0).is_ok()
}

/// Writes `padded` over the bytes from `start` on.
#[inline]
fn put_at<const N: usize>(bytes: &mut [u8], start: usize, padded: &[u8; N])
    requires { start + N ≤ length bytes.old }
    ensures { bytes.new ≡ take start bytes.old ++ (padded.now ++ drop (start + N) bytes.old) }
{
    let (_, later) = bytes.split_at_mut(start);
    if let Some(place) = later.first_chunk_mut::<N>() {
        *place = *padded;
    }
}

impl Buffer {
    pub(crate) fn with_capacity(alloc: Global, capacity: usize) -> Result<Buffer, AllocError>
        ensures { IfOk result (λ b. b ≡ []) }
    {
        let bytes = Vec::with_capacity(alloc, capacity)?;
        Ok(Buffer { bytes, end: 0 })
    }

    /// A buffer without room, for which nothing is allocated.
    pub(crate) fn empty(alloc: Global) -> Buffer
        ensures { result ≡ [] }
    {
        Buffer {
            bytes: Vec::new(alloc),
            end: 0,
        }
    }

    pub(crate) fn allocator(&self) -> Global {
        *self.bytes.allocator()
    }

    pub(crate) fn as_slice(&self) -> &[u8]
        ensures { result.now ≡ self.now }
    {
        &self.bytes[..self.end]
    }

    pub(crate) fn len(&self) -> usize
        ensures { result ≡ length self.now }
    {
        self.end
    }

    /// Appends `bytes` if there is room for all of them. Returns whether there was.
    #[inline]
    pub(crate) fn append(&mut self, bytes: &[u8]) -> bool
        ensures { self.new ≡ (if result then self.old ++ bytes.now else self.old) }
    {
        if bytes.is_empty() {
            return true;
        }
        if !has_room(&mut self.bytes, self.end, bytes.len()) {
            return false;
        }
        let end = self.end + bytes.len();
        self.bytes[self.end..end].copy_from_slice(bytes);
        self.end = end;
        true
    }

    /// Appends a byte if there is room for it. Returns whether there was.
    #[inline]
    pub(crate) fn push(&mut self, byte: u8) -> bool
        ensures { self.new ≡ (if result then self.old ++ byte ∷ [] else self.old) }
    {
        self.append_front(&[byte], 1)
    }

    /// Appends the first `count` bytes of `padded` if there is room for all of it. Returns whether there was. All of it is
    /// copied, which takes no call and no loop.
    #[inline]
    pub(crate) fn append_front<const N: usize>(&mut self, padded: &[u8; N], count: usize) -> bool
        requires { count ≤ N }
        ensures { self.new ≡ (if result then self.old ++ take count padded.now else self.old) }
    {
        if !has_room(&mut self.bytes, self.end, N) {
            return false;
        }
        let end = self.end + count;
        put_at(&mut self.bytes, self.end, padded);
        self.end = end;
        true
    }

    /// Appends a part of the text of another buffer if there is room for it. Returns whether there was. A part of at most
    /// `N` bytes is copied with the bytes after it, `N` in all, which takes no call.
    #[inline]
    pub(crate) fn append_part<const N: usize>(
        &mut self,
        other: &Buffer,
        start: usize,
        end: usize,
    ) -> bool
        requires size { N < 2 ^ 63 }
        requires order { start ≤ end }
        requires within { end ≤ length other.now }
        ensures { self.new ≡ (if result then self.old ++ take (end - start) (drop start other.now) else self.old) }
    {
        let count = end - start;
        if count <= N {
            if let Some(padded) = other.bytes[start..].first_chunk::<N>() {
                return self.append_front(padded, count);
            }
        }
        self.append(&other.as_slice()[start..end])
    }

    /// Keeps the first `count` bytes.
    pub(crate) fn truncate(&mut self, count: usize)
        ensures { self.new ≡ take count self.old }
    {
        self.end = self.end.min(count);
    }
}

/// `write` writes as many bytes as there is room for, and allocates nothing.
impl Write for Buffer {
    ghost use Rattle.std.specs.Prelude.{Some};
    ghost use Rattle.std.specs.Io.{WritesAtMost};
    ghost use Rattle.std.specs.Io.KnownBytes.{Keeps, WriteAppends};

    ghost contents = { λ b. Some b };

    fn write(&mut self, buf: &[u8]) -> io::Result<usize>
        ensures bound { WritesAtMost result buf.now }
        ensures bytes { WriteAppends (Some self.old) (Some self.new) result buf.now }
    {
        let room = self.bytes.capacity().saturating_sub(self.end);
        let count = room.min(buf.len());
        if self.append(&buf[..count]) {
            return Ok(count);
        }
        Ok(0)
    }

    fn flush(&mut self) -> io::Result<()>
        ensures bytes { Keeps (Some self.old) (Some self.new) }
    {
        Ok(())
    }
}

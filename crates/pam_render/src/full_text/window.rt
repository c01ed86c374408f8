//! The part of a line that is shown: all of it, or what stands around a word.

ghost use Rattle.std.specs.Prelude.{◌≡◌, ◌≤◌, ◌-◌, drop, length, take};
ghost use Rattle.pam_render.specs.full_text.Cells.{cells, last_within};
ghost use Rattle.pam_render.specs.full_text.Excerpt.{caret_column, caret_count, first_line, is_whole, near_after, near_before, points};
ghost use Rattle.pam_render.specs.full_text.Excerpt.{room, room_after, room_before, width_before};

use crate::full_text::cells::{last_within, width};
use pam_findings::misspelled::line_len;

/// The columns that are shown of a line, and the points that stand for what is left out.
pub const MAX_COLUMNS: usize = 72;

/// The columns before the word in a line that has more than these.
pub const MAX_BEFORE: usize = 20;

/// The bytes that are looked at on each side of the start of a word: more than the columns can show, as a character has four at most.
pub const MAX_BYTES: usize = 292;

/// The bytes that are looked at: those before a word, and from it on those of its line.
#[derive(Clone, Copy)]
pub(super) struct Window<'x> {
    before: &'x [u8],
    after: &'x [u8],
    ghost few: { (length before.now ≤ 292) × (length after.now ≤ 292) },
}

/// The first bytes, all if there are no more than these.
pub(crate) fn first_bytes(count: usize, bytes: &[u8]) -> &[u8]
    ensures value { result.now ≡ take count bytes.now }
    ensures bound { length result.now ≤ count }
{
    if count < bytes.len() {
        bytes.split_at(count).0
    } else {
        bytes
    }
}

/// The bytes after the first ones, none if there are no more than these.
pub(crate) fn bytes_after(count: usize, bytes: &[u8]) -> &[u8]
    ensures { result.now ≡ drop count bytes.now }
{
    if count < bytes.len() {
        bytes.split_at(count).1
    } else {
        b""
    }
}

/// The last bytes that are looked at.
fn last_bytes(bytes: &[u8]) -> &[u8]
    ensures value { result.now ≡ drop (length bytes.now - 292) bytes.now }
    ensures bound { length result.now ≤ 292 }
{
    bytes.split_at(bytes.len().saturating_sub(MAX_BYTES)).1
}

/// The bytes before the first line feed.
fn first_line(bytes: &[u8]) -> &[u8]
    ensures value { result.now ≡ first_line bytes.now }
    ensures bound { length result.now ≤ length bytes.now }
{
    bytes.split_at(line_len(bytes)).0
}

/// What stands for bytes of which not all are shown in so many columns.
pub(super) fn points(columns: usize, bytes: &[u8]) -> &'static [u8]
    requires few { length bytes.now ≤ 292 }
    ensures value { result.now ≡ points columns bytes.now }
    ensures bound { length result.now ≤ 2 }
{
    if width(bytes) > columns { b".." } else { b"" }
}

impl<'x> Window<'x> {
    /// Of these bytes, which begin with a line, in which a word begins after some of them.
    pub(super) fn of(bytes: &'x [u8], start: usize) -> Window<'x>
        ensures before { result.before.now ≡ near_before bytes.now start }
        ensures after { result.after.now ≡ near_after bytes.now start }
    {
        let there = first_bytes(MAX_BYTES, bytes_after(start, bytes));
        Window {
            before: last_bytes(first_bytes(start, bytes)),
            after: first_line(there),
        }
    }

    /// Whether all of it is shown.
    fn is_whole(&self) -> bool
        ensures { result ≡ is_whole self.now.before.now self.now.after.now }
    {
        width(self.before) + width(self.after) <= MAX_COLUMNS
    }

    /// The columns for what stands before the word.
    pub(super) fn room_before(&self) -> usize
        ensures { result ≡ room_before self.now.before.now self.now.after.now }
    {
        if self.is_whole() {
            MAX_COLUMNS
        } else {
            MAX_BEFORE
        }
    }

    /// The columns for what is shown of both.
    fn room(&self) -> usize
        ensures { result ≡ room self.now.before.now self.now.after.now }
    {
        if self.is_whole() {
            MAX_COLUMNS
        } else {
            MAX_COLUMNS - 4
        }
    }

    /// What is shown of the bytes before the word.
    pub(super) fn shown_before(&self) -> &'x [u8]
        ensures value { cells 0 result.now ≡ last_within (room_before self.now.before.now self.now.after.now) (cells 0 self.now.before.now) }
        ensures few { length result.now ≤ 292 }
    {
        last_within(self.room_before(), self.before)
    }

    fn width_before(&self) -> usize
        ensures value { result ≡ width_before self.now.before.now self.now.after.now }
        ensures bound { result ≤ 1168 }
    {
        width(self.shown_before())
    }

    /// The columns for what stands from the word on.
    pub(super) fn room_after(&self) -> usize
        ensures { result ≡ room_after self.now.before.now self.now.after.now }
    {
        self.room().saturating_sub(self.width_before())
    }

    pub(super) fn points_before(&self) -> &'static [u8]
        ensures value { result.now ≡ points (room_before self.now.before.now self.now.after.now) self.now.before.now }
        ensures bound { length result.now ≤ 2 }
    {
        points(self.room_before(), self.before)
    }

    pub(super) fn points_after(&self) -> &'static [u8]
        ensures { result.now ≡ points (room_after self.now.before.now self.now.after.now) self.now.after.now }
    {
        points(self.room_after(), self.after)
    }

    /// What is looked at from the word on.
    pub(super) fn after(&self) -> &'x [u8]
        ensures { result.now ≡ self.now.after.now }
    {
        self.after
    }

    /// The columns before the word.
    pub(super) fn caret_column(&self) -> usize
        ensures { result ≡ caret_column self.now.before.now self.now.after.now }
    {
        self.points_before().len() + self.width_before()
    }

    /// The columns of a word of so many bytes, as far as there is room for them, and at least one.
    pub(super) fn caret_count(&self, len: usize) -> usize
        ensures { result ≡ caret_count self.now.before.now self.now.after.now len }
    {
        let wide = width(first_bytes(len, self.after));
        self.room_after().min(wide).max(1)
    }
}

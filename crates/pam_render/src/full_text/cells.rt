//! What is shown of bytes: each character that can be seen, a tab as a space, and any other byte by its number.

ghost use Rattle.std.specs.Prelude.{◌≡◌, ◌∷◌, ◌<◌, ◌≤◌, ◌+◌, ◌*◌, [], IfSome, MatchOption, length};
ghost use Rattle.pam_codes.specs.Out.{Writes};
ghost use Rattle.pam_render.specs.full_text.Cells.{byte_cell, cell_text, cells, cells_text, columns, first_within, four_bytes, is_of_four, is_of_one, is_of_three};
ghost use Rattle.pam_render.specs.full_text.Cells.{is_of_two, last_within, seen_len, width};
ghost use Rattle.pam_render.specs.full_text.inner.Views.{cell_view};
ghost use Rattle.pam_render.specs.sentences.Shown.{continues, is_between};

use crate::sentences::{byte_at, is_hidden, put_byte, three_bytes, two_bytes};
use pam_codes::{Device, Out};
use std::io::Write;

/// What is shown of the first bytes.
#[derive(Clone, Copy)]
pub(super) enum Cell<'x> {
    /// A character that can be seen, as it stands.
    Seen(&'x [u8]),
    /// A tab, as a space.
    Tab,
    /// Any other byte, by its number.
    Numbered(u8),
}

/// Whether a byte continues a character in UTF-8.
fn continues(byte: u8) -> bool
    ensures { result ≡ continues byte }
{
    0x80 <= byte && byte < 0xc0
}

/// The character of four bytes in UTF-8; 0 where they are none.
fn four_bytes(first: u8, second: u8, third: u8, fourth: u8) -> u32
    ensures { result ≡ four_bytes first second third fourth }
{
    if 0xf0 <= first && first < 0xf8 && continues(second) && continues(third) && continues(fourth) {
        u32::from(first - 0xf0) * 262_144
            + u32::from(second - 0x80) * 4096
            + u32::from(third - 0x80) * 64
            + u32::from(fourth - 0x80)
    } else {
        0
    }
}

/// Whether a character has one byte and can be seen.
fn is_of_one(character: u8) -> bool
    ensures { result ≡ is_of_one character }
{
    b' ' <= character && character <= b'~'
}

/// Whether a character needs two bytes, and can be seen.
fn is_of_two(character: u32) -> bool
    ensures { result ≡ is_of_two character }
{
    character >= 0x80 && !is_hidden(character)
}

/// Whether a character is half of a pair in UTF-16, which is none in UTF-8.
fn is_half(character: u32) -> bool
    ensures { result ≡ is_between 55296 57343 character }
{
    0xd800 <= character && character <= 0xdfff
}

/// Whether a character needs three bytes, and can be seen.
fn is_of_three(character: u32) -> bool
    ensures { result ≡ is_of_three character }
{
    character >= 0x800 && !is_half(character) && !is_hidden(character)
}

/// Whether a character needs four bytes.
fn is_of_four(character: u32) -> bool
    ensures { result ≡ is_of_four character }
{
    0x1_0000 <= character && character <= 0x10_ffff
}

/// The number of bytes of the character at the front, if it can be seen; else 0.
fn seen_len(bytes: &[u8]) -> usize
    ensures value { result ≡ seen_len bytes.now }
    ensures bound { result ≤ length bytes.now }
{
    let (first, second) = (byte_at(bytes, 0), byte_at(bytes, 1));
    let (third, fourth) = (byte_at(bytes, 2), byte_at(bytes, 3));
    if is_of_one(first) {
        1
    } else if is_of_two(two_bytes(first, second)) {
        2
    } else if is_of_three(three_bytes(first, second, third)) {
        3
    } else if is_of_four(four_bytes(first, second, third, fourth)) {
        4
    } else {
        0
    }
}

/// What is shown of a byte with which no character begins that can be seen.
fn byte_cell<'x>(byte: u8) -> Cell<'x>
    ensures { cell_view result ≡ byte_cell byte }
{
    if byte == b'\t' {
        Cell::Tab
    } else {
        Cell::Numbered(byte)
    }
}

/// What is shown of the first bytes, and the bytes after these; `None` if there are none.
fn next_cell(bytes: &[u8]) -> Option<(Cell<'_>, &[u8])>
    ensures value { MatchOption result (bytes.now ≡ []) (λ p. cells 0 bytes.now ≡ cell_view p.0 ∷ cells 0 p.1.now) }
    ensures shorter { IfSome result (λ p. length p.1.now < length bytes.now) }
{
    let (byte, after) = bytes.split_first()?;
    let len = seen_len(bytes);
    if len == 0 {
        return Some((byte_cell(*byte), after));
    }
    let (seen, rest) = bytes.split_at(len);
    Some((Cell::Seen(seen), rest))
}

fn columns(cell: Cell<'_>) -> usize
    ensures value { result ≡ columns (cell_view cell.entry) }
    ensures bound { result ≤ 4 }
{
    match cell {
        Cell::Seen(_) | Cell::Tab => 1,
        Cell::Numbered(_) => 4,
    }
}

/// The columns in which bytes are shown.
pub(super) fn width(bytes: &[u8]) -> usize
    requires few { length bytes.now ≤ 292 }
    ensures value { result ≡ width (cells 0 bytes.now) }
    ensures bound { result ≤ 4 * length bytes.now }
{
    let mut width = 0;
    let mut left = bytes;
    while let Some((cell, after)) = next_cell(left) {
        width += columns(cell);
        left = after;
    }
    width
}

/// Returns the last bytes that are shown in so many columns.
pub(super) fn last_within(room: usize, bytes: &[u8]) -> &[u8]
    requires few { length bytes.now ≤ 292 }
    ensures value { cells 0 result.now ≡ last_within room (cells 0 bytes.now) }
    ensures bound { length result.now ≤ length bytes.now }
{
    let mut wide = width(bytes);
    let mut left = bytes;
    while wide > room {
        let Some((cell, after)) = next_cell(left) else {
            return left;
        };
        wide -= columns(cell);
        left = after;
    }
    left
}

fn put_cell<W: Write>(cell: Cell<'_>, out: &mut Out<W>) -> Result<(), Device>
    ensures { Writes W.contents out.old out.new result (cell_text (cell_view cell.entry)) }
{
    match cell {
        Cell::Seen(bytes) => out.put(bytes),
        Cell::Tab => out.put(b" "),
        Cell::Numbered(byte) => put_byte(true, byte, out),
    }
}

/// Writes the first bytes that are shown in so many columns.
pub(super) fn put_first_within<W: Write>(
    room: usize,
    bytes: &[u8],
    out: &mut Out<W>,
) -> Result<(), Device>
    ensures { Writes W.contents out.old out.new result (cells_text (first_within room (cells 0 bytes.now))) }
{
    let mut room = room;
    let mut left = bytes;
    while let Some((cell, after)) = next_cell(left) {
        let columns = columns(cell);
        if columns > room {
            return Ok(());
        }
        put_cell(cell, out)?;
        room -= columns;
        left = after;
    }
    Ok(())
}

//! The line of a file that a finding is about, with its number before it and carets below the word.

ghost use Rattle.std.specs.Prelude.{◌≡◌, ◌<◌, ◌^◌, ◌++◌, Some, codes, decimal, length, replicate};
ghost use Rattle.std.specs.List.{flat_map};
ghost use Rattle.pam_codes.specs.Out.{Writes};
ghost use Rattle.pam_render.specs.full_text.Excerpt.{caret_line, carets_if_any, excerpt, line_lines, start_of};
ghost use Rattle.pam_render.specs.full_text.inner.Views.{part_text};

use crate::full_text::cells::put_first_within;
use crate::full_text::window::Window;
use itoa::Buffer;
use pam_codes::{Device, Out};
use pam_findings::misspelled::Spot;
use std::io::Write;

/// A part of a line.
#[derive(Clone, Copy)]
pub(super) enum Part<'x> {
    Text(&'x [u8]),
    Number(u64),
    Repeated(usize, u8),
    /// The first bytes that are shown in so many columns.
    Shown(usize, &'x [u8]),
}

fn put_repeated<W: Write>(count: usize, byte: u8, out: &mut Out<W>) -> Result<(), Device>
    ensures { Writes W.contents out.old out.new result (replicate count byte) }
{
    for _ in 0..count {
        out.put(&[byte])?;
    }
    Ok(())
}

fn put_part<W: Write>(part: &Part<'_>, out: &mut Out<W>) -> Result<(), Device>
    ensures { Writes W.contents out.old out.new result (part_text part.now) }
{
    match part {
        Part::Text(text) => out.put(text),
        Part::Number(number) => out.put_number(*number),
        Part::Repeated(count, byte) => put_repeated(*count, *byte, out),
        Part::Shown(room, bytes) => put_first_within(*room, bytes, out),
    }
}

/// Writes parts in turn.
pub(super) fn put_parts<W: Write>(parts: &[Part<'_>], out: &mut Out<W>) -> Result<(), Device>
    ensures { Writes W.contents out.old out.new result (flat_map part_text parts.now) }
{
    for part in parts {
        put_part(part, out)?;
    }
    Ok(())
}

pub(super) fn digits(number: u64) -> usize
    ensures value { result ≡ length (decimal number) }
    ensures bound { result < 2 ^ 63 }
{
    let mut buffer = Buffer::new();
    buffer.format(number).len()
}

/// Writes an empty line, and then the line of the file with its number.
fn put_line<W: Write>(number: u64, window: &Window<'_>, out: &mut Out<W>) -> Result<(), Device>
    ensures { Writes W.contents out.old out.new result (line_lines number window.now.before.now window.now.after.now) }
{
    put_parts(
        &[
            Part::Repeated(digits(number), b' '),
            Part::Text(b" |\n"),
            Part::Number(number),
            Part::Text(b" | "),
            Part::Text(window.points_before()),
            Part::Shown(window.room_before(), window.shown_before()),
            Part::Shown(window.room_after(), window.after()),
            Part::Text(window.points_after()),
            Part::Text(b"\n"),
        ],
        out,
    )
}

/// Writes the carets below a word of some bytes.
fn put_carets<W: Write>(
    number: u64,
    window: &Window<'_>,
    len: usize,
    out: &mut Out<W>,
) -> Result<(), Device>
    ensures { Writes W.contents out.old out.new result (caret_line number window.now.before.now window.now.after.now len) }
{
    put_parts(
        &[
            Part::Repeated(digits(number), b' '),
            Part::Text(b" | "),
            Part::Repeated(window.caret_column(), b' '),
            Part::Repeated(window.caret_count(len), b'^'),
            Part::Text(b"\n"),
        ],
        out,
    )
}

fn put_carets_if_any<W: Write>(
    number: u64,
    window: &Window<'_>,
    spot: Option<Spot>,
    out: &mut Out<W>,
) -> Result<(), Device>
    ensures { Writes W.contents out.old out.new result (carets_if_any number window.now.before.now window.now.after.now spot) }
{
    match spot {
        Some(spot) => put_carets(number, window, spot.len, out),
        None => Ok(()),
    }
}

/// The bytes of its line before a word.
fn start_of(spot: Option<Spot>) -> usize
    ensures { result ≡ start_of spot }
{
    match spot {
        Some(spot) => spot.column.saturating_sub(1),
        None => 0,
    }
}

/// Writes an excerpt of bytes from a line with this number on, with carets if a word is meant; nothing where no byte is left.
pub(super) fn put_excerpt<W: Write>(
    number: usize,
    bytes: &[u8],
    spot: Option<Spot>,
    out: &mut Out<W>,
) -> Result<(), Device>
    ensures { Writes W.contents out.old out.new result (excerpt number bytes.now spot) }
{
    if bytes.is_empty() {
        return Ok(());
    }
    let window = Window::of(bytes, start_of(spot));
    put_line(number as u64, &window, out)?;
    put_carets_if_any(number as u64, &window, spot, out)?;
    out.put(b"\n")
}

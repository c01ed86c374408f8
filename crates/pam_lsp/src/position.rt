//! Where a finding is in a document, in the units of the protocol.

ghost use Rattle.std.specs.Prelude.{◌≡◌, ◌≤◌, take};
ghost use Rattle.std.specs.Option.{option_copied};
ghost use Rattle.pam_lsp.specs.Positions as spec;

use pam_text::cut;

/// The units in which the characters of a line are counted.
#[derive(Clone, Copy)]
pub enum Encoding {
    /// Bytes.
    Utf8,
    /// Two for a character beyond U+FFFF, else one.
    Utf16,
}

/// A line and a character of it, both from 0.
#[derive(Clone, Copy)]
pub struct Position {
    pub line: u64,
    pub character: u64,
}

/// From a position up to another one.
#[derive(Clone, Copy)]
pub struct Range {
    pub start: Position,
    pub end: Position,
}

/// The word of a finding in its line: the column of its first byte, from 1, and its length in bytes.
#[derive(Clone, Copy)]
pub struct Spot {
    pub column: u64,
    pub length: u64,
}

/// The units of the character that begins with this byte. A byte within a character has none.
fn units_of_byte(encoding: Encoding, byte: u8) -> u64
    ensures value { result ≡ spec.units_of_byte encoding byte }
    ensures bound { result ≤ 2 }
{
    match encoding {
        Encoding::Utf8 => 1,
        Encoding::Utf16 => {
            if byte < 128 {
                1
            } else if byte < 192 {
                0
            } else if byte < 240 {
                1
            } else {
                2
            }
        }
    }
}

/// The units of a text.
fn units(encoding: Encoding, text: &[u8]) -> u64
    ensures { result ≡ spec.units encoding text.now }
{
    let mut units = 0;
    for byte in text {
        units += units_of_byte(encoding, *byte);
    }
    units
}

/// The first bytes, at most as many as `count`.
#[tactic(auto, using(crate::proofs::Firsts::take_fewer))]
fn first(bytes: &[u8], count: u64) -> &[u8]
    ensures { result.now ≡ take count bytes.now }
{
    &bytes[..(count as usize).min(bytes.len())]
}

/// The bytes before the first line feed, or all of them.
fn before_line_feed(text: &[u8]) -> &[u8]
    ensures { result.now ≡ spec.before_line_feed text.now }
{
    match cut(text, b'\n') {
        Some((front, _)) => front,
        None => text,
    }
}

/// The bytes after the first line feed, or none.
fn after_line_feed(text: &[u8]) -> &[u8]
    ensures { result.now ≡ spec.after_line_feed text.now }
{
    match cut(text, b'\n') {
        Some((_, rest)) => rest,
        None => &[],
    }
}

/// The line with this number, from 0, without its line feed. Past the last one there is nothing.
fn line_at(text: &[u8], number: u64) -> &[u8]
    ensures { result.now ≡ spec.line_at number text.now }
{
    let mut rest = text;
    for turn in 0..number {
        rest = after_line_feed(rest);
    }
    before_line_feed(rest)
}

/// The range of a line as a whole.
fn whole_line(number: u64) -> Range
    ensures { result ≡ spec.whole_line number }
{
    let line = number.max(1);
    Range {
        start: Position {
            line: line - 1,
            character: 0,
        },
        end: Position { line, character: 0 },
    }
}

/// The range of a word in a line of a text.
fn word_range(encoding: Encoding, text: &[u8], number: u64, spot: Spot) -> Range
    ensures { result ≡ spec.word_range encoding text.now number spot }
{
    let line = number.saturating_sub(1);
    let bytes = line_at(text, line);
    let before = spot.column.saturating_sub(1);
    let through = before.saturating_add(spot.length);
    Range {
        start: Position {
            line,
            character: units(encoding, first(bytes, before)),
        },
        end: Position {
            line,
            character: units(encoding, first(bytes, through)),
        },
    }
}

/// The range of a finding: its word, where it has one and the text of the file is at hand, else its line. A file as a whole is told at
/// its first line.
pub(crate) fn range_of(
    encoding: Encoding,
    text: Option<&[u8]>,
    line: Option<u64>,
    spot: Option<Spot>,
) -> Range
    ensures { result ≡ spec.range_of encoding (option_copied text.entry) line spot }
{
    match (text, line, spot) {
        (Some(text), Some(line), Some(spot)) => word_range(encoding, text, line, spot),
        (_, Some(line), _) => whole_line(line),
        (_, None, _) => whole_line(1),
    }
}

//! Text in quotes.

ghost use Rattle.std.specs.Prelude.{◌≡◌, ◌<◌};
ghost use Rattle.std.specs.List.{flat_map};
ghost use Rattle.pam_codes.specs.Out.{Writes};
ghost use Rattle.pam_drawing.specs.Labels.{ascii_byte, hex_digit, is_plain, label, quoted, quoted_byte};

use crate::format::Format;
use arrayvec::ArrayVec;
use pam_codes::{Device, Out, Piece};
use std::io::Write;

/// The hexadecimal digit of a number.
fn hex_digit(number: u8) -> u8
    requires { number < 16 }
    ensures { result ≡ hex_digit number }
{
    if number < 10 {
        b'0' + number
    } else {
        b'a' - 10 + number
    }
}

/// Whether Mermaid reads a character as itself.
fn is_plain(character: u8) -> bool
    ensures { result ≡ is_plain character }
{
    character.is_ascii_alphanumeric() || b" _-+=,.:".contains(&character)
}

/// Writes a character of ASCII in quotes.
#[tactic(auto, unfolding(crate::specs::Labels::quoted))]
fn put_quoted<W: Write>(format: Format, character: u8, out: &mut Out<W>) -> Result<(), Device>
    ensures { Writes W.contents out.old out.new result (quoted format character) }
{
    match format {
        Format::Dot if character == b'\\' || character == b'"' => out.put(&[b'\\', character]),
        Format::Mermaid if !is_plain(character) => {
            out.put_line(&[
                Piece::Bytes(b"#"),
                Piece::Number(u64::from(character)),
                Piece::Bytes(b";"),
            ])
        }
        Format::Dot if character == b'&' => out.put(b"&amp;"),
        Format::Dot | Format::Mermaid => out.put(&[character]),
    }
}

/// Writes characters of ASCII in quotes.
fn put_characters<W: Write>(
    format: Format,
    characters: &[u8],
    out: &mut Out<W>,
) -> Result<(), Device>
    ensures { Writes W.contents out.old out.new result (flat_map (quoted format) characters.now) }
{
    for character in characters {
        put_quoted(format, *character, out)?;
    }
    Ok(())
}

/// Returns the characters of printable ASCII that show a byte: itself, `\\` for a backslash, or `\xNN`.
#[tactic(auto, unfolding(crate::specs::Labels::ascii_byte))]
pub fn ascii_byte(byte: u8) -> ArrayVec<u8, 4>
    ensures { result.items ≡ ascii_byte byte }
{
    let mut characters = ArrayVec::new();
    if byte == b'\\' {
        characters.push(b'\\');
        characters.push(b'\\');
    } else if 32 <= byte && byte <= 126 {
        characters.push(byte);
    } else {
        characters.push(b'\\');
        characters.push(b'x');
        characters.push(hex_digit(byte / 16));
        characters.push(hex_digit(byte % 16));
    }
    characters
}

/// Writes a byte in quotes.
fn put_byte<W: Write>(format: Format, byte: u8, out: &mut Out<W>) -> Result<(), Device>
    ensures { Writes W.contents out.old out.new result (quoted_byte format byte) }
{
    let characters = ascii_byte(byte);
    put_characters(format, characters.as_slice(), out)
}

/// Writes a text in quotes, without them.
pub(crate) fn put_label<W: Write>(
    format: Format,
    text: &[u8],
    out: &mut Out<W>,
) -> Result<(), Device>
    ensures { Writes W.contents out.old out.new result (label format text.now) }
{
    for byte in text {
        put_byte(format, *byte, out)?;
    }
    Ok(())
}

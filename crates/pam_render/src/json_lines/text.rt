//! JSON strings.

ghost use Rattle.std.specs.Prelude.{◌≡◌, ◌++◌, ◌<◌, map};
ghost use Rattle.std.specs.Char.{digit_char, to_ascii_lowercase};
ghost use Rattle.std.specs.List.{flat_map};
ghost use Rattle.std.specs.Str.Lossy.{utf8_lossy};
ghost use Rattle.json.specs.Print.{escape, escape_byte, escape_letter, quoted};
ghost use Rattle.pam_text.specs.Out.{Writes};
ghost use Rattle.pam_render.specs.json_lines.inner.Text.{invalid_text};
ghost use Rattle.serde_json.specs.Written.{compact_text};
ghost use Rattle.pam_render.specs.json_lines.Line.{joined};

use pam_text::{Device, Out};
use std::io::Write;

/// The UTF-8 of U+FFFD, which replaces invalid bytes.
const REPLACEMENT: &[u8] = b"\xef\xbf\xbd";

/// Returns the letter of the short escape of a byte, or 0 if it has none.
fn escape_letter(byte: u8) -> u8
    ensures { result ≡ escape_letter byte }
{
    match byte {
        b'"' | b'\\' => byte,
        8 => b'b',
        12 => b'f',
        b'\n' => b'n',
        b'\r' => b'r',
        b'\t' => b't',
        _ => 0,
    }
}

/// Returns the hexadecimal digit of a number below 16.
fn hex_digit(number: u8) -> u8
    requires { number < 16 }
    ensures { result ≡ digit_char number }
{
    if number < 10 {
        b'0' + number
    } else {
        b'a' - 10 + number
    }
}

/// Writes a byte of a string, as `\n` or `\u001b` if it would end the string or the line, or is another control byte.
#[tactic(auto, unfolding(json::specs::Print::escape_byte))]
fn put_byte<W: Write>(byte: u8, out: &mut Out<W>) -> Result<(), Device>
    ensures { Writes W.contents out.old out.new result (escape_byte byte) }
{
    let letter = escape_letter(byte);
    if letter > 0 {
        return out.put(&[b'\\', letter]);
    }
    if byte < b' ' {
        return out.put(&[
            b'\\',
            b'u',
            b'0',
            b'0',
            hex_digit(byte / 16),
            hex_digit(byte % 16),
        ]);
    }
    out.put(&[byte])
}

/// Writes a part of a UTF-8 text, escaped for a string.
pub(crate) fn put_escaped<W: Write>(text: &[u8], out: &mut Out<W>) -> Result<(), Device>
    ensures { Writes W.contents out.old out.new result (escape text.now) }
{
    for byte in text {
        put_byte(*byte, out)?;
    }
    Ok(())
}

/// Writes U+FFFD for bytes that are no UTF-8, but nothing for none.
fn put_invalid<W: Write>(invalid: &[u8], out: &mut Out<W>) -> Result<(), Device>
    ensures { Writes W.contents out.old out.new result (invalid_text invalid.now) }
{
    if invalid.is_empty() {
        return Ok(());
    }
    out.put(REPLACEMENT)
}

fn put_chunk<W: Write>(valid: &[u8], invalid: &[u8], out: &mut Out<W>) -> Result<(), Device>
    ensures { Writes W.contents out.old out.new result (escape valid.now ++ invalid_text invalid.now) }
{
    put_escaped(valid, out)?;
    put_invalid(invalid, out)
}

/// Writes bytes, escaped for a string, with U+FFFD in place of invalid UTF-8.
pub(crate) fn put_chunks<W: Write>(bytes: &[u8], out: &mut Out<W>) -> Result<(), Device>
    ensures { Writes W.contents out.old out.new result (escape (utf8_lossy bytes.now)) }
{
    for chunk in bytes.utf8_chunks() {
        put_chunk(chunk.valid().as_bytes(), chunk.invalid(), out)?;
    }
    Ok(())
}

/// Writes a text, which is UTF-8, as a string.
pub fn put_quoted<W: Write>(text: &[u8], out: &mut Out<W>) -> Result<(), Device>
    ensures { Writes W.contents out.old out.new result (quoted text.now) }
{
    out.put(b"\"")?;
    put_escaped(text, out)?;
    out.put(b"\"")
}

/// Writes bytes as a string, with U+FFFD in place of invalid UTF-8.
pub fn put_readable<W: Write>(bytes: &[u8], out: &mut Out<W>) -> Result<(), Device>
    ensures { Writes W.contents out.old out.new result (quoted (utf8_lossy bytes.now)) }
{
    out.put(b"\"")?;
    put_chunks(bytes, out)?;
    out.put(b"\"")
}

/// A part of a string: bytes, with U+FFFD in place of invalid UTF-8.
#[derive(Clone, Copy, Debug)]
pub struct Part<'x>(pub &'x [u8]);

fn put_parts<W: Write>(parts: &[Part<'_>], out: &mut Out<W>) -> Result<(), Device>
    ensures { Writes W.contents out.old out.new result (flat_map (λ part. escape (utf8_lossy part.0.now)) parts.now) }
{
    for part in parts {
        put_chunks(part.0, out)?;
    }
    Ok(())
}

/// Writes parts as one string, one after another.
pub fn put_joined<W: Write>(parts: &[Part<'_>], out: &mut Out<W>) -> Result<(), Device>
    ensures { Writes W.contents out.old out.new result (compact_text (joined (map (λ part. part.0.now) parts.now))) }
{
    out.put(b"\"")?;
    put_parts(parts, out)?;
    out.put(b"\"")
}

fn put_lowered<W: Write>(text: &[u8], out: &mut Out<W>) -> Result<(), Device>
    ensures { Writes W.contents out.old out.new result (escape (map to_ascii_lowercase text.now)) }
{
    for byte in text {
        put_byte(byte.to_ascii_lowercase(), out)?;
    }
    Ok(())
}

/// Writes a text, which is UTF-8, as a string in lowercase.
pub(crate) fn put_lowercase<W: Write>(text: &[u8], out: &mut Out<W>) -> Result<(), Device>
    ensures { Writes W.contents out.old out.new result (quoted (map to_ascii_lowercase text.now)) }
{
    out.put(b"\"")?;
    put_lowered(text, out)?;
    out.put(b"\"")
}

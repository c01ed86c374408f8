//! Text in XML.

ghost use Rattle.std.specs.List.{flat_map};
ghost use Rattle.pam_codes.specs.Out.{Writes};
ghost use Rattle.pam_drawing.specs.Escaped.{escaped, escaped_byte, named};

use crate::label::ascii_byte;
use pam_codes::{Device, Out};
use std::io::Write;

/// Writes a character of ASCII.
#[tactic(auto, unfolding(crate::specs::Escaped::named))]
fn put_character<W: Write>(character: u8, out: &mut Out<W>) -> Result<(), Device>
    ensures { Writes W.contents out.old out.new result (named character) }
{
    match character {
        b'&' => out.put(b"&amp;"),
        b'<' => out.put(b"&lt;"),
        b'>' => out.put(b"&gt;"),
        b'"' => out.put(b"&quot;"),
        b'\'' => out.put(b"&#39;"),
        _ => out.put(&[character]),
    }
}

fn put_characters<W: Write>(characters: &[u8], out: &mut Out<W>) -> Result<(), Device>
    ensures { Writes W.contents out.old out.new result (flat_map named characters.now) }
{
    for character in characters {
        put_character(*character, out)?;
    }
    Ok(())
}

/// Writes a byte of a text, so that it means nothing in XML.
pub fn put_escaped_byte<W: Write>(byte: u8, out: &mut Out<W>) -> Result<(), Device>
    ensures { Writes W.contents out.old out.new result (escaped_byte byte) }
{
    let characters = ascii_byte(byte);
    put_characters(characters.as_slice(), out)
}

/// Writes the bytes of a text, so that none means something in XML.
pub fn put_escaped<W: Write>(text: &[u8], out: &mut Out<W>) -> Result<(), Device>
    ensures { Writes W.contents out.old out.new result (escaped text.now) }
{
    for byte in text {
        put_escaped_byte(*byte, out)?;
    }
    Ok(())
}

//! Texts of several rows.

ghost use Rattle.pam_codes.specs.Out.{Writes};
ghost use Rattle.pam_drawing.specs.picture.Rows.{row_byte, rows};

use crate::put_escaped_byte;
use pam_codes::{Device, Out};
use std::io::Write;

#[tactic(auto, unfolding(crate::specs::picture::Rows::row_byte))]
fn put_row_byte<W: Write>(byte: u8, out: &mut Out<W>) -> Result<(), Device>
    ensures { Writes W.contents out.old out.new result (row_byte byte) }
{
    if byte == b' ' {
        return out.put(b"</tspan><tspan x=\"-6\" dy=\"15\">");
    }
    put_escaped_byte(byte, out)
}

/// Writes a text with a row for each of its words.
pub(crate) fn put_rows<W: Write>(text: &[u8], out: &mut Out<W>) -> Result<(), Device>
    ensures { Writes W.contents out.old out.new result (rows text.now) }
{
    for byte in text {
        put_row_byte(*byte, out)?;
    }
    Ok(())
}

//! Words, written so that pam.conf(5) reads them back.

ghost use Rattle.std.specs.Prelude.{◌≡◌};
ghost use Rattle.std.specs.List.{list_any};
ghost use Rattle.pam_codes.specs.Out.{Writes};
ghost use Rattle.pam_codes.specs.Tokens.{is_blank};
ghost use Rattle.pam_render.specs.text.WordText.{escaped, is_plain, shown_word_text, word_text};

use crate::sentences::{put_name, put_name_within};
use pam_codes::{Device, Out};
use pam_text::is_text_blank;
use std::io::Write;

fn is_plain(text: &[u8]) -> bool
    ensures { result ≡ is_plain text.now }
{
    match text.first() {
        None => false,
        Some(b'[') => false,
        Some(_) => !has_blank(text),
    }
}

fn has_blank(text: &[u8]) -> bool
    ensures { result ≡ list_any is_blank text.now }
{
    text.iter().any(|byte| is_text_blank(*byte))
}

/// Writes a text, with `\]` for each `]`.
fn put_escaped<W: Write>(text: &[u8], out: &mut Out<W>) -> Result<(), Device>
    ensures { Writes W.contents out.old out.new result (escaped text.now) }
{
    for byte in text {
        if *byte == b']' {
            out.put(b"\\]")?;
        } else {
            out.put(&[*byte])?;
        }
    }
    Ok(())
}

/// Writes a text as a word, in brackets unless it is plain.
pub(crate) fn put_word<W: Write>(text: &[u8], out: &mut Out<W>) -> Result<(), Device>
    ensures { Writes W.contents out.old out.new result (word_text text.now) }
{
    if is_plain(text) {
        return out.put(text);
    }
    out.put(b"[")?;
    put_escaped(text, out)?;
    out.put(b"]")
}

/// Writes a text as a word for a terminal: each control byte, each byte of a character that cannot be seen, and each backslash
/// by its number.
pub(crate) fn put_shown_word<W: Write>(text: &[u8], out: &mut Out<W>) -> Result<(), Device>
    ensures { Writes W.contents out.old out.new result (shown_word_text text.now) }
{
    if is_plain(text) {
        return put_name(text, out);
    }
    out.put(b"[")?;
    put_name_within(text, out)?;
    out.put(b"]")
}

//! Names and words, written so that no byte of them ends or changes a line.

ghost use Rattle.std.specs.Prelude.{◌≡◌, ◌<◌, ◌≤◌, ◌-◌, max, slice_index_or};
ghost use Rattle.pam_codes.specs.Out.{Writes};
ghost use Rattle.pam_render.specs.sentences.Shown.{byte_within, first_hidden, hex_digit, hidden_at, hidden_len, hidden_name, hidden_text, is_escaped};
ghost use Rattle.pam_render.specs.sentences.Shown.{is_hidden, is_numbered, name_within, quoted};
ghost use Rattle.pam_render.specs.sentences.Shown.{shown_byte, shown_bytes, shown_name, shown_word, three_bytes, two_bytes};

use pam_codes::{Device, Out};
use std::io::Write;

/// The bytes of a long word that are shown.
pub const MAX_SHOWN: usize = 64;

fn is_escaped(byte: u8) -> bool
    ensures { result ≡ is_escaped byte }
{
    byte < b' ' || byte == 127 || byte == b'\\'
}

/// Writes a digit below 16.
fn put_hex_digit<W: Write>(digit: u8, out: &mut Out<W>) -> Result<(), Device>
    requires { digit < 16 }
    ensures { Writes W.contents out.old out.new result (hex_digit digit) }
{
    if digit < 10 {
        return out.put(&[b'0' + digit]);
    }
    out.put(&[b'a' - 10 + digit])
}

/// Whether a character cannot be seen, or changes how those beside it are seen.
pub(crate) fn is_hidden(character: u32) -> bool
    ensures { result ≡ is_hidden character }
{
    matches!(
        character,
        0x80..=0xa0
            | 0xad
            | 0x61c
            | 0x2000..=0x200f
            | 0x2028..=0x202f
            | 0x205f..=0x206f
            | 0x3000
            | 0xfeff
    )
}

/// The character of two bytes in UTF-8; 0 where they are none.
pub(crate) fn two_bytes(first: u8, second: u8) -> u32
    ensures { result ≡ two_bytes first second }
{
    if 0xc0 <= first && first < 0xe0 && 0x80 <= second && second < 0xc0 {
        u32::from(first - 0xc0) * 64 + u32::from(second - 0x80)
    } else {
        0
    }
}

/// The character of three bytes in UTF-8; 0 where they are none.
pub(crate) fn three_bytes(first: u8, second: u8, third: u8) -> u32
    ensures { result ≡ three_bytes first second third }
{
    if 0xe0 <= first
        && first < 0xf0
        && 0x80 <= second
        && second < 0xc0
        && 0x80 <= third
        && third < 0xc0
    {
        u32::from(first - 0xe0) * 4096 + u32::from(second - 0x80) * 64 + u32::from(third - 0x80)
    } else {
        0
    }
}

/// The byte at this index, or 0 where there is none.
pub(crate) fn byte_at(bytes: &[u8], index: usize) -> u8
    ensures { result ≡ slice_index_or bytes.now index 0 }
{
    if index < bytes.len() { bytes[index] } else { 0 }
}

/// The number of bytes of the hidden character at the front, or 0 where there is none.
fn hidden_len(bytes: &[u8]) -> usize
    ensures { result ≡ hidden_len bytes.now }
{
    let (first, second) = (byte_at(bytes, 0), byte_at(bytes, 1));
    if is_hidden(two_bytes(first, second)) {
        2
    } else if is_hidden(three_bytes(first, second, byte_at(bytes, 2))) {
        3
    } else {
        0
    }
}

/// The hidden character at the front, or 0 where there is none.
fn hidden_at(bytes: &[u8]) -> u32
    ensures { result ≡ hidden_at bytes.now }
{
    let (first, second) = (byte_at(bytes, 0), byte_at(bytes, 1));
    let of_two = two_bytes(first, second);
    if is_hidden(of_two) {
        return of_two;
    }
    let of_three = three_bytes(first, second, byte_at(bytes, 2));
    if is_hidden(of_three) { of_three } else { 0 }
}

/// The first hidden character of a word, or 0 where it has none.
fn first_hidden(word: &[u8]) -> u32
    ensures { result ≡ first_hidden word.now }
{
    let mut left = word;
    while let Some((_, after)) = left.split_first() {
        let character = hidden_at(left);
        if character != 0 {
            return character;
        }
        left = after;
    }
    0
}

/// What is said of a hidden character.
#[tactic(auto, unfolding(crate::specs::sentences::Shown::hidden_name))]
fn hidden_name(character: u32) -> &'static str
    ensures { result.now ≡ hidden_name character }
{
    match character {
        0xfeff => ": the word has a byte order mark",
        0xa0 => ": the word has a no-break space",
        0x200b => ": the word has a zero-width space",
        0x200c => ": the word has a zero-width non-joiner",
        0x200d => ": the word has a zero-width joiner",
        0xad => ": the word has a soft hyphen",
        _ => ": the word has a character that cannot be seen",
    }
}

/// What is said of a word with a hidden character, after what is wrong with it; empty for any other word.
pub(crate) fn hidden_text(word: &[u8]) -> &'static str
    ensures { result.now ≡ hidden_text word.now }
{
    let character = first_hidden(word);
    if character == 0 {
        ""
    } else {
        hidden_name(character)
    }
}

/// How many bytes from here on are of a hidden character. The number given is that of the bytes left of one that began before.
fn hidden_from(hidden: usize, bytes: &[u8]) -> usize
    ensures { result ≡ max hidden (hidden_len bytes.now) }
{
    let begun = hidden_len(bytes);
    if begun <= hidden { hidden } else { begun }
}

/// Whether a byte is shown by its number. The number given is that of the bytes, from this one on, of a hidden character.
fn is_numbered(hidden: usize, byte: u8) -> bool
    ensures { result ≡ is_numbered hidden byte }
{
    is_escaped(byte) || hidden > 0
}

/// Writes a byte, as `\x0a` if it is shown by its number.
#[tactic(auto, unfolding(crate::specs::sentences::Shown::shown_byte))]
pub(crate) fn put_byte<W: Write>(
    is_numbered: bool,
    byte: u8,
    out: &mut Out<W>,
) -> Result<(), Device>
    ensures { Writes W.contents out.old out.new result (shown_byte is_numbered byte) }
{
    if !is_numbered {
        return out.put(&[byte]);
    }
    out.put(b"\\x")?;
    put_hex_digit(byte / 16, out)?;
    put_hex_digit(byte % 16, out)
}

/// Writes a byte, but within brackets `\]` for a closing one.
fn put_byte_within<W: Write>(
    brackets: bool,
    is_numbered: bool,
    byte: u8,
    out: &mut Out<W>,
) -> Result<(), Device>
    ensures { Writes W.contents out.old out.new result (byte_within brackets is_numbered byte) }
{
    if brackets && byte == b']' {
        return out.put(b"\\]");
    }
    put_byte(is_numbered, byte, out)
}

/// Writes bytes, of which none is shown that ends a line, nor within brackets one that ends these.
fn put_bytes<W: Write>(brackets: bool, name: &[u8], out: &mut Out<W>) -> Result<(), Device>
    ensures { Writes W.contents out.old out.new result (shown_bytes brackets 0 name.now) }
{
    // The bytes of a hidden character that are still to come.
    let mut hidden = 0;
    let mut left = name;
    while let Some((byte, after)) = left.split_first() {
        hidden = hidden_from(hidden, left);
        put_byte_within(brackets, is_numbered(hidden, *byte), *byte, out)?;
        hidden = hidden.saturating_sub(1);
        left = after;
    }
    Ok(())
}

/// Writes a name, with `\x0a` for a line feed: so each control byte, each byte of a character that cannot be seen, and each backslash.
pub fn put_name<W: Write>(name: &[u8], out: &mut Out<W>) -> Result<(), Device>
    ensures { Writes W.contents out.old out.new result (shown_name name.now) }
{
    put_bytes(false, name, out)
}

/// Writes a name inside brackets: as `put_name` does, but each `]` as `\]`.
pub fn put_name_within<W: Write>(name: &[u8], out: &mut Out<W>) -> Result<(), Device>
    ensures { Writes W.contents out.old out.new result (name_within name.now) }
{
    put_bytes(true, name, out)
}

/// Writes a word as a name, of a long one the first bytes and `..`.
fn put_word<W: Write>(word: &[u8], out: &mut Out<W>) -> Result<(), Device>
    ensures { Writes W.contents out.old out.new result (shown_word word.now) }
{
    if word.len() <= MAX_SHOWN {
        return put_name(word, out);
    }
    put_name(&word[..MAX_SHOWN], out)?;
    out.put(b"..")
}

/// Writes `"WORD"`.
pub(crate) fn put_quoted<W: Write>(word: &[u8], out: &mut Out<W>) -> Result<(), Device>
    ensures { Writes W.contents out.old out.new result (quoted word.now) }
{
    out.put(b"\"")?;
    put_word(word, out)?;
    out.put(b"\"")
}

//! Frames: a message after its length.

ghost use Rattle.std.specs.Prelude.{◌≡◌, IfOk};
ghost use Rattle.pam_lsp.specs.Frames as spec;

use itoa::Buffer;
use pam_text::cut;
use std::alloc::{AllocError, Global};

/// The most bytes of what stands before a message.
const MAX_HEAD: usize = 8 * 1024;

/// The most bytes of a message.
const MAX_MESSAGE: usize = 16 * 1024 * 1024;

/// What ends the lines before a message.
const BLANK_LINE: &[u8] = b"\r\n\r\n";

/// A message after its length.
pub fn frame(alloc: Global, message: &[u8]) -> Result<Vec<u8>, AllocError>
    ensures { IfOk result (λ frame. frame.items ≡ spec.frame message.now) }
{
    let mut buffer = Buffer::new();
    let mut frame = Vec::from_slice(alloc, b"Content-Length: ")?;
    frame.extend_from_slice(buffer.format(message.len()).as_bytes())?;
    frame.extend_from_slice(b"\r\n\r\n")?;
    frame.extend_from_slice(message)?;
    Ok(frame)
}

/// What is at the front of the bytes that were read.
#[derive(Clone, Copy)]
pub(crate) enum Front<'b> {
    /// A message, and the bytes after it.
    Message { message: &'b [u8], rest: &'b [u8] },
    /// A part of a frame.
    Part,
    /// What begins no frame.
    Broken,
}

/// Returns the bytes before the first blank line and those after it. It is looked for near the front alone.
fn cut_head(bytes: &[u8]) -> Option<(&[u8], &[u8])> {
    for end in 0..bytes.len().min(MAX_HEAD) {
        if let Some(rest) = bytes[end..].strip_prefix(BLANK_LINE) {
            return Some((&bytes[..end], rest));
        }
    }
    None
}

/// The number that digits are.
fn number_of(digits: &[u8]) -> Option<usize> {
    match std::str::from_utf8(digits) {
        Ok(digits) => digits.parse().ok(),
        Err(_) => None,
    }
}

/// The length that a line before a message says, if it says one.
fn length_in(line: &[u8]) -> Option<usize> {
    let (name, value) = cut(line, b':')?;
    if name.eq_ignore_ascii_case(b"Content-Length") {
        number_of(value.trim_ascii())
    } else {
        None
    }
}

/// The length that the lines before a message say. Other lines are passed over.
fn length_of(head: &[u8]) -> Option<usize> {
    for line in head.split(|byte| *byte == b'\n') {
        if let Some(length) = length_in(line) {
            return Some(length);
        }
    }
    None
}

/// Returns what is at the front of bytes.
pub(crate) fn front_of(bytes: &[u8]) -> Front<'_> {
    let Some((head, body)) = cut_head(bytes) else {
        return if bytes.len() < MAX_HEAD {
            Front::Part
        } else {
            Front::Broken
        };
    };
    match length_of(head) {
        Some(length) if length <= MAX_MESSAGE => {
            if length <= body.len() {
                Front::Message {
                    message: &body[..length],
                    rest: &body[length..],
                }
            } else {
                Front::Part
            }
        }
        _ => Front::Broken,
    }
}

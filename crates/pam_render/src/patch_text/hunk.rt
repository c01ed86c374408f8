//! A unified diff of a file with one hunk.

ghost use Rattle.std.specs.Prelude.{◌≡◌, ◌∷◌, ◌++◌, OnOk, decimal};
ghost use Rattle.std.specs.Str.{bytes_eq};
ghost use Rattle.pam_findings.specs.misspelled.Spots.{after_feeds};
ghost use Rattle.pam_render.specs.patch_text.Hunk.{diff, first_line, first_of, head_text, is_open, last_of, line_count};
ghost use Rattle.pam_render.specs.patch_text.Hunk.{changed_text, names_text, pair_text, rows_text, shown_line, span_text, spans_text};
ghost use Rattle.pam_render.specs.patch_text.inner.Views.{mendings_view};

use crate::full_text::first_bytes;
use crate::patch_text::mending::Mending;
use itoa::Buffer;
use pam_findings::misspelled::{after_feeds, line_feeds, line_len};
use std::alloc::AllocError;

/// Whether bytes do not end with a line feed.
fn is_open(bytes: &[u8]) -> bool
    ensures { result ≡ is_open bytes.now }
{
    match bytes.get(bytes.len().saturating_sub(1)) {
        Some(last) => *last != b'\n',
        None => false,
    }
}

fn line_count(bytes: &[u8]) -> usize
    ensures { result ≡ line_count bytes.now }
{
    let feeds = line_feeds(bytes);
    if is_open(bytes) { feeds + 1 } else { feeds }
}

/// The first line, with its line feed.
fn first_line(bytes: &[u8]) -> &[u8]
    ensures { result.now ≡ first_line bytes.now }
{
    first_bytes(line_len(bytes) + 1, bytes)
}

/// Appends a line, and what is said where it has no line feed.
fn push_line(line: &[u8], text: &mut Vec<u8>) -> Result<(), AllocError>
    ensures { OnOk result (text.new.items ≡ text.old.items ++ shown_line line.now) }
{
    text.extend_from_slice(line)?;
    if is_open(line) {
        text.extend_from_slice(b"\n\\ No newline at end of file\n")?;
    }
    Ok(())
}

/// Appends a line with a mark before it.
fn push_marked(mark: u8, line: &[u8], text: &mut Vec<u8>) -> Result<(), AllocError>
    ensures { OnOk result (text.new.items ≡ text.old.items ++ mark ∷ shown_line line.now) }
{
    text.push(mark)?;
    push_line(line, text)
}

fn are_same(old: &[u8], new: &[u8]) -> bool
    ensures { result ≡ bytes_eq old.now new.now }
{
    old == new
}

/// Appends an old line and its new one.
fn push_changed(old: &[u8], new: &[u8], text: &mut Vec<u8>) -> Result<(), AllocError>
    ensures { OnOk result (text.new.items ≡ text.old.items ++ changed_text old.now new.now) }
{
    push_marked(b'-', old, text)?;
    push_marked(b'+', new, text)
}

/// Appends a line that stays, or an old one and its new one.
fn push_pair(old: &[u8], new: &[u8], text: &mut Vec<u8>) -> Result<(), AllocError>
    ensures { OnOk result (text.new.items ≡ text.old.items ++ pair_text old.now new.now) }
{
    if are_same(old, new) {
        push_marked(b' ', old, text)
    } else {
        push_changed(old, new, text)
    }
}

/// The bytes after the first line.
fn next_line(bytes: &[u8]) -> &[u8]
    ensures { result.now ≡ after_feeds 1 bytes.now }
{
    after_feeds(1, bytes)
}

/// Appends the lines after so many.
fn push_rows(
    passed: usize,
    count: usize,
    old: &[u8],
    new: &[u8],
    text: &mut Vec<u8>,
) -> Result<(), AllocError>
    ensures { OnOk result (text.new.items ≡ text.old.items ++ rows_text passed count old.now new.now) }
{
    let mut left = after_feeds(passed, old);
    let mut right = after_feeds(passed, new);
    for _ in 0..count {
        push_pair(first_line(left), first_line(right), text)?;
        left = next_line(left);
        right = next_line(right);
    }
    Ok(())
}

fn push_number(number: usize, text: &mut Vec<u8>) -> Result<(), AllocError>
    ensures { OnOk result (text.new.items ≡ text.old.items ++ decimal number) }
{
    let mut buffer = Buffer::new();
    text.extend_from_slice(buffer.format(number as u64).as_bytes())?;
    Ok(())
}

fn push_span(start: usize, count: usize, text: &mut Vec<u8>) -> Result<(), AllocError>
    ensures { OnOk result (text.new.items ≡ text.old.items ++ span_text start count) }
{
    push_number(start, text)?;
    text.extend_from_slice(b",")?;
    push_number(count, text)
}

fn push_names(path: &[u8], text: &mut Vec<u8>) -> Result<(), AllocError>
    ensures { OnOk result (text.new.items ≡ text.old.items ++ names_text path.now) }
{
    text.extend_from_slice(b"--- a/")?;
    text.extend_from_slice(path)?;
    text.extend_from_slice(b"\n+++ b/")?;
    text.extend_from_slice(path)?;
    text.extend_from_slice(b"\n")?;
    Ok(())
}

fn push_spans(start: usize, count: usize, text: &mut Vec<u8>) -> Result<(), AllocError>
    ensures { OnOk result (text.new.items ≡ text.old.items ++ spans_text start count) }
{
    text.extend_from_slice(b"@@ -")?;
    push_span(start, count, text)?;
    text.extend_from_slice(b" +")?;
    push_span(start, count, text)?;
    text.extend_from_slice(b" @@\n")?;
    Ok(())
}

fn push_head(path: &[u8], start: usize, count: usize, text: &mut Vec<u8>) -> Result<(), AllocError>
    ensures { OnOk result (text.new.items ≡ text.old.items ++ head_text path.now start count) }
{
    push_names(path, text)?;
    push_spans(start, count, text)
}

/// The first of the lines that mendings change, and of this one.
pub(super) fn first_of(line: usize, mendings: &[Mending<'_>]) -> usize
    ensures { result ≡ first_of line (mendings_view mendings.now) }
{
    let mut least = line;
    for mending in mendings {
        least = least.min(mending.at);
    }
    least
}

/// The last of them.
pub(super) fn last_of(line: usize, mendings: &[Mending<'_>]) -> usize
    ensures { result ≡ last_of line (mendings_view mendings.now) }
{
    let mut most = line;
    for mending in mendings {
        most = most.max(mending.at);
    }
    most
}

/// Appends the diff of a file from its old bytes to the new ones, if these are the first and the last line that change.
pub(super) fn push_diff(
    path: &[u8],
    lines: (usize, usize),
    old: &[u8],
    new: &[u8],
    text: &mut Vec<u8>,
) -> Result<(), AllocError>
    ensures { OnOk result (text.new.items ≡ text.old.items ++ diff path.now lines.0 lines.1 old.now new.now) }
{
    let (first, last) = lines;
    let start = 1_usize.max(first.saturating_sub(3));
    let total = line_count(old);
    let end = total.saturating_sub(total.saturating_sub(last).saturating_sub(3));
    let count = end.saturating_sub(start.saturating_sub(1));
    push_head(path, start, count, text)?;
    push_rows(start.saturating_sub(1), count, old, new, text)
}

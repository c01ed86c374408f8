//! The logical lines of a file, as released Linux-PAM assembles them.

ghost use Rattle.std.specs.Prelude.{◌≡◌, ◌+◌, ◌*◌, ◌<◌, ◌∷◌, ◌++◌, ◌&&◌, not, [], Bool, ℕ, List, IfOk, IfSome};
ghost use Rattle.std.specs.Prelude.{MatchOption, OnOk, false, if◌then◌else◌, length, map};
ghost use Rattle.std.specs.Option.{option_map};
ghost use Rattle.pam_released.specs.Lines.{front_part, has_hash, physical_lines, without_start_blanks};
ghost use Rattle.pam_released.specs.Numbered.{is_fed_before, numbered_152, numbered_end, numbered_lines, numbered_piece};
ghost use Rattle.pam_released.specs.inner.Numbered.{line_view, with_front};
ghost use Rattle.pam_released.specs.declared.release.Release.TheVariants.{Older, Newer};

use crate::lines::{
    before_hash, ends_in_feed, goes_on, has_hash, is_blank_line, is_space_or_tab, line_len,
    split_line, without_end_blanks,
};
use crate::release::Release;
use pam_text::Source;
use std::alloc::{AllocError, Global};

/// The bytes of a logical line that 1.5.2 reads at most, unless they go on.
const MOST_BYTES: usize = 1023;

/// A logical line.
#[derive(Drop)]
pub(crate) struct LogicalLine {
    /// The number of its first physical line, from 1.
    pub number: u32,
    pub text: Vec<u8>,
    /// Whether it ends in a line feed, which is read as a part of it: one that no comment hides.
    pub is_fed: bool,
}

/// What 1.5.2 reads of a physical line at once.
#[derive(Clone, Copy)]
struct Piece<'a> {
    text: &'a [u8],
    /// The bytes after it.
    after: &'a [u8],
    /// Whether it ends in a line feed.
    is_fed: bool,
    /// Whether the next piece begins at another physical line.
    is_whole: bool,
}

/// The next piece that 1.5.2 reads, after `used` bytes of its logical line; `None` if there are no bytes.
fn split_piece(used: usize, bytes: &[u8]) -> Option<Piece<'_>>
    ensures value { MatchOption result (bytes.now ≡ []) (λ p. (line start : ℕ) (got : List ℕ) (inside : Bool) → length got ≡ used →
        numbered_152 line start got [] inside bytes.now ≡ numbered_piece start got p.text.now p.is_fed inside (if p.is_whole then line + 1 else line)
        (λ s g i. numbered_152 (if p.is_whole then line + 1 else line) s g [] i p.after.now)) }
    ensures shorter { IfSome result (λ p. length p.after.now < length bytes.now) }
{
    if bytes.is_empty() {
        return None;
    }
    let len = line_len(bytes);
    if used < MOST_BYTES && len >= MOST_BYTES - used {
        let (text, after) = bytes.split_at(MOST_BYTES - used);
        return Some(Piece {
            text,
            after,
            is_fed: false,
            is_whole: false,
        });
    }
    let (text, after) = bytes.split_at(len);
    if after.is_empty() {
        return Some(Piece {
            text,
            after,
            is_fed: false,
            is_whole: true,
        });
    }
    Some(Piece {
        text,
        after: after.split_at(1).1,
        is_fed: true,
        is_whole: true,
    })
}

/// Whether a line feed ends a line of 1.7.0 before these bytes of a file, which itself ends in one if `closed`.
fn is_fed_before(closed: bool, after: &[u8]) -> bool
    ensures { result ≡ is_fed_before closed (physical_lines after.now) }
{
    closed || !after.is_empty()
}

/// The text without the spaces and tabs at its start.
fn without_start_blanks(text: &[u8]) -> &[u8]
    ensures { result.now ≡ without_start_blanks text.now }
{
    let mut rest = text;
    while let Some((first, after)) = rest.split_first() {
        if !is_space_or_tab(*first) {
            return rest;
        }
        rest = after;
    }
    rest
}

/// Appends the part of a logical line that `line` is, whose backslash is read as a space.
fn push_front(text: &mut Vec<u8>, line: &[u8]) -> Result<(), AllocError>
    ensures { OnOk result (text.new.items ≡ text.old.items ++ front_part line.now) }
{
    let Some((_, front)) = without_end_blanks(line).split_last() else {
        return Ok(());
    };
    text.extend_from_slice(front)?;
    text.push(b' ')?;
    Ok(())
}

/// Like `push_front`, without the blanks at its start.
fn push_trimmed(text: &mut Vec<u8>, line: &[u8]) -> Result<(), AllocError>
    ensures { OnOk result (text.new.items ≡ text.old.items ++ without_start_blanks (front_part line.now)) }
{
    let Some((_, front)) = without_end_blanks(line).split_last() else {
        return Ok(());
    };
    let front = without_start_blanks(front);
    if front.is_empty() {
        return Ok(());
    }
    text.extend_from_slice(front)?;
    text.push(b' ')?;
    Ok(())
}

/// The logical lines of a file so far, and the one that is being read.
#[derive(Drop)]
struct Assembly {
    lines: Vec<LogicalLine>,
    /// The bytes that have been read of it.
    text: Vec<u8>,
    /// The number of the physical line that is read next.
    number: u32,
    /// That of its first physical line.
    start: u32,
    /// Whether what has been read of it goes on.
    inside: bool,
}

impl Assembly {
    fn new(alloc: Global) -> Assembly
        ensures lines { result.lines.items ≡ [] }
        ensures text { result.text.items ≡ [] }
        ensures numbers { (result.number ≡ 1) × (result.start ≡ 1) }
        ensures inside { result.inside ≡ false }
    {
        Assembly {
            lines: Vec::new(alloc),
            text: Vec::new(alloc),
            number: 1,
            start: 1,
            inside: false,
        }
    }

    /// Keeps the logical line that has been read, of which `line` is the last, which a line feed ends if `fed`.
    fn keep_line(&mut self, alloc: Global, line: &[u8], fed: bool) -> Result<(), AllocError>
        ensures lines { OnOk result (map line_view self.new.lines.items ≡ map line_view self.old.lines.items
            ++ record { start = self.old.start; text = self.old.text.items; is_fed = fed && not (has_hash line.now) } ∷ []) }
        ensures text { OnOk result (self.new.text.items ≡ []) }
        ensures number { self.new.number ≡ self.old.number }
    {
        let text = std::mem::replace(&mut self.text, Vec::new(alloc));
        let number = self.start;
        let is_fed = fed && !has_hash(line);
        self.lines.push(LogicalLine {
            number,
            text,
            is_fed,
        })?;
        Ok(())
    }

    /// The lines, after the last byte; `None` if the last one goes on.
    fn finish(self) -> Option<Vec<LogicalLine>>
        ensures { option_map (λ lines. map line_view lines.items) result ≡ with_front (map line_view self.lines.items) (numbered_end self.inside) }
    {
        if self.inside {
            return None;
        }
        Some(self.lines)
    }
}

/// The logical lines of 1.5.2.
fn lines_152(alloc: Global, source: Source<'_>) -> Result<Option<Vec<LogicalLine>>, AllocError>
    ensures { IfOk result (λ found. option_map (λ lines. map line_view lines.items) found ≡ numbered_lines Older source.entry.bytes.now) }
{
    let mut assembly = Assembly::new(alloc);
    let mut rest = source.bytes;
    while let Some(piece) = split_piece(assembly.text.len(), rest) {
        if piece.is_whole {
            assembly.number += 1;
        }
        if is_blank_line(piece.text) {
            assembly.start = if assembly.inside {
                assembly.start
            } else {
                assembly.number
            };
        } else if goes_on(piece.text) {
            push_front(&mut assembly.text, piece.text)?;
            assembly.inside = true;
        } else {
            assembly.text.extend_from_slice(before_hash(piece.text))?;
            assembly.keep_line(alloc, piece.text, piece.is_fed)?;
            assembly.start = assembly.number;
            assembly.inside = false;
        }
        rest = piece.after;
    }
    Ok(assembly.finish())
}

/// The logical lines of 1.7.0 that are not empty.
fn lines_170(alloc: Global, source: Source<'_>) -> Result<Option<Vec<LogicalLine>>, AllocError>
    ensures { IfOk result (λ found. option_map (λ lines. map line_view lines.items) found ≡ numbered_lines Newer source.entry.bytes.now) }
{
    let closed = ends_in_feed(source.bytes);
    let mut assembly = Assembly::new(alloc);
    let mut rest = source.bytes;
    while let Some((line, after)) = split_line(rest) {
        assembly.number += 1;
        if goes_on(line) {
            push_trimmed(&mut assembly.text, line)?;
            assembly.inside = true;
        } else {
            let last = without_start_blanks(before_hash(line));
            assembly.text.extend_from_slice(last)?;
            if !assembly.text.is_empty() {
                assembly.keep_line(alloc, line, is_fed_before(closed, after))?;
            }
            assembly.start = assembly.number;
            assembly.inside = false;
        }
        rest = after;
    }
    Ok(assembly.finish())
}

/// The logical lines of a file by a release, without those that it skips; `None` where it refuses the file.
pub(crate) fn logical_lines(
    alloc: Global,
    release: Release,
    source: Source<'_>,
) -> Result<Option<Vec<LogicalLine>>, AllocError>
    ensures { IfOk result (λ found. option_map (λ lines. map line_view lines.items) found ≡ numbered_lines release source.entry.bytes.now) }
{
    match release {
        Release::Older => lines_152(alloc, source),
        Release::Newer => lines_170(alloc, source),
    }
}

//! The walk over what a check finds, with an excerpt below each finding.

ghost use Rattle.std.specs.Prelude.{◌≡◌, map};
ghost use Rattle.std.specs.Option.{option_map};
ghost use Rattle.pam_findings.specs.misspelled.Cursors.{IsAt};
ghost use Rattle.pam_findings.specs.misspelled.MisspelledView.{misspelled_view};
ghost use Rattle.pam_render.specs.full_text.Check.{IsFull, bytes_from, bytes_there, found_full, full_finding, full_findings, is_untold, named_full};
ghost use Rattle.pam_render.specs.parts.CheckNames.{names_view, word_of};
ghost use Rattle.pam_render.specs.parts.Prints.{PrintsBy};
ghost use Rattle.pam_report.specs.Reply.{Check};
ghost use Rattle.pam_report.specs.ReplyViews.{check_view};
ghost use Rattle.pam_text.specs.Out.{Writes, WritesAndFlushes};

use crate::full_text::excerpt::put_excerpt;
use crate::full_text::witness::put_witness;
use crate::parts::{
    CheckLine, CheckLines, FoundProblem, Names, names_of, put_rest, spot_of, told_line,
    with_write_fault, word_at,
};
use crate::text::AsText;
use pam_conf::{Files, Form};
use pam_findings::host::{Finding, Place, is_outside};
use pam_findings::misspelled::{Cursor, Misspelled, Spot, after_feeds};
use pam_report::{CheckReply, Fault};
use pam_text::{Device, Out};
use std::alloc::Global;
use std::io::Write;

/// Whether no line of a file is shown at a place: at a file as a whole, and in a link that leads out of its folder.
fn is_untold(outside: &[bool], place: &Place) -> bool
    ensures { result ≡ is_untold outside.now place.now }
{
    is_outside(outside, place.file) || place.line == 0
}

/// The bytes of its file from the line of a place on, if they are to be shown.
fn bytes_from<'a>(cursor: &mut Cursor<'a>, outside: &[bool], place: &Place) -> &'a [u8]
    requires { IsAt cursor.old }
    ensures at { IsAt cursor.new }
    ensures same { cursor.new.files ≡ cursor.old.files }
    ensures bytes { result.now ≡ bytes_from cursor.old.files.now outside.now place.now }
{
    if is_untold(outside, place) {
        return b"";
    }
    cursor.seek(place.file, place.line);
    cursor.rest()
}

/// The bytes from the line on that is told.
fn bytes_there<'a>(
    cursor: &mut Cursor<'a>,
    outside: &[bool],
    place: &Place,
    spot: Option<Spot>,
) -> &'a [u8]
    requires { IsAt cursor.old }
    ensures at { IsAt cursor.new }
    ensures same { cursor.new.files ≡ cursor.old.files }
    ensures bytes { result.now ≡ bytes_there cursor.old.files.now outside.now place.now spot }
{
    let lines = told_line(place.line, spot).saturating_sub(place.line);
    after_feeds(lines, bytes_from(cursor, outside, place))
}

/// Writes the line of a finding, that of its file, and the modules of a way in.
fn put_full<W: Write>(
    names: &Names<'_>,
    cursor: &mut Cursor<'_>,
    outside: &[bool],
    entry: &(Place, Finding),
    word: Option<&Misspelled>,
    out: &mut Out<W>,
) -> Result<(), Device>
    requires { IsAt cursor.old }
    ensures at { IsAt cursor.new }
    ensures same { cursor.new.files ≡ cursor.old.files }
    ensures text { Writes W.contents out.old out.new result
        (full_finding (names_view names.now) cursor.old.files.now outside.now entry.now (word_of word.entry)) }
{
    let place = &entry.0;
    let spot = spot_of(word);
    let bytes = bytes_there(cursor, outside, place, spot);
    AsText.put_line(CheckLine::Found(FoundProblem { names, entry, word }), out)?;
    put_excerpt(told_line(place.line, spot), bytes, spot, out)?;
    put_witness(names, entry.1, out)
}

/// Writes the findings, each with the word that is wrong at its position.
fn put_findings<W: Write>(
    names: &Names<'_>,
    files: &Files,
    outside: &[bool],
    found: &[(Place, Finding)],
    words: &[Option<Misspelled>],
    out: &mut Out<W>,
) -> Result<(), Device>
    ensures { Writes W.contents out.old out.new result
        (full_findings (names_view names.now) files.now outside.now (map (option_map misspelled_view) words.now) found.now) }
{
    let mut cursor = Cursor::new(files);
    for (position, entry) in found.iter().enumerate() {
        let word = word_at(words, position);
        put_full(names, &mut cursor, outside, entry, word, out)?;
    }
    Ok(())
}

/// Writes the findings of a check, whose files are these.
fn put_found<W: Write>(
    names: &Names<'_>,
    files: &Files,
    reply: &CheckReply<'_>,
    out: &mut Out<W>,
) -> Result<(), Device>
    ensures { Writes W.contents out.old out.new result (found_full (names_view names.now) files.now (check_view reply.now)) }
{
    put_findings(
        names,
        files,
        reply.outside,
        &reply.found,
        &reply.misspelled,
        out,
    )
}

/// The same, where there may be no files.
fn put_all_found<W: Write>(
    alloc: Global,
    names: &Names<'_>,
    reply: &CheckReply<'_>,
    out: &mut Out<W>,
) -> Result<(), Device>
    ensures { Writes W.contents out.old out.new result
        (found_full (names_view names.now) (check_view reply.now).files (check_view reply.now)) }
{
    match reply.files {
        Some(files) => put_found(names, files, reply, out),
        None => put_found(names, &Files::new(alloc, Form::Dir), reply, out),
    }
}

/// Writes the findings with these names, and flushes.
fn write_named<W: Write>(
    alloc: Global,
    names: &Names<'_>,
    reply: &CheckReply<'_>,
    out: &mut Out<W>,
) -> Result<(), Device>
    ensures { WritesAndFlushes W.contents out.old out.new result (named_full (names_view names.now) (check_view reply.now)) }
{
    put_all_found(alloc, names, reply, out)?;
    put_rest(&AsText, reply, out)?;
    out.finish()
}

/// Writes the full text of a check, and flushes. Allocates lists of names before the first byte.
// Not inlined, so that a command uses no stack for the values of the others.
#[inline(never)]
pub fn write_full<W: Write>(
    alloc: Global,
    reply: &CheckReply<'_>,
    out: &mut Out<W>,
) -> Result<(), Fault>
    ensures { PrintsBy W.contents IsFull out.old out.new result (Check (check_view reply.now)) }
{
    match names_of(alloc, reply) {
        Ok(names) => with_write_fault(write_named(alloc, &names, reply, out)),
        Err(_) => Err(Fault::Memory),
    }
}

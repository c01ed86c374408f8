//! The diffs of the files of a check.

ghost use Rattle.std.specs.Prelude.{◌≡◌, ◌==◌, ◌++◌, IfOk, OnOk, Some, filter};
ghost use Rattle.pam_findings.specs.misspelled.Lines.{bytes_of};
ghost use Rattle.pam_render.specs.parts.CheckNames.{names_view};
ghost use Rattle.pam_render.specs.parts.Prints.{PrintsBy};
ghost use Rattle.pam_render.specs.patch_text.Check.{IsPatch, check_patch, diffs, file_diff, is_named, is_path_byte, kept_diff};
ghost use Rattle.pam_render.specs.patch_text.Check.{mendings_in, own_diff, patch_of as patch_by, patch_path};
ghost use Rattle.pam_render.specs.patch_text.inner.Views.{mendings_view};
ghost use Rattle.pam_report.specs.Reply.{Check};
ghost use Rattle.pam_report.specs.ReplyViews.{check_view};
ghost use Rattle.pam_text.specs.Out.{WritesAndFlushes};

use crate::full_text::bytes_after;
use crate::parts::{Names, names_of, path_of, with_write_fault};
use crate::patch_text::hunk::{first_of, last_of, push_diff};
use crate::patch_text::mended::mended;
use crate::patch_text::mending::{Mending, mendings_of};
use crate::patch_text::reading::{is_certain, kept, reading_of};
use pam_conf::{Files, Form};
use pam_findings::misspelled::Cursor;
use pam_report::{CheckReply, Fault};
use pam_text::{Device, Out};
use std::alloc::{AllocError, Global};
use std::io::Write;

/// The path of a file in a patch: without a slash or the folder itself before it.
fn patch_path(path: &[u8]) -> &[u8]
    ensures { result.now ≡ patch_path path.now }
{
    if path.starts_with(b"/") {
        bytes_after(1, path)
    } else if path.starts_with(b"./") {
        bytes_after(2, path)
    } else {
        path
    }
}

/// Whether a byte of a path needs no quotes.
fn is_path_byte(byte: u8) -> bool
    ensures { result ≡ is_path_byte byte }
{
    byte > 32 && byte != b'"' && byte != b'\\' && byte != 127
}

/// Whether a patch can name a file.
fn is_named(path: &[u8]) -> bool
    ensures { result ≡ is_named path.now }
{
    path.iter().all(|byte| is_path_byte(*byte))
}

/// A file, and its path in a patch.
#[derive(Clone, Copy)]
struct Mended<'x> {
    form: Form,
    path: &'x [u8],
    old: &'x [u8],
}

/// Appends the diff of a file with these mendings, if there are any and they are certain.
fn push_kept(
    alloc: Global,
    file: Mended<'_>,
    mendings: &[Mending<'_>],
    text: &mut Vec<u8>,
) -> Result<(), AllocError>
    ensures { OnOk result (text.new.items
        ≡ text.old.items ++ kept_diff file.entry.form file.entry.path.now file.entry.old.now (mendings_view mendings.now)) }
{
    let Some((first, _)) = mendings.split_first() else {
        return Ok(());
    };
    let new = mended(alloc, mendings, file.old)?;
    let before = reading_of(alloc, file.form, file.old)?;
    let after = reading_of(alloc, file.form, &new)?;
    if !is_certain(alloc, mendings, &before, &after)? {
        return Ok(());
    }
    let lines = (first_of(first.at, mendings), last_of(first.at, mendings));
    push_diff(file.path, lines, file.old, &new, text)
}

/// Appends that with the mendings whose lines are then rules of modules.
fn push_own(
    alloc: Global,
    file: Mended<'_>,
    mendings: &[Mending<'_>],
    text: &mut Vec<u8>,
) -> Result<(), AllocError>
    ensures { OnOk result (text.new.items
        ≡ text.old.items ++ own_diff file.entry.form file.entry.path.now file.entry.old.now (mendings_view mendings.now)) }
{
    if mendings.is_empty() {
        return Ok(());
    }
    let new = mended(alloc, mendings, file.old)?;
    let after = reading_of(alloc, file.form, &new)?;
    let kept = kept(alloc, &after.modules, mendings)?;
    push_kept(alloc, file, &kept, text)
}

fn of_file<'a>(
    alloc: Global,
    file: usize,
    mendings: &[Mending<'a>],
) -> Result<Vec<Mending<'a>>, AllocError>
    ensures { IfOk result (λ own. own.items ≡ filter (λ m. m.file == file) mendings.now) }
{
    mendings
        .iter()
        .copied()
        .filter(|mending| mending.file == file)
        .collect(alloc)
}

/// The mendings of the file at a position.
fn mendings_in<'a>(
    alloc: Global,
    file: usize,
    mendings: &[Mending<'a>],
) -> Result<Vec<Mending<'a>>, AllocError>
    ensures { IfOk result (λ own. mendings_view own.items ≡ mendings_in file (mendings_view mendings.now)) }
{
    let own = of_file(alloc, file, mendings)?;
    Ok(own)
}

/// The bytes of the file at a position; none if it is too long or has a NUL byte.
#[tactic(auto, unfolding(pam_findings::specs::misspelled::Spots::after_feeds))]
fn bytes_of(files: &Files, file: usize) -> &[u8]
    ensures { result.now ≡ bytes_of files.now (Some file) }
{
    let mut cursor = Cursor::new(files);
    cursor.seek(Some(file), 1);
    cursor.rest()
}

/// Appends the diff of the file at a position.
fn push_file(
    alloc: Global,
    files: &Files,
    names: &Names<'_>,
    mendings: &[Mending<'_>],
    file: usize,
    text: &mut Vec<u8>,
) -> Result<(), AllocError>
    ensures { OnOk result (text.new.items
        ≡ text.old.items ++ file_diff files.now (names_view names.now).paths (mendings_view mendings.now) file) }
{
    let path = patch_path(path_of(names, Some(file)));
    if !is_named(path) {
        return Ok(());
    }
    let own = mendings_in(alloc, file, mendings)?;
    let mended = Mended {
        form: files.form(),
        path,
        old: bytes_of(files, file),
    };
    push_own(alloc, mended, &own, text)
}

/// The diffs of files with these mendings.
fn diffs(
    alloc: Global,
    files: &Files,
    names: &Names<'_>,
    mendings: &[Mending<'_>],
) -> Result<Vec<u8>, AllocError>
    ensures { IfOk result (λ text. text.items ≡ diffs files.now (names_view names.now).paths (mendings_view mendings.now)) }
{
    let mut text = Vec::new(alloc);
    for file in 0..files.len() {
        push_file(alloc, files, names, mendings, file, &mut text)?;
    }
    Ok(text)
}

/// The patch of a check whose files are these.
fn patch_in(alloc: Global, files: &Files, reply: &CheckReply<'_>) -> Result<Vec<u8>, AllocError>
    ensures { IfOk result (λ text. text.items ≡ patch_by files.now (check_view reply.now)) }
{
    let names = names_of(alloc, reply)?;
    let mendings = mendings_of(alloc, files, &reply.found, &reply.misspelled)?;
    let text = diffs(alloc, files, &names, &mendings)?;
    Ok(text)
}

/// The same, where there may be no files.
fn patch_of(alloc: Global, reply: &CheckReply<'_>) -> Result<Vec<u8>, AllocError>
    ensures { IfOk result (λ text. text.items ≡ check_patch (check_view reply.now)) }
{
    match reply.files {
        Some(files) => patch_in(alloc, files, reply),
        None => patch_in(alloc, &Files::new(alloc, Form::Dir), reply),
    }
}

fn write_text<W: Write>(text: &[u8], out: &mut Out<W>) -> Result<(), Device>
    ensures { WritesAndFlushes W.contents out.old out.new result text.now }
{
    out.put(text)?;
    out.finish()
}

/// Writes the patch of a check, and flushes. Allocates all of it before the first byte.
// Not inlined, so that a command uses no stack for the values of the others.
#[inline(never)]
pub fn write_patch<W: Write>(
    alloc: Global,
    reply: &CheckReply<'_>,
    out: &mut Out<W>,
) -> Result<(), Fault>
    ensures { PrintsBy W.contents IsPatch out.old out.new result (Check (check_view reply.now)) }
{
    match patch_of(alloc, reply) {
        Ok(text) => with_write_fault(write_text(&text, out)),
        Err(_) => Err(Fault::Memory),
    }
}

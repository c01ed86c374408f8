//! From words and files to the answer.

ghost use Rattle.std.specs.Prelude.{◌≡◌, IfOk, OnErr, map, zip};
ghost use Rattle.pam_web.specs.Files.{file_view};
ghost use Rattle.pam_web.specs.Run.{Answers, EndsRead, files_passed, words_passed};

use crate::entries::File;
use crate::memory::Memory;
use crate::texts::{Packed, words_of};
use pam_cli::{refuse, run};
use pam_codes::Out;
use pam_words::Usage;
use std::alloc::{AllocError, Global};
use std::io::Write;

/// What is passed: the words, the path of each file, and its bytes.
#[derive(Clone, Copy)]
pub(crate) struct Passed<'a> {
    pub(crate) words: Packed<'a>,
    pub(crate) paths: Packed<'a>,
    pub(crate) contents: Packed<'a>,
}

/// Returns the files. A path without contents is left out.
fn files_of<'a>(
    alloc: Global,
    paths: &[&'a [u8]],
    contents: &[&'a [u8]],
) -> Result<Vec<File<'a>>, AllocError>
    ensures { IfOk result (λ files. map file_view files.items ≡ zip (map (λ p. p.now) paths.now) (map (λ c. c.now) contents.now)) }
{
    let mut files = Vec::new(alloc);
    for position in 0..paths.len().min(contents.len()) {
        files.push(File {
            path: paths[position],
            bytes: contents[position],
        })?;
    }
    Ok(files)
}

/// Answers these words over these files, and returns the status.
fn answer_texts<W: Write, V: Write>(
    alloc: Global,
    words: &[&[u8]],
    files: &[File<'_>],
    out: &mut Out<W>,
    err: &mut Out<V>,
) -> Result<u8, AllocError>
    ensures run { IfOk result (λ status. EndsRead (map file_view files.now) W.contents out.old out.new status (map (λ w. w.now) words.now)) }
    ensures err { OnErr result (out.new ≡ out.old) }
{
    match words_of(alloc, words)? {
        Some(words) => Ok(run(&Memory { files }, alloc, &words, out, err)),
        None => Ok(refuse(alloc, &Usage::NotUtf8, err)),
    }
}

fn answer_packed<W: Write, V: Write>(
    alloc: Global,
    passed: Passed<'_>,
    out: &mut Out<W>,
    err: &mut Out<V>,
) -> Result<u8, AllocError>
    ensures run { IfOk result (λ status. EndsRead (files_passed passed.entry) W.contents out.old out.new status (words_passed passed.entry)) }
    ensures err { OnErr result (out.new ≡ out.old) }
{
    let words = passed.words.texts(alloc)?;
    let paths = passed.paths.texts(alloc)?;
    let contents = passed.contents.texts(alloc)?;
    let files = files_of(alloc, &paths, &contents)?;
    answer_texts(alloc, &words, &files, out, err)
}

/// Answers the words over the files, and returns the status.
pub(crate) fn answer<W: Write, V: Write>(
    alloc: Global,
    passed: Passed<'_>,
    out: &mut Out<W>,
    err: &mut Out<V>,
) -> u8
    ensures { Answers (files_passed passed.entry) W.contents out.old out.new result (words_passed passed.entry) }
{
    match answer_packed(alloc, passed, out, err) {
        Ok(status) => status,
        Err(_) => refuse(alloc, &Usage::Memory, err),
    }
}

//! Files in memory, in the place of a system.

ghost use Rattle.std.specs.Prelude.{◌≡◌, ◌∷◌, ◌++◌, [], IfOk, OnOk, map, string_bytes, take};
ghost use Rattle.std.specs.Option.{option_map};
ghost use Rattle.std.specs.Path.{path_buf_bytes};
ghost use Rattle.pam_cli.specs.System.{front, place_view, shown};
ghost use Rattle.pam_web.specs.Files.{AreEntries, AreNames, bytes_of, is_folder, memory_view, told_of};

use crate::entries::{File, entries_after, is_any_below};
use pam_cli::{Found, Held, Place, System};
use pam_text::MAX_FILE_BYTES;
use std::alloc::{AllocError, Global};
use std::io;
use std::io::ErrorKind;
use std::path::{Path, PathBuf};

/// The most bytes that are read of a file: one more than a file may have, so that a longer one is noticed.
const READ_LIMIT: usize = MAX_FILE_BYTES + 1;

/// Files in memory. A folder is there if a file is below it. No file is a link.
#[derive(Clone, Copy)]
pub struct Memory<'a> {
    pub files: &'a [File<'a>],
}

/// The first bytes, at most as many as `count`.
#[tactic(auto, using(crate::proofs::Firsts::take_fewer))]
pub(crate) fn first(bytes: &[u8], count: usize) -> &[u8]
    ensures { result.now ≡ take count bytes.now }
{
    &bytes[..count.min(bytes.len())]
}

/// The bytes of a file as far as one is read.
fn front(bytes: &[u8]) -> &[u8]
    ensures { result.now ≡ front bytes.now }
{
    first(bytes, READ_LIMIT)
}

/// The path of a place. No link leads out of a root.
fn path_of(alloc: Global, place: Place<'_>) -> Result<PathBuf, AllocError>
    ensures { IfOk result (λ path. path_buf_bytes path ≡ shown (place_view place.entry)) }
{
    match place {
        Place::Named(path) => PathBuf::from_str(alloc, path),
        Place::Below { root, path } => Path::new(root).join(alloc, path),
    }
}

/// Whether a path goes on after this one, which is that of a file.
fn is_through(file: &[u8], path: &[u8]) -> bool {
    match path.strip_prefix(file) {
        Some(rest) => rest.starts_with(b"/"),
        None => false,
    }
}

impl<'a> Memory<'a> {
    /// The bytes of the first file with this path.
    fn bytes_of(&self, path: &[u8]) -> Option<&'a [u8]>
        ensures { option_map (λ b. b.now) result ≡ bytes_of (memory_view self.now) path.now }
    {
        for file in self.files {
            if file.path == path {
                return Some(file.bytes);
            }
        }
        None
    }

    /// Whether a file is below this path.
    fn is_folder(&self, alloc: Global, path: &str) -> Result<bool, AllocError>
        ensures { IfOk result (λ r. r ≡ is_folder (memory_view self.now) path.now) }
    {
        let start = Path::new(path).join(alloc, "")?;
        Ok(is_any_below(self.files, start.as_str().as_bytes()))
    }

    /// Returns why nothing is below this path: it goes through a file, or there is nothing.
    fn why_nothing(&self, path: &[u8]) -> ErrorKind {
        for file in self.files {
            if is_through(file.path, path) {
                return ErrorKind::NotADirectory;
            }
        }
        ErrorKind::NotFound
    }

    /// Returns why no file has this path, which a folder may have.
    fn why_no_file(&self, alloc: Global, path: &str) -> Result<ErrorKind, AllocError> {
        if self.is_folder(alloc, path)? {
            Ok(ErrorKind::IsADirectory)
        } else {
            Ok(self.why_nothing(path.as_bytes()))
        }
    }

    /// Returns the names by which the paths that begin with this text go on, in ascending byte order. None is an error.
    fn names_from(&self, alloc: Global, start: &[u8]) -> io::Result<Vec<&'a [u8]>>
        ensures { IfOk result (λ names. AreNames (memory_view self.now) start.now (map (λ n. n.now) names.items)) }
    {
        if is_any_below(self.files, start) {
            let names = entries_after(alloc, self.files, start)?;
            return Ok(names);
        }
        Err(io::Error::from(self.why_nothing(start)))
    }

    /// Returns the names of the entries of a folder, in ascending byte order.
    fn names_in(&self, alloc: Global, folder: Place<'_>) -> io::Result<Vec<&'a [u8]>>
        ensures { IfOk result (λ names. AreEntries (memory_view self.now) (shown (place_view folder.entry)) (map (λ n. n.now) names.items)) }
    {
        let path = path_of(alloc, folder)?;
        let start = path.join(alloc, "")?;
        self.names_from(alloc, start.as_str().as_bytes())
    }
}

fn push_name(alloc: Global, names: &mut Vec<String>, name: &[u8]) -> io::Result<()>
    ensures { OnOk result (map string_bytes names.new.items ≡ map string_bytes names.old.items ++ name.now ∷ []) }
{
    match std::str::from_utf8(name) {
        Ok(name) => {
            names.push(String::from_str(alloc, name)?)?;
            Ok(())
        }
        Err(_) => Err(io::Error::from(ErrorKind::InvalidData)),
    }
}

/// Returns these names as texts. One that is not UTF-8 is an error.
fn texts_of(alloc: Global, names: &[&[u8]]) -> io::Result<Vec<String>>
    ensures { IfOk result (λ texts. map string_bytes texts.items ≡ map (λ n. n.now) names.now) }
{
    let mut texts = Vec::new(alloc);
    for name in names {
        push_name(alloc, &mut texts, name)?;
    }
    Ok(texts)
}

/// Returns copies of these names.
fn copies_of(alloc: Global, names: &[&[u8]]) -> Result<Vec<Vec<u8>>, AllocError>
    ensures { IfOk result (λ copies. map (λ c. c.items) copies.items ≡ map (λ n. n.now) names.now) }
{
    let mut copies = Vec::new(alloc);
    for name in names {
        copies.push(Vec::from_slice(alloc, name)?)?;
    }
    Ok(copies)
}

impl System for Memory<'_> {
    ghost told = { λ memory. told_of (memory_view memory) };

    fn file(&self, alloc: Global, path: &str) -> io::Result<Vec<u8>> {
        match self.bytes_of(path.as_bytes()) {
            Some(bytes) => Ok(Vec::from_slice(alloc, front(bytes))?),
            None => Err(io::Error::from(self.why_no_file(alloc, path)?)),
        }
    }

    fn entries(&self, alloc: Global, folder: Place<'_>) -> io::Result<Vec<String>> {
        let names = self.names_in(alloc, folder)?;
        let texts = texts_of(alloc, &names)?;
        Ok(texts)
    }

    fn names(&self, alloc: Global, folder: Place<'_>) -> io::Result<Vec<Vec<u8>>> {
        let names = self.names_in(alloc, folder)?;
        Ok(copies_of(alloc, &names)?)
    }

    fn look(&self, alloc: Global, place: Place<'_>) -> io::Result<Found> {
        let path = path_of(alloc, place)?;
        if self.bytes_of(path.as_str().as_bytes()).is_some() {
            return Ok(Found::File);
        }
        if self.is_folder(alloc, path.as_str())? {
            Ok(Found::Folder)
        } else {
            Ok(Found::Nothing)
        }
    }

    fn held(&self, alloc: Global, place: Place<'_>) -> io::Result<Held> {
        let path = path_of(alloc, place)?;
        if let Some(bytes) = self.bytes_of(path.as_str().as_bytes()) {
            return Ok(Held::Bytes(Vec::from_slice(alloc, front(bytes))?));
        }
        if self.is_folder(alloc, path.as_str())? {
            Ok(Held::Other)
        } else {
            Ok(Held::Nothing)
        }
    }

    fn leads_out(&self, _alloc: Global, _folder: &str, _name: &[u8]) -> Result<bool, AllocError> {
        Ok(false)
    }
}

//! The running system, asked by its own calls. No contract can say what these give, so what is here is tested only.

ghost use Rattle.std.specs.Prelude.{◌≡◌, IfOk, IfSome, string_bytes};
ghost use Rattle.std.specs.Cmp.Lexicographic.{slice_cmp};
ghost use Rattle.std.specs.List.Sorted.{IsSortedByKey};
ghost use Rattle.std.specs.Ordering.{nat_cmp};
ghost use Rattle.pam_cli.specs.System.{anything, front};

mod inside;
mod links;
mod names;

use crate::system::{Found, Held, Place, System};
pub(crate) use inside::is_of_target;
use inside::reached_below;
use links::leads_out;
use names::names_in;
use pam_text::MAX_FILE_BYTES;
use std::alloc::{AllocError, Global};
use std::fs::{Metadata, OpenFile};
use std::io::{ErrorKind, Read};
use std::path::{Path, PathBuf};
use std::rt::Files;
use std::{fs, io};

/// The most bytes read from a file: one more than a table or configuration file may have, so that a longer file is
/// noticed.
const READ_LIMIT: u64 = MAX_FILE_BYTES as u64 + 1;

/// The system on which the program runs.
#[derive(Drop)]
pub struct Host<'a, R> {
    rt: &'a R,
}

impl<'a, R> Host<'a, R> {
    pub fn new(rt: &'a R) -> Host<'a, R> {
        Host { rt }
    }
}

/// Reads an open file as far as a file is read. The system says that it has `len` bytes, which may be wrong: a device has none, and
/// a file can grow.
pub fn front_of<F: Read + Drop>(alloc: Global, file: F, len: u64) -> io::Result<Vec<u8>>
    ensures { IfOk result (λ bytes. IfSome (F.remaining file) (λ all. bytes.items ≡ front all)) }
{
    // Room for one byte more, so that the end is found without growing.
    let mut bytes = Vec::with_capacity(alloc, len.min(READ_LIMIT) as usize + 1)?;
    file.take(READ_LIMIT).read_to_end(&mut bytes)?;
    Ok(bytes)
}

/// Reads the file of this name, whatever its type is.
fn bytes_at<R: Files>(rt: &R, alloc: Global, name: &str) -> io::Result<Vec<u8>> {
    let file = fs::open(rt, Path::new(name))?;
    let len = file.metadata()?.len();
    front_of(alloc, file, len)
}

fn is_link<R: Files>(rt: &R, path: Path<'_>) -> bool {
    match fs::symlink_metadata(rt, path) {
        Ok(metadata) => metadata.is_symlink(),
        Err(_) => false,
    }
}

/// Whether this error, met at a path, says that it is a link that leads nowhere, or that nothing is there. A link whose
/// target may not be looked at leads somewhere.
fn leads_nowhere<R: Files>(rt: &R, path: Path<'_>, error: &io::Error) -> bool {
    error.kind() == ErrorKind::NotFound || (is_of_target(error) && is_link(rt, path))
}

/// Returns what the system says of a path after links are followed. Returns `None` if it leads nowhere.
fn metadata_at<R: Files>(rt: &R, path: Path<'_>) -> io::Result<Option<Metadata>> {
    match fs::metadata(rt, path) {
        Ok(metadata) => Ok(Some(metadata)),
        Err(error) => {
            if leads_nowhere(rt, path, &error) {
                Ok(None)
            } else {
                Err(error)
            }
        }
    }
}

/// What is at a path, after links are followed by the system.
fn found_at<R: Files>(rt: &R, path: Path<'_>) -> io::Result<Found> {
    match metadata_at(rt, path)? {
        None => Ok(Found::Nothing),
        Some(metadata) if metadata.is_dir() => Ok(Found::Folder),
        Some(metadata) if metadata.is_file() => Ok(Found::File),
        Some(_) => Ok(Found::Other),
    }
}

/// What is at a path, after links are followed by the system, with the bytes of a regular file.
fn held_at<R: Files>(rt: &R, alloc: Global, path: Path<'_>) -> io::Result<Held> {
    match metadata_at(rt, path)? {
        None => Ok(Held::Nothing),
        // What is no regular file is not opened: a FIFO has no end.
        Some(metadata) if !metadata.is_file() => Ok(Held::Other),
        Some(_) => held_in(alloc, fs::open(rt, path)?),
    }
}

/// Reads an open file, if it is a regular one. It may be another than the one that was looked at.
fn held_in<F: Read + OpenFile + Drop>(alloc: Global, file: F) -> io::Result<Held> {
    let metadata = file.metadata()?;
    if !metadata.is_file() {
        return Ok(Held::Other);
    }
    Ok(Held::Bytes(front_of(alloc, file, metadata.len())?))
}

fn push_name(alloc: Global, names: &mut Vec<String>, name: &str) -> Result<(), AllocError> {
    let name = String::from_str(alloc, name)?;
    names.push(name)?;
    Ok(())
}

/// Returns the names of the entries of a folder, in ascending byte order.
fn entry_names<R: Files + AllocGlobal + Clone + Drop>(
    rt: &R,
    alloc: Global,
    folder: &str,
) -> io::Result<Vec<String>>
    ensures { IfOk result (λ names. IsSortedByKey string_bytes (slice_cmp nat_cmp) names.items) }
{
    let mut names = Vec::new(alloc);
    for entry in fs::read_dir(rt, folder)? {
        push_name(alloc, &mut names, entry?.file_name())?;
    }
    names.sort()?;
    Ok(names)
}

/// Returns the path by which a place is reached, or `None` if it leads nowhere.
fn reached<R: Files>(rt: &R, alloc: Global, place: Place<'_>) -> io::Result<Option<PathBuf>> {
    match place {
        Place::Named(path) => Ok(Some(PathBuf::from_str(alloc, path)?)),
        // No link leads out of `/` by itself.
        Place::Below { root, path } if root == "/" => Ok(Some(Path::new(root).join(alloc, path)?)),
        Place::Below { root, path } => reached_below(rt, alloc, root, path),
    }
}

/// Returns the path by which a folder is reached.
fn reached_folder<R: Files>(rt: &R, alloc: Global, folder: Place<'_>) -> io::Result<PathBuf> {
    match reached(rt, alloc, folder)? {
        Some(path) => Ok(path),
        None => Err(io::Error::from(ErrorKind::NotFound)),
    }
}

impl<R: Files + AllocGlobal + Clone + Drop> System for Host<'_, R> {
    ghost told = { λ _. anything };

    fn file(&self, alloc: Global, path: &str) -> io::Result<Vec<u8>> {
        bytes_at(self.rt, alloc, path)
    }

    fn entries(&self, alloc: Global, folder: Place<'_>) -> io::Result<Vec<String>> {
        let path = reached_folder(self.rt, alloc, folder)?;
        entry_names(self.rt, alloc, path.as_str())
    }

    fn names(&self, alloc: Global, folder: Place<'_>) -> io::Result<Vec<Vec<u8>>> {
        let path = reached_folder(self.rt, alloc, folder)?;
        names_in(self.rt, alloc, path.as_str())
    }

    fn look(&self, alloc: Global, place: Place<'_>) -> io::Result<Found> {
        match reached(self.rt, alloc, place)? {
            Some(path) => found_at(self.rt, path.as_path()),
            None => Ok(Found::Nothing),
        }
    }

    fn held(&self, alloc: Global, place: Place<'_>) -> io::Result<Held> {
        match reached(self.rt, alloc, place)? {
            Some(path) => held_at(self.rt, alloc, path.as_path()),
            None => Ok(Held::Nothing),
        }
    }

    fn leads_out(&self, alloc: Global, folder: &str, name: &[u8]) -> Result<bool, AllocError> {
        // `std::path` cannot name an entry whose name is not UTF-8.
        let Ok(name) = std::str::from_utf8(name) else {
            return Ok(true);
        };
        match leads_out(self.rt, alloc, folder, name) {
            Ok(out) => Ok(out),
            Err(error) if error.kind() == ErrorKind::OutOfMemory => Err(AllocError),
            Err(_) => Ok(true),
        }
    }
}

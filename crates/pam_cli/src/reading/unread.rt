//! Looks for the files of a source that cannot be read.

ghost use Rattle.std.specs.Prelude.{◌≡◌, ◌++◌, ◌∷◌, [], IfErr, IfOk, OnOk, is_some, length, map};
ghost use Rattle.pam_conf.specs.declared.rule.Form.TheVariants.{Dir};
ghost use Rattle.pam_cli.specs.Sources.{IsInSource, IsUnread};
ghost use Rattle.pam_conf.specs.Files.{bytes_at};
ghost use Rattle.pam_cli.specs.System.{bytes, entry_at, place_view};
ghost use Rattle.pam_cli.specs.UnreadFiles.{AreOfRoot, AreUnread, AreUnreadIn, IsOneRead, IsReadAt, home_at};
ghost use Rattle.pam_cli.specs.inner.UnreadFiles.{IsEmptyUnless};
ghost use Rattle.pam_words.specs.Wanted.{candidate_view};

use crate::reading::files::{look, unread_at};
use crate::reading::links::is_candidate;
use crate::reading::sources::{Configuration, FILE, FOLDER, VENDOR};
use crate::system::{Found, Held, Place, System};
use pam_conf::{Files, Form};
use pam_report::{InputError, ReadFault};
use pam_words::{Candidate, ConfSource};
use std::alloc::Global;
use std::io;
use std::io::ErrorKind;

/// The files that cannot be read.
#[derive(Drop)]
pub(super) struct UnreadFiles {
    /// Of each file, by its position, whether it is one.
    pub(super) at: Vec<bool>,
    /// Why each of them cannot be read.
    pub(super) errors: Vec<InputError>,
}

impl UnreadFiles {
    fn none(alloc: Global) -> UnreadFiles
        ensures { result.at.items ≡ [] }
    {
        UnreadFiles {
            at: Vec::new(alloc),
            errors: Vec::new(alloc),
        }
    }
}

/// Returns why a place where a file without a byte is cannot be read; `None` if it can, and still has no byte.
fn why_unread<S: System>(
    system: &S,
    alloc: Global,
    place: Place<'_>,
) -> Result<Option<InputError>, InputError>
    ensures { IfOk result (λ why. IsEmptyUnless (S.told system.now) (place_view place.entry) (is_some why)) }
{
    let error = match system.held(alloc, place) {
        Ok(Held::Bytes(bytes)) if bytes.is_empty() => return Ok(None),
        // It is another file by now.
        Ok(_) => io::Error::from(ErrorKind::Other),
        Err(error) => error,
    };
    match unread_at(alloc, place, &error) {
        InputError::Memory => Err(InputError::Memory),
        why => Ok(Some(why)),
    }
}

/// Returns why the entry of a folder where a file without a byte is cannot be read.
fn why_entry_unread<S: System>(
    system: &S,
    alloc: Global,
    folder: Place<'_>,
    name: &[u8],
) -> Result<Option<InputError>, InputError>
    ensures { IfOk result (λ why. IsEmptyUnless (S.told system.now) (entry_at (place_view folder.entry) name.now) (is_some why)) }
{
    let Ok(name) = std::str::from_utf8(name) else {
        return Ok(Some(InputError::Read(String::new(alloc), ReadFault::Failed)));
    };
    let path = folder.entry_path(alloc, name)?;
    why_unread(system, alloc, folder.with_path(path.as_str()))
}

/// Returns why a file of a folder cannot be read. That of a candidate was read as the words name it.
fn why_file_unread<S: System>(
    system: &S,
    alloc: Global,
    folder: Place<'_>,
    name: &[u8],
    bytes: &[u8],
    is_of_candidate: bool,
) -> Result<Option<InputError>, InputError>
    ensures { IfOk result (λ why. IsReadAt (S.told system.now) (place_view folder.entry) (name.now, bytes.now) is_of_candidate (is_some why)) }
{
    if is_of_candidate || !bytes.is_empty() {
        return Ok(None);
    }
    why_entry_unread(system, alloc, folder, name)
}

/// The folder from which the file at a position was read.
fn home_at<'a>(
    folder: Place<'a>,
    vendor: Place<'a>,
    vendor_start: usize,
    position: usize,
) -> Place<'a>
    ensures { place_view result ≡ home_at (place_view folder.entry) (place_view vendor.entry) vendor_start position }
{
    if position < vendor_start {
        folder
    } else {
        vendor
    }
}

/// Adds whether one more file cannot be read, and why.
fn put(found: &mut UnreadFiles, why: Option<InputError>) -> Result<(), InputError>
    ensures { OnOk result (found.new.at.items ≡ found.old.at.items ++ is_some why ∷ []) }
{
    match why {
        Some(error) => {
            found.errors.push(error)?;
            found.at.push(true)?;
        }
        None => found.at.push(false)?,
    }
    Ok(())
}

/// Says of each file of two folders whether it cannot be read.
fn unread_in<S: System>(
    system: &S,
    alloc: Global,
    candidates: &[Candidate<'_>],
    folder: Place<'_>,
    vendor: Place<'_>,
    read: &Configuration,
) -> Result<UnreadFiles, InputError>
    ensures { IfOk result (λ found. AreUnread (S.told system.now) (map candidate_view candidates.now) (place_view folder.entry)
        (place_view vendor.entry) read.now.vendor_start read.now.files.entries (length read.now.files.entries) found.at.items) }
{
    let mut found = UnreadFiles::none(alloc);
    for position in 0..read.files.len() {
        let name = read.files.name(position).unwrap();
        let bytes = read.files.bytes(position).unwrap();
        let home = home_at(folder, vendor, read.vendor_start, position);
        let given = is_candidate(candidates, name);
        let why = why_file_unread(system, alloc, home, name, bytes, given)?;
        put(&mut found, why)?;
    }
    Ok(found)
}

/// Requires that a file without a byte at a place can be read.
fn require_empty<S: System>(system: &S, alloc: Global, place: Place<'_>) -> Result<(), InputError>
    ensures { IfOk result (λ _. (S.told system.now).held (place_view place.entry) (bytes [])) }
{
    match why_unread(system, alloc, place)? {
        Some(error) => Err(error),
        None => Ok(()),
    }
}

/// Requires that the one file of a system, if it is there and has no byte, can be read.
fn require_file<S: System>(
    system: &S,
    alloc: Global,
    root: &str,
    files: &Files,
) -> Result<(), InputError>
    ensures { IfOk result (λ _. IsOneRead (S.told system.now) root.now (bytes_at 0 files.now.entries)) }
{
    match files.bytes(0) {
        Some(bytes) if bytes.is_empty() => {
            require_empty(system, alloc, Place::Below { root, path: FILE })
        }
        _ => Ok(()),
    }
}

/// Says of each file of the folders of a system whether it cannot be read.
fn unread_of_root<S: System>(
    system: &S,
    alloc: Global,
    candidates: &[Candidate<'_>],
    root: &str,
    read: &Configuration,
) -> Result<UnreadFiles, InputError>
    ensures { IfOk result (λ found. AreOfRoot (S.told system.now) (map candidate_view candidates.now) root.now Dir read.now.files.entries
        read.now.vendor_start found.at.items) }
{
    let first = Place::Below { root, path: FOLDER };
    let second = Place::Below { root, path: VENDOR };
    match look(system, alloc, first)? {
        Found::Folder => unread_in(system, alloc, candidates, first, second, read),
        Found::Nothing | Found::File | Found::Other => {
            unread_in(system, alloc, candidates, second, second, read)
        }
    }
}

/// The same of a system, whose one file has to be read if it has no folders.
fn unread_below<S: System>(
    system: &S,
    alloc: Global,
    candidates: &[Candidate<'_>],
    root: &str,
    read: &Configuration,
) -> Result<UnreadFiles, InputError>
    ensures { IfOk result (λ found. AreOfRoot (S.told system.now) (map candidate_view candidates.now) root.now read.now.files.form
        read.now.files.entries read.now.vendor_start found.at.items) }
{
    match read.files.form() {
        Form::Dir => unread_of_root(system, alloc, candidates, root, read),
        Form::Single => {
            require_file(system, alloc, root, &read.files)?;
            Ok(UnreadFiles::none(alloc))
        }
    }
}

/// Says of each file of a source that was read by `GoingOn` whether it cannot be read. One file that is named has been read.
pub(super) fn unread_files<S: System>(
    system: &S,
    alloc: Global,
    source: ConfSource<'_>,
    candidates: &[Candidate<'_>],
    read: &Configuration,
) -> Result<UnreadFiles, InputError>
    ensures ok { IfOk result (λ found. AreUnreadIn (S.told system.now) (map candidate_view candidates.now) source.entry read.now.files
        read.now.vendor_start found.at.items) }
    ensures error { IfErr result (IsUnread (IsInSource source.entry)) }
{
    match source {
        ConfSource::Dir(folder) => {
            let home = Place::Named(folder);
            unread_in(system, alloc, candidates, home, home, read)
        }
        ConfSource::Over { folder, vendor } => unread_in(
            system,
            alloc,
            candidates,
            Place::Named(folder),
            Place::Named(vendor),
            read,
        ),
        ConfSource::Conf(_) => Ok(UnreadFiles::none(alloc)),
        ConfSource::Root(root) => unread_below(system, alloc, candidates, root, read),
    }
}

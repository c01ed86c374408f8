//! Reads the files that a request names, and says which cannot be read.

ghost use Rattle.std.specs.Prelude.{◌≡◌, IfErr, IfOk, MatchResult, map, string_bytes};
ghost use Rattle.std.specs.Cmp.Lexicographic.{slice_cmp};
ghost use Rattle.std.specs.List.Sorted.{IsSortedByKey};
ghost use Rattle.std.specs.Ordering.{nat_cmp};
ghost use Rattle.pam_cli.specs.Sources.{IsUnread};
ghost use Rattle.pam_cli.specs.System.{place_view, shown};

use crate::system::{Found, Place, System};
use pam_report::{InputError, ReadFault};
use std::alloc::Global;
use std::io;
use std::io::ErrorKind;

/// Why the system does not read what it is asked for.
fn why(error: &io::Error) -> ReadFault {
    match error.kind() {
        ErrorKind::NotFound => ReadFault::NotFound,
        ErrorKind::PermissionDenied => ReadFault::NotPermitted,
        ErrorKind::NotADirectory => ReadFault::NotFolder,
        ErrorKind::IsADirectory => ReadFault::IsFolder,
        ErrorKind::InvalidInput => ReadFault::NotFile,
        ErrorKind::FilesystemLoop => ReadFault::Looping,
        _ => ReadFault::Failed,
    }
}

/// Returns that the input of this name is not read.
pub(super) fn unread_as(alloc: Global, name: &str, why: ReadFault) -> InputError
    ensures { IsUnread (λ n. n ≡ name.now) result }
{
    match String::from_str(alloc, name) {
        Ok(name) => InputError::Read(name, why),
        Err(_) => InputError::Memory,
    }
}

/// Converts a failed read of this name, which may be a failed allocation too.
pub(super) fn unread(alloc: Global, name: &str, error: &io::Error) -> InputError
    ensures { IsUnread (λ n. n ≡ name.now) result }
{
    if error.kind() == ErrorKind::OutOfMemory {
        return InputError::Memory;
    }
    unread_as(alloc, name, why(error))
}

/// Converts a failed read of a place.
pub(super) fn unread_at(alloc: Global, place: Place<'_>, error: &io::Error) -> InputError
    ensures { IsUnread (λ n. n ≡ shown (place_view place.entry)) result }
{
    match place.shown(alloc) {
        Ok(path) => unread(alloc, path.as_str(), error),
        Err(_) => InputError::Memory,
    }
}

/// Reads a file that the request names.
pub(super) fn named_file<S: System>(
    system: &S,
    alloc: Global,
    name: &str,
) -> Result<Vec<u8>, InputError>
    ensures { MatchResult result (λ bytes. (S.told system.now).file name.now bytes.items) (IsUnread (λ n. n ≡ name.now)) }
{
    match system.file(alloc, name) {
        Ok(bytes) => Ok(bytes),
        Err(error) => Err(unread(alloc, name, &error)),
    }
}

/// Returns the names of the entries of a folder, in ascending byte order.
pub(super) fn entries<S: System>(
    system: &S,
    alloc: Global,
    folder: Place<'_>,
) -> Result<Vec<String>, InputError>
    ensures names { IfOk result (λ names. (S.told system.now).entries (place_view folder.entry) (map string_bytes names.items)) }
    ensures order { IfOk result (λ names. IsSortedByKey string_bytes (slice_cmp nat_cmp) names.items) }
    ensures error { IfErr result (IsUnread (λ n. n ≡ shown (place_view folder.entry))) }
{
    match system.entries(alloc, folder) {
        Ok(names) => Ok(names),
        Err(error) => Err(unread_at(alloc, folder, &error)),
    }
}

/// Returns the names of the entries of a folder, in ascending byte order. Each may have any bytes.
pub(super) fn names<S: System>(
    system: &S,
    alloc: Global,
    folder: Place<'_>,
) -> Result<Vec<Vec<u8>>, InputError>
    ensures { IfErr result (IsUnread (λ n. n ≡ shown (place_view folder.entry))) }
{
    match system.names(alloc, folder) {
        Ok(names) => Ok(names),
        Err(error) => Err(unread_at(alloc, folder, &error)),
    }
}

/// Looks at a place.
pub(super) fn look<S: System>(
    system: &S,
    alloc: Global,
    place: Place<'_>,
) -> Result<Found, InputError>
    ensures { IfOk result ((S.told system.now).look (place_view place.entry)) }
{
    match system.look(alloc, place) {
        Ok(found) => Ok(found),
        Err(error) => Err(unread_at(alloc, place, &error)),
    }
}

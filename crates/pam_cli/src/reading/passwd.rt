//! Reads passwd files, whose users are members of the groups of their numbers too.

ghost use Rattle.std.specs.Prelude.{◌≡◌, ◌⊎◌, IfErr, IfOk, MatchResult, None, option_map};
ghost use Rattle.std.specs.Option.{option_copied};
ghost use Rattle.pam_cli.specs.Passwd.{IsGivenPasswd, IsNamedPasswd, IsOwnPasswd, IsPasswd, IsPasswdAt};
ghost use Rattle.pam_cli.specs.Reading.{IsNamed};
ghost use Rattle.pam_cli.specs.Sources.{IsInSource, IsUnread};
ghost use Rattle.pam_cli.specs.System.{place_view};
ghost use Rattle.pam_report.specs.Inputs.{bytes_of_table, path_of_table};
ghost use Rattle.pam_report.specs.Passwd.{with_users as with_users_in};
ghost use Rattle.pam_text.specs.Source.{source_fault};

use crate::reading::files::{named_file, unread_as};
use crate::reading::tables::table_at;
use crate::system::{Place, System};
use pam_report::{InputError, ReadFault, TableFile, with_primary_members};
use pam_text::{Source, SourceFault};
use pam_words::ConfSource;
use std::alloc::{AllocError, Global};

/// The passwd file of a system.
const PASSWD: &str = "etc/passwd";

/// Why a file with this fault is not read.
fn why(fault: SourceFault) -> ReadFault {
    match fault {
        SourceFault::TooLong => ReadFault::TooLong,
        SourceFault::NulByte(_) => ReadFault::NulByte,
    }
}

/// Checks the bytes of a passwd file of this name, of which not all are read if it is too long.
fn check_passwd(alloc: Global, name: &str, bytes: &[u8]) -> Result<(), InputError>
    ensures { MatchResult result (λ _. source_fault bytes.now ≡ None) (IsUnread (λ n. n ≡ name.now)) }
{
    match Source::of(bytes) {
        Ok(_) => Ok(()),
        Err(fault) => Err(unread_as(alloc, name, why(fault))),
    }
}

/// Reads the passwd file of this name.
fn named_passwd<S: System>(system: &S, alloc: Global, name: &str) -> Result<Vec<u8>, InputError>
    ensures { MatchResult result (IsNamedPasswd (S.told system.now) name.now) (IsUnread (λ n. n ≡ name.now)) }
{
    let bytes = named_file(system, alloc, name)?;
    check_passwd(alloc, name, &bytes)?;
    Ok(bytes)
}

/// Reads the passwd file at a place, if it is there.
fn passwd_at<S: System>(
    system: &S,
    alloc: Global,
    place: Place<'_>,
) -> Result<Option<Vec<u8>>, InputError>
    ensures { IfOk result (IsPasswdAt (S.told system.now) (place_view place.entry)) }
{
    let Some(table) = table_at(system, alloc, place)? else {
        return Ok(None);
    };
    let path = place.shown(alloc)?;
    check_passwd(alloc, path.as_str(), &table.bytes)?;
    Ok(Some(table.bytes))
}

/// Reads the passwd file of a source, if that is a system, the file is to be read, and it is there.
fn own_passwd<S: System>(
    system: &S,
    alloc: Global,
    source: ConfSource<'_>,
    is_read: bool,
) -> Result<Option<Vec<u8>>, InputError>
    ensures ok { IfOk result (IsOwnPasswd (S.told system.now) is_read source.entry) }
    ensures error { IfErr result (IsUnread (IsInSource source.entry)) }
{
    if !is_read {
        return Ok(None);
    }
    match source {
        ConfSource::Root(root) => passwd_at(system, alloc, Place::Below { root, path: PASSWD }),
        ConfSource::Dir(_) | ConfSource::Over { .. } | ConfSource::Conf(_) => Ok(None),
    }
}

/// Reads the passwd file, if one is named.
pub(super) fn optional_passwd<S: System>(
    system: &S,
    alloc: Global,
    name: Option<&str>,
) -> Result<Option<Vec<u8>>, InputError>
    ensures ok { IfOk result (IsGivenPasswd (S.told system.now) (option_copied name.entry)) }
    ensures error { IfErr result (IsUnread (IsNamed (option_copied name.entry))) }
{
    match name {
        Some(name) => Ok(Some(named_passwd(system, alloc, name)?)),
        None => Ok(None),
    }
}

/// Reads the passwd file that is named, or else that of the source, if that is to be read and is there.
pub(super) fn passwd_of<S: System>(
    system: &S,
    alloc: Global,
    source: ConfSource<'_>,
    named: Option<&str>,
    is_read: bool,
) -> Result<Option<Vec<u8>>, InputError>
    ensures ok { IfOk result (IsPasswd (S.told system.now) is_read source.entry (option_copied named.entry)) }
    ensures error { IfErr result (IsUnread (λ n. IsInSource source.entry n ⊎ IsNamed (option_copied named.entry) n)) }
{
    match named {
        Some(name) => Ok(Some(named_passwd(system, alloc, name)?)),
        None => own_passwd(system, alloc, source, is_read),
    }
}

/// Makes the users of a passwd file, if there is one, members of the groups of their numbers.
fn with_users(
    alloc: Global,
    groups: Vec<u8>,
    passwd: &Option<Vec<u8>>,
) -> Result<Vec<u8>, AllocError>
    ensures { IfOk result (λ joined. joined.items ≡ with_users_in groups.items (option_map (λ b. b.items) passwd.now)) }
{
    match passwd {
        Some(passwd) => with_primary_members(alloc, &groups, passwd),
        None => Ok(groups),
    }
}

/// Makes the users of a passwd file members in a group file, if there is one.
pub(super) fn file_with_users(
    alloc: Global,
    groups: Option<Vec<u8>>,
    passwd: &Option<Vec<u8>>,
) -> Result<Option<Vec<u8>>, AllocError>
    ensures { IfOk result (λ joined. option_map (λ b. b.items) joined
        ≡ option_map (λ b. with_users_in b.items (option_map (λ b. b.items) passwd.now)) groups) }
{
    match groups {
        Some(groups) => Ok(Some(with_users(alloc, groups, passwd)?)),
        None => Ok(None),
    }
}

/// Makes the users of a passwd file members in a group file with its path, if there is one.
pub(super) fn table_with_users(
    alloc: Global,
    groups: Option<TableFile>,
    passwd: &Option<Vec<u8>>,
) -> Result<Option<TableFile>, AllocError>
    ensures path { IfOk result (λ joined. path_of_table joined ≡ path_of_table groups) }
    ensures bytes { IfOk result (λ joined. bytes_of_table joined
        ≡ option_map (λ t. with_users_in t.bytes.items (option_map (λ b. b.items) passwd.now)) groups) }
{
    match groups {
        Some(TableFile { path, bytes }) => Ok(Some(TableFile {
            path,
            bytes: with_users(alloc, bytes, passwd)?,
        })),
        None => Ok(None),
    }
}

//! Reads the tables that modules of a host read: pam_access(8), pam_time(8).

ghost use Rattle.std.specs.Prelude.{◌≡◌, ◌⊎◌, IfErr, IfOk, MatchResult};
ghost use Rattle.std.specs.Option.{option_copied};
ghost use Rattle.pam_cli.specs.Reading.{AreTables, IsNamed, IsNamedTable, IsOfTables, IsOwnTable, IsTable, IsTableAt};
ghost use Rattle.pam_cli.specs.Sources.{IsInSource, IsUnread};
ghost use Rattle.pam_cli.specs.System.{place_view};

use crate::reading::access::access_files;
use crate::reading::files::{named_file, unread};
use crate::system::{Held, Place, System};
use pam_report::{InputError, TableFile, TableFiles};
use pam_words::{ConfSource, TableNames};
use std::alloc::Global;
use std::io;
use std::io::ErrorKind;

/// The group file of a system.
const GROUPS: &str = "etc/group";

/// The time table of a system.
const TIME: &str = "etc/security/time.conf";

/// What is looked up in the tables of a system.
#[derive(Clone, Copy)]
pub(super) struct LookedUp {
    /// A login, in the group file and the access tables.
    pub(super) login: bool,
    /// A login at a moment, in the time table.
    pub(super) moment: bool,
}

/// Reads a table that is named.
fn named_table<S: System>(system: &S, alloc: Global, name: &str) -> Result<TableFile, InputError>
    ensures { MatchResult result (IsNamedTable (S.told system.now) name.now) (IsUnread (λ n. n ≡ name.now)) }
{
    let bytes = named_file(system, alloc, name)?;
    let path = Vec::from_slice(alloc, name.as_bytes())?;
    Ok(TableFile { path, bytes })
}

/// Reads a table of a system, if it is there.
pub(super) fn table_at<S: System>(
    system: &S,
    alloc: Global,
    place: Place<'_>,
) -> Result<Option<TableFile>, InputError>
    ensures { IfOk result (IsTableAt (S.told system.now) (place_view place.entry)) }
{
    let path = place.shown(alloc)?;
    match system.held(alloc, place) {
        Ok(Held::Bytes(bytes)) => {
            let path = Vec::from_slice(alloc, path.as_str().as_bytes())?;
            Ok(Some(TableFile { path, bytes }))
        }
        Ok(Held::Nothing) => Ok(None),
        Ok(Held::Other) => Err(unread(
            alloc,
            path.as_str(),
            &io::Error::from(ErrorKind::InvalidInput),
        )),
        Err(error) => Err(unread(alloc, path.as_str(), &error)),
    }
}

/// Reads the table at this path below the root, if the source is a system, the table is to be read, and it is there.
fn own_table<S: System>(
    system: &S,
    alloc: Global,
    source: ConfSource<'_>,
    path: &str,
    is_read: bool,
) -> Result<Option<TableFile>, InputError>
    ensures ok { IfOk result (IsOwnTable (S.told system.now) is_read source.entry path.now) }
    ensures error { IfErr result (IsUnread (IsInSource source.entry)) }
{
    if !is_read {
        return Ok(None);
    }
    match source {
        ConfSource::Root(root) => table_at(system, alloc, Place::Below { root, path }),
        ConfSource::Dir(_) | ConfSource::Over { .. } | ConfSource::Conf(_) => Ok(None),
    }
}

/// Reads the table that is named, or else that of the root, if it is to be read and is there.
fn table_of<S: System>(
    system: &S,
    alloc: Global,
    source: ConfSource<'_>,
    named: Option<&str>,
    own: &str,
    is_read: bool,
) -> Result<Option<TableFile>, InputError>
    ensures ok { IfOk result (IsTable (S.told system.now) is_read source.entry own.now (option_copied named.entry)) }
    ensures error { IfErr result (IsUnread (λ n. IsInSource source.entry n ⊎ IsNamed (option_copied named.entry) n)) }
{
    match named {
        Some(name) => Ok(Some(named_table(system, alloc, name)?)),
        None => own_table(system, alloc, source, own, is_read),
    }
}

/// Reads the group file, the access tables and the time table that are named, or else those of the root that are there: the first two
/// if a login is looked up, and the time table if its moment is looked up too.
pub(super) fn table_files<S: System>(
    system: &S,
    alloc: Global,
    source: ConfSource<'_>,
    named: &TableNames<'_>,
    looked_up: LookedUp,
) -> Result<TableFiles, InputError>
    ensures ok { IfOk result (AreTables (S.told system.now) looked_up.login looked_up.moment source.entry named.now) }
    ensures error { IfErr result (IsUnread (λ n. IsInSource source.entry n ⊎ IsOfTables named.now n)) }
{
    let groups = table_of(system, alloc, source, named.groups, GROUPS, looked_up.login)?;
    let access = access_files(system, alloc, source, &named.access, looked_up.login)?;
    let time = table_of(system, alloc, source, named.time, TIME, looked_up.moment)?;
    Ok(TableFiles {
        groups,
        access,
        time,
    })
}

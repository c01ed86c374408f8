//! Reads the access tables that are named, or those of a system: pam_access(8).

ghost use Rattle.std.specs.Prelude.{◌≡◌, ◌∷◌, ◌⊎◌, [], IfErr, IfOk, OnOk, map, string_bytes};
ghost use Rattle.pam_text.specs.Members.{Member};
ghost use Rattle.pam_cli.specs.AccessTables.{AreAccess, AreNamed, AreNone, AreOfSource, AreOfSystem, is_table_name};
ghost use Rattle.pam_cli.specs.Sources.{IsInSource, IsUnread};
ghost use Rattle.pam_cli.specs.System.{place_view};
ghost use Rattle.pam_cli.specs.inner.AccessTables.{AddsEntries, AddsEntry, AddsFile, AddsFolder, AddsOwn, AddsTables};

use crate::reading::files::{entries, look, named_file, unread_at};
use crate::reading::tables::table_at;
use crate::system::{Found, Held, Place, System};
use pam_report::{AccessFiles, InputError};
use pam_text::Texts;
use pam_words::ConfSource;
use std::alloc::{AllocError, Global};

/// The access table of a system.
const TABLE: &str = "etc/security/access.conf";

/// The folder of the access tables that pam_access reads where no line of that one matches.
const FOLDER: &str = "etc/security/access.d";

/// Whether a file of this name in the folder is a table: `*.conf` for glob(7).
fn is_table_name(name: &[u8]) -> bool
    ensures { result ≡ is_table_name name.now }
{
    name.ends_with(b".conf") && !name.starts_with(b".")
}

/// Returns no tables.
fn no_tables(alloc: Global) -> AccessFiles
    ensures { AreNone result }
{
    AccessFiles {
        paths: Texts::new(alloc),
        contents: Texts::new(alloc),
    }
}

/// Adds a table with the path under which it was read.
fn put_table(tables: &mut AccessFiles, path: &[u8], bytes: &[u8]) -> Result<(), AllocError>
    ensures { OnOk result (AddsTables ((path.now, bytes.now) ∷ []) tables.old tables.new) }
{
    tables.paths.push(path)?;
    tables.contents.push(bytes)
}

/// Reads the tables that are named, in this order.
pub(super) fn named_access<S: System>(
    system: &S,
    alloc: Global,
    names: &[&str],
) -> Result<AccessFiles, InputError>
    ensures ok { IfOk result (AreNamed (S.told system.now) (map (λ n. n.now) names.now)) }
    ensures error { IfErr result (IsUnread (λ n. Member n (map (λ s. s.now) names.now))) }
{
    let mut tables = no_tables(alloc);
    for name in names {
        let bytes = named_file(system, alloc, name)?;
        put_table(&mut tables, name.as_bytes(), &bytes)?;
    }
    Ok(tables)
}

/// Adds the table at a place, if something is there.
fn put_own<S: System>(
    system: &S,
    alloc: Global,
    place: Place<'_>,
    tables: &mut AccessFiles,
) -> Result<(), InputError>
    ensures { OnOk result (AddsOwn (S.told system.now) (place_view place.entry) tables.old tables.new) }
{
    if let Some(table) = table_at(system, alloc, place)? {
        put_table(tables, &table.path, &table.bytes)?;
    }
    Ok(())
}

/// Adds the table at a place, if a regular file is there.
fn put_file<S: System>(
    system: &S,
    alloc: Global,
    place: Place<'_>,
    tables: &mut AccessFiles,
) -> Result<(), InputError>
    ensures { OnOk result (AddsFile (S.told system.now) (place_view place.entry) tables.old tables.new) }
{
    match system.held(alloc, place) {
        Ok(Held::Nothing | Held::Other) => Ok(()),
        Ok(Held::Bytes(bytes)) => {
            let path = place.shown(alloc)?;
            Ok(put_table(tables, path.as_str().as_bytes(), &bytes)?)
        }
        Err(error) => Err(unread_at(alloc, place, &error)),
    }
}

/// Adds an entry of a folder, if it has the name of a table and is a regular file.
fn put_entry<S: System>(
    system: &S,
    alloc: Global,
    folder: Place<'_>,
    name: &str,
    tables: &mut AccessFiles,
) -> Result<(), InputError>
    ensures { OnOk result (AddsEntry (S.told system.now) (place_view folder.entry) name.now tables.old tables.new) }
{
    if !is_table_name(name.as_bytes()) {
        return Ok(());
    }
    let path = folder.entry_path(alloc, name)?;
    put_file(system, alloc, folder.with_path(path.as_str()), tables)
}

/// Adds the tables among these entries of a folder, in turn.
fn put_entries<S: System>(
    system: &S,
    alloc: Global,
    folder: Place<'_>,
    names: &[String],
    tables: &mut AccessFiles,
) -> Result<(), InputError>
    ensures { OnOk result (AddsEntries (S.told system.now) (place_view folder.entry) (map string_bytes names.now) tables.old tables.new) }
{
    for name in names {
        put_entry(system, alloc, folder, name.as_str(), tables)?;
    }
    Ok(())
}

/// Adds the tables of a folder, if it is there, in ascending byte order of their names.
fn put_folder<S: System>(
    system: &S,
    alloc: Global,
    folder: Place<'_>,
    tables: &mut AccessFiles,
) -> Result<(), InputError>
    ensures { OnOk result (AddsFolder (S.told system.now) (place_view folder.entry) tables.old tables.new) }
{
    match look(system, alloc, folder)? {
        Found::Folder => {
            let names = entries(system, alloc, folder)?;
            put_entries(system, alloc, folder, &names, tables)
        }
        Found::Nothing | Found::File | Found::Other => Ok(()),
    }
}

/// Reads the tables of the system whose root is this folder.
fn system_access<S: System>(
    system: &S,
    alloc: Global,
    root: &str,
) -> Result<AccessFiles, InputError>
    ensures { IfOk result (AreOfSystem (S.told system.now) root.now) }
{
    let mut tables = no_tables(alloc);
    put_own(
        system,
        alloc,
        Place::Below { root, path: TABLE },
        &mut tables,
    )?;
    put_folder(
        system,
        alloc,
        Place::Below { root, path: FOLDER },
        &mut tables,
    )?;
    Ok(tables)
}

/// Reads the tables of a source, if it is a system whose tables are to be read.
fn source_access<S: System>(
    system: &S,
    alloc: Global,
    source: ConfSource<'_>,
    is_read: bool,
) -> Result<AccessFiles, InputError>
    ensures ok { IfOk result (AreOfSource (S.told system.now) is_read source.entry) }
    ensures error { IfErr result (IsUnread (IsInSource source.entry)) }
{
    if !is_read {
        return Ok(no_tables(alloc));
    }
    match source {
        ConfSource::Root(root) => system_access(system, alloc, root),
        ConfSource::Dir(_) | ConfSource::Over { .. } | ConfSource::Conf(_) => Ok(no_tables(alloc)),
    }
}

/// Reads the tables that are named, or else those of the root, if they are to be read.
pub(super) fn access_files<S: System>(
    system: &S,
    alloc: Global,
    source: ConfSource<'_>,
    named: &[&str],
    is_read: bool,
) -> Result<AccessFiles, InputError>
    ensures ok { IfOk result (AreAccess (S.told system.now) is_read source.entry (map (λ n. n.now) named.now)) }
    ensures error { IfErr result (IsUnread (λ n. IsInSource source.entry n ⊎ Member n (map (λ s. s.now) named.now))) }
{
    if named.is_empty() {
        return source_access(system, alloc, source, is_read);
    }
    named_access(system, alloc, named)
}

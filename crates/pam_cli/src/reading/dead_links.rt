//! Looks for the entries of a folder that are links which lead nowhere.

ghost use Rattle.std.specs.Prelude.{◌≡◌, [], IfErr, IfOk, OnOk, not};
ghost use Rattle.pam_cli.specs.DeadLinks.{AddsBoth, AddsBothFound, AddsDead, AddsFound, AreDead, IsDead};
ghost use Rattle.pam_cli.specs.inner.DeadLinks.{AddsEntry};
ghost use Rattle.pam_cli.specs.Sources.{IsInSource, IsUnread};
ghost use Rattle.pam_cli.specs.System.{is_there, place_view};

use crate::reading::files::{entries, look};
use crate::reading::sources::{FOLDER, VENDOR};
use crate::system::{Found, Place, System};
use pam_conf::{Files, NameList};
use pam_report::InputError;
use pam_words::ConfSource;
use std::alloc::Global;

/// Whether nothing is there.
fn is_nothing(found: Found) -> bool
    ensures { result ≡ not (is_there found) }
{
    match found {
        Found::Nothing => true,
        Found::Folder | Found::File | Found::Other => false,
    }
}

/// Whether the entry of a folder with this name leads nowhere. An entry that has the name of a file is not looked at.
fn is_dead<S: System>(
    system: &S,
    alloc: Global,
    folder: Place<'_>,
    files: &Files,
    name: &str,
) -> Result<bool, InputError>
    ensures { IfOk result (IsDead (S.told system.now) (place_view folder.entry) files.now.entries name.now) }
{
    if files.find(name.as_bytes()).is_some() {
        return Ok(false);
    }
    let path = folder.entry_path(alloc, name)?;
    Ok(is_nothing(look(system, alloc, folder.with_path(path.as_str()))?))
}

/// Adds the name of an entry, if it leads nowhere.
fn put_entry<S: System>(
    system: &S,
    alloc: Global,
    folder: Place<'_>,
    files: &Files,
    name: &str,
    dead: &mut NameList,
) -> Result<(), InputError>
    ensures { OnOk result (AddsEntry (S.told system.now) (place_view folder.entry) files.now.entries name.now dead.old dead.new) }
{
    if is_dead(system, alloc, folder, files, name)? {
        dead.add(alloc, name.as_bytes())?;
    }
    Ok(())
}

/// Adds the names of the entries of a folder that lead nowhere.
fn put_folder<S: System>(
    system: &S,
    alloc: Global,
    folder: Place<'_>,
    files: &Files,
    dead: &mut NameList,
) -> Result<(), InputError>
    ensures { OnOk result (AddsDead (S.told system.now) (place_view folder.entry) files.now.entries dead.old dead.new) }
{
    let names = entries(system, alloc, folder)?;
    for name in names {
        put_entry(system, alloc, folder, files, name.as_str(), dead)?;
    }
    Ok(())
}

/// Adds those of a folder that need not be there.
fn put_if_folder<S: System>(
    system: &S,
    alloc: Global,
    folder: Place<'_>,
    files: &Files,
    dead: &mut NameList,
) -> Result<(), InputError>
    ensures { OnOk result (AddsFound (S.told system.now) (place_view folder.entry) files.now.entries dead.old dead.new) }
{
    match look(system, alloc, folder)? {
        Found::Folder => put_folder(system, alloc, folder, files, dead),
        Found::Nothing | Found::File | Found::Other => Ok(()),
    }
}

/// Returns the names of the entries of a folder that lead nowhere.
fn dead_in<S: System>(
    system: &S,
    alloc: Global,
    folder: Place<'_>,
    files: &Files,
) -> Result<NameList, InputError>
    ensures { IfOk result (AddsDead (S.told system.now) (place_view folder.entry) files.now.entries []) }
{
    let mut dead = NameList::new(alloc);
    put_folder(system, alloc, folder, files, &mut dead)?;
    Ok(dead)
}

/// Returns those of a folder and of a second one.
fn dead_over<S: System>(
    system: &S,
    alloc: Global,
    folder: Place<'_>,
    vendor: Place<'_>,
    files: &Files,
) -> Result<NameList, InputError>
    ensures { IfOk result (AddsBoth (S.told system.now) (place_view folder.entry) (place_view vendor.entry) files.now.entries) }
{
    let mut dead = NameList::new(alloc);
    put_folder(system, alloc, folder, files, &mut dead)?;
    put_folder(system, alloc, vendor, files, &mut dead)?;
    Ok(dead)
}

/// Returns those of two folders that need not be there.
fn dead_below<S: System>(
    system: &S,
    alloc: Global,
    folder: Place<'_>,
    vendor: Place<'_>,
    files: &Files,
) -> Result<NameList, InputError>
    ensures { IfOk result (AddsBothFound (S.told system.now) (place_view folder.entry) (place_view vendor.entry) files.now.entries) }
{
    let mut dead = NameList::new(alloc);
    put_if_folder(system, alloc, folder, files, &mut dead)?;
    put_if_folder(system, alloc, vendor, files, &mut dead)?;
    Ok(dead)
}

/// Returns the names of the entries of a source, in ascending byte order, that lead nowhere. A name that a file of the source has is
/// none of them.
pub(super) fn dead_links<S: System>(
    system: &S,
    alloc: Global,
    source: ConfSource<'_>,
    files: &Files,
) -> Result<NameList, InputError>
    ensures ok { IfOk result (AreDead (S.told system.now) source.entry files.now.entries) }
    ensures error { IfErr result (IsUnread (IsInSource source.entry)) }
{
    match source {
        ConfSource::Dir(folder) => dead_in(system, alloc, Place::Named(folder), files),
        ConfSource::Over { folder, vendor } => dead_over(
            system,
            alloc,
            Place::Named(folder),
            Place::Named(vendor),
            files,
        ),
        ConfSource::Conf(_) => Ok(NameList::new(alloc)),
        ConfSource::Root(root) => {
            let folder = Place::Below { root, path: FOLDER };
            let vendor = Place::Below { root, path: VENDOR };
            dead_below(system, alloc, folder, vendor, files)
        }
    }
}

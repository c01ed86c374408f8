//! Looks for the modules that are there: pam.conf(5), module-path.

ghost use Rattle.std.specs.Prelude.{◌≡◌, ◌⊎◌, true, IfErr, IfOk, OnOk, map};
ghost use Rattle.pam_text.specs.Members.{Member};
ghost use Rattle.pam_cli.specs.Reading.{HasModules};
ghost use Rattle.pam_cli.specs.Sources.{IsInSource, IsUnread};
ghost use Rattle.pam_cli.specs.System.{place_view, shown};
ghost use Rattle.pam_cli.specs.inner.Reading.{KeepsKnown, known_with};

use crate::host::is_of_target;
use crate::reading::files::{look, names};
use crate::reading::module_paths::ModulePaths;
use crate::system::{Found, Place, System};
use pam_conf::{Files, NameList};
use pam_report::InputError;
use pam_words::ConfSource;
use std::alloc::{AllocError, Global};
use std::io::ErrorKind;

/// The folders of libraries of a system. A folder of modules is in one of these, or in a folder for one machine in one of these.
const LIBRARIES: [&str; 4] = ["lib", "lib64", "usr/lib", "usr/lib64"];

/// The name of a folder of modules.
const SECURITY: &str = "security";

/// Whether a module is at a place: a regular file. What may not be looked at counts as one.
fn is_module<S: System>(system: &S, alloc: Global, place: Place<'_>) -> Result<bool, AllocError> {
    match system.look(alloc, place) {
        Ok(Found::File) => Ok(true),
        Ok(Found::Nothing | Found::Folder | Found::Other) => Ok(false),
        Err(error) if error.kind() == ErrorKind::OutOfMemory => Err(AllocError),
        Err(error) => Ok(!is_of_target(&error)),
    }
}

/// The name in a module path for which Linux-PAM puts a folder of the same modules.
const ISA: &[u8] = b"$ISA";

/// Returns a module path without the names that stand for the folder before them.
fn without_isa(alloc: Global, path: &[u8]) -> Result<Vec<u8>, AllocError> {
    let mut plain = Vec::new(alloc);
    for name in path.split(|byte| *byte == b'/') {
        if name != ISA {
            plain.extend_from_slice(name)?;
            plain.push(b'/')?;
        }
    }
    // After the file there is no slash.
    plain.pop();
    Ok(plain)
}

/// Whether a module is at a path below a folder. A path that is not UTF-8 counts as there, since `std::path` cannot name it.
fn is_below<S: System>(
    system: &S,
    alloc: Global,
    folder: Place<'_>,
    path: &[u8],
) -> Result<bool, AllocError> {
    let Ok(path) = std::str::from_utf8(path) else {
        return Ok(true);
    };
    let path = folder.entry_path(alloc, path.trim_start_matches('/'))?;
    is_module(system, alloc, folder.with_path(path.as_str()))
}

/// The module paths to look for, and the paths at which a module is there so far, as rules write them.
#[derive(Drop)]
struct Modules {
    named: ModulePaths,
    paths: NameList,
    /// Whether any folder of modules was read.
    is_known: bool,
}

impl Modules {
    /// Adds the module paths at which there is a module below a folder: the absolute ones, or the relative ones.
    fn put_named<S: System>(
        &mut self,
        system: &S,
        alloc: Global,
        folder: Place<'_>,
        are_absolute: bool,
    ) -> Result<(), AllocError> {
        for path in &self.named.paths {
            if path.starts_with(b"/") != are_absolute {
                continue;
            }
            let plain = without_isa(alloc, path)?;
            if is_below(system, alloc, folder, &plain)? {
                self.paths.add(alloc, path)?;
            }
        }
        Ok(())
    }
}

/// Adds the names of the modules in a folder of modules, and the relative module paths at which there is one below it.
fn put_folder<S: System>(
    system: &S,
    alloc: Global,
    folder: Place<'_>,
    found: &mut Modules,
) -> Result<(), InputError>
    ensures ok { OnOk result (found.new.is_known ≡ true) }
    ensures error { IfErr result (IsUnread (λ n. n ≡ shown (place_view folder.entry))) }
{
    for name in names(system, alloc, folder)? {
        if is_below(system, alloc, folder, &name)? {
            found.paths.add(alloc, &name)?;
        }
    }
    found.put_named(system, alloc, folder, false)?;
    found.is_known = true;
    Ok(())
}

/// Adds the modules of these folders of modules.
fn put_folders<S: System>(
    system: &S,
    alloc: Global,
    folders: &[&str],
    found: &mut Modules,
) -> Result<(), InputError>
    ensures ok { OnOk result (found.new.is_known ≡ known_with folders.now found.old.is_known) }
    ensures error { IfErr result (IsUnread (λ n. Member n (map (λ f. f.now) folders.now))) }
{
    for folder in folders {
        put_folder(system, alloc, Place::Named(folder), found)?;
    }
    Ok(())
}

/// Adds the modules of the folder of modules in a folder of libraries, if it is there.
fn put_security<S: System>(
    system: &S,
    alloc: Global,
    library: Place<'_>,
    found: &mut Modules,
) -> Result<(), InputError> {
    let path = library.entry_path(alloc, SECURITY)?;
    let security = library.with_path(path.as_str());
    match look(system, alloc, security)? {
        Found::Folder => put_folder(system, alloc, security, found),
        Found::Nothing | Found::File | Found::Other => Ok(()),
    }
}

/// Whether the name of a folder is that of a machine and GNU/Linux, as `x86_64-linux-gnu`.
fn is_triplet(name: &str) -> bool {
    name.contains("-linux-gnu")
}

/// Adds the modules of an entry of a folder of libraries, if it is a folder for one machine.
fn put_machine<S: System>(
    system: &S,
    alloc: Global,
    library: Place<'_>,
    name: &[u8],
    found: &mut Modules,
) -> Result<(), InputError> {
    // The name of a machine is UTF-8.
    let Ok(name) = std::str::from_utf8(name) else {
        return Ok(());
    };
    if !is_triplet(name) {
        return Ok(());
    }
    let path = library.entry_path(alloc, name)?;
    let machine = library.with_path(path.as_str());
    match look(system, alloc, machine)? {
        Found::Folder => put_security(system, alloc, machine, found),
        // A library for Python may have such a name, too.
        Found::Nothing | Found::File | Found::Other => Ok(()),
    }
}

/// Adds the modules of a folder of libraries, if it is there, and of those for one machine in it.
fn put_library<S: System>(
    system: &S,
    alloc: Global,
    library: Place<'_>,
    found: &mut Modules,
) -> Result<(), InputError> {
    let Found::Folder = look(system, alloc, library)? else {
        return Ok(());
    };
    put_security(system, alloc, library, found)?;
    for name in names(system, alloc, library)? {
        put_machine(system, alloc, library, &name, found)?;
    }
    Ok(())
}

/// Adds the modules of the system whose root is this folder.
fn put_system<S: System>(
    system: &S,
    alloc: Global,
    root: &str,
    found: &mut Modules,
) -> Result<(), InputError> {
    for path in LIBRARIES {
        put_library(system, alloc, Place::Below { root, path }, found)?;
    }
    Ok(())
}

/// Returns the folder below which the modules of a source are: that of the system for `--root`, else that of the running one.
fn root_of<'a>(source: ConfSource<'a>) -> Place<'a> {
    match source {
        ConfSource::Root(root) => Place::Below { root, path: "" },
        _ => Place::Named("/"),
    }
}

/// Adds the modules of the system, if the source is one.
fn put_source<S: System>(
    system: &S,
    alloc: Global,
    source: ConfSource<'_>,
    found: &mut Modules,
) -> Result<(), InputError>
    ensures ok { OnOk result (KeepsKnown source.entry found.old.is_known found.new.is_known) }
    ensures error { IfErr result (IsUnread (IsInSource source.entry)) }
{
    match source {
        ConfSource::Root(root) => put_system(system, alloc, root, found),
        _ => Ok(()),
    }
}

/// Returns the paths at which a module is there, as rules write them: the names of those in these folders of modules, and in
/// the system's if the source is one, and the module paths with a slash at which there is one. Returns `None` if there is no
/// folder of modules.
pub(super) fn modules_there<S: System>(
    system: &S,
    alloc: Global,
    source: ConfSource<'_>,
    folders: &[&str],
    files: &Files,
) -> Result<Option<NameList>, InputError>
    ensures ok { IfOk result (HasModules source.entry folders.now) }
    ensures error { IfErr result (IsUnread (λ n. IsInSource source.entry n ⊎ Member n (map (λ f. f.now) folders.now))) }
{
    let mut found = Modules {
        named: ModulePaths::of(alloc, files)?,
        paths: NameList::new(alloc),
        is_known: false,
    };
    put_source(system, alloc, source, &mut found)?;
    put_folders(system, alloc, folders, &mut found)?;
    if !found.is_known {
        return Ok(None);
    }
    found.put_named(system, alloc, root_of(source), true)?;
    Ok(Some(found.paths))
}

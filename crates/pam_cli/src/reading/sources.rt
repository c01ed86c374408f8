//! Reads the files of a source, each with its path.

ghost use Rattle.std.specs.Prelude.{◌≡◌, ◌⊎◌, codes, false, IfErr, IfOk, IsOkUnless, MatchResult, OnOk, map, option_map, string_bytes};
ghost use Rattle.pam_cli.specs.Sources.{IsAlone, IsHidden, IsInSource, IsNamedFile, IsOfCandidates, IsOfFolder, IsOfRoot, IsOfSystem};
ghost use Rattle.pam_cli.specs.Sources.{IsOneFile, IsOver, IsRead, IsRootFile, IsSingle, IsThen, IsUnread, is_given};
ghost use Rattle.pam_cli.specs.System.{below, place_view, shown};
ghost use Rattle.pam_cli.specs.inner.Sources.{AddsCandidate, AddsEntry, AddsFile, IsStart};
ghost use Rattle.pam_words.specs.Wanted.{candidate_view};

use crate::reading::files::{entries, look, named_file, unread, unread_at};
use crate::system::{Found, Held, Place, System};
use pam_conf::{Files, Form};
use pam_report::InputError;
use pam_text::Texts;
use pam_words::{Candidate, ConfSource};
use std::alloc::{AllocError, Global};
use std::io;
use std::io::ErrorKind;

/// The folder of the files of a system.
pub(super) const FOLDER: &str = "etc/pam.d";

/// The second folder of the files of a system.
pub(super) const VENDOR: &str = "usr/lib/pam.d";

/// The one file of a system without these folders.
pub(super) const FILE: &str = "etc/pam.conf";

/// The files of a source, and the paths under which they were read: first the path of the whole configuration, then each file's.
#[derive(Drop)]
pub(super) struct SourceFiles {
    pub(super) files: Files,
    pub(super) paths: Texts,
}

/// The files of a source with their paths, and which of them only the second folder has.
#[derive(Drop)]
pub(super) struct Configuration {
    pub(super) files: Files,
    pub(super) paths: Texts,
    /// The position from which on the files are those that only the second folder has; without a second folder the number of files.
    pub(super) vendor_start: usize,
}

impl Configuration {
    /// Returns the files of a source without a second folder.
    fn alone(found: SourceFiles) -> Configuration
        ensures files { result.files ≡ found.files }
        ensures paths { result.paths ≡ found.paths }
        ensures start { IsAlone found.files result.vendor_start }
    {
        let SourceFiles { files, paths } = found;
        let vendor_start = files.len();
        Configuration {
            files,
            paths,
            vendor_start,
        }
    }
}

impl SourceFiles {
    /// Returns no files, and the path of the whole configuration.
    fn new(alloc: Global, form: Form, path: &str) -> Result<SourceFiles, AllocError>
        ensures { IfOk result (IsStart form path.now) }
    {
        let mut paths = Texts::new(alloc);
        paths.push(path.as_bytes())?;
        Ok(SourceFiles {
            files: Files::new(alloc, form),
            paths,
        })
    }

    /// Whether a file has this name.
    fn has(&self, name: &[u8]) -> bool
        ensures { result ≡ is_given name.now self.now.files.entries }
    {
        self.files.find(name).is_some()
    }

    /// Adds a file of a new name.
    fn put(&mut self, name: Vec<u8>, path: &str, bytes: Vec<u8>) -> Result<(), InputError>
        requires { is_given name.items self.old.files.entries ≡ false }
        ensures ok { OnOk result (AddsFile name.items bytes.items path.now self.old self.new) }
        ensures error { IsOkUnless result InputError.Memory }
    {
        self.paths.push(path.as_bytes())?;
        Ok(self.files.put(name, bytes)?)
    }
}

/// Whether the folder above another one, if there is one, has an entry of this name, whatever it is.
fn is_hidden<S: System>(
    system: &S,
    alloc: Global,
    above: Option<Place<'_>>,
    name: &str,
) -> Result<bool, InputError>
    ensures ok { IfOk result (IsHidden (S.told system.now) (option_map place_view above.entry) name.now) }
    ensures error { IfErr result (IsUnread (λ n. n ≡ name.now)) }
{
    let Some(above) = above else {
        return Ok(false);
    };
    let path = above.entry_path(alloc, name)?;
    match system.look(alloc, above.with_path(path.as_str())) {
        Ok(Found::Nothing) => Ok(false),
        Ok(Found::Folder | Found::File | Found::Other) => Ok(true),
        Err(error) => Err(unread(alloc, name, &error)),
    }
}

/// Reads an entry of a folder, and adds it if it is a regular file, no file of its name is there, and the folder above does not hide
/// it.
fn put_entry<S: System>(
    system: &S,
    alloc: Global,
    above: Option<Place<'_>>,
    folder: Place<'_>,
    name: String,
    found: &mut SourceFiles,
) -> Result<(), InputError>
    ensures ok { OnOk result (AddsEntry (S.told system.now) (option_map place_view above.entry) (place_view folder.entry) (string_bytes name)
        found.old found.new) }
    ensures error { IfErr result (IsUnread (λ n. n ≡ string_bytes name)) }
{
    if found.has(name.as_bytes()) {
        return Ok(());
    }
    if is_hidden(system, alloc, above, name.as_str())? {
        return Ok(());
    }
    let path = folder.entry_path(alloc, name.as_str())?;
    let place = folder.with_path(path.as_str());
    match system.held(alloc, place) {
        Ok(Held::Nothing | Held::Other) => Ok(()),
        Ok(Held::Bytes(bytes)) => {
            let path = place.shown(alloc)?;
            found.put(name.into_bytes(), path.as_str(), bytes)
        }
        Err(error) => Err(unread(alloc, name.as_str(), &error)),
    }
}

/// Adds the regular files of a folder, after links are followed, in ascending byte order of their names, except those whose names are
/// there already, or are names of entries of the folder above.
fn add_folder<S: System>(
    system: &S,
    alloc: Global,
    above: Option<Place<'_>>,
    folder: Place<'_>,
    found: &mut SourceFiles,
) -> Result<(), InputError>
    ensures { OnOk result (IsThen (S.told system.now) (option_map place_view above.entry) (place_view folder.entry) found.old.files found.old.paths
        found.new.files found.new.paths) }
{
    let names = entries(system, alloc, folder)?;
    for name in names {
        put_entry(system, alloc, above, folder, name, found)?;
    }
    Ok(())
}

/// Reads the file of a candidate, and adds it if no file of its name is there.
fn put_candidate<S: System>(
    system: &S,
    alloc: Global,
    candidate: Candidate<'_>,
    found: &mut SourceFiles,
) -> Result<(), InputError>
    ensures { OnOk result (AddsCandidate (S.told system.now) (candidate_view candidate.entry) found.old found.new) }
{
    if found.has(candidate.name) {
        return Ok(());
    }
    let bytes = named_file(system, alloc, candidate.file)?;
    let name = Vec::from_slice(alloc, candidate.name)?;
    found.put(name, candidate.file, bytes)
}

/// Reads the files of the candidates for a folder that is shown by this path, the first of each name.
fn candidate_files<S: System>(
    system: &S,
    alloc: Global,
    folder: &str,
    candidates: &[Candidate<'_>],
) -> Result<SourceFiles, InputError>
    ensures { IfOk result (λ found. IsOfCandidates (S.told system.now) (map candidate_view candidates.now) folder.now found.files found.paths) }
{
    let mut found = SourceFiles::new(alloc, Form::Dir, folder)?;
    for candidate in candidates {
        put_candidate(system, alloc, *candidate, &mut found)?;
    }
    Ok(found)
}

/// Reads the files of the candidates, and those of a folder whose names no candidate has.
fn folder_files<S: System>(
    system: &S,
    alloc: Global,
    folder: Place<'_>,
    candidates: &[Candidate<'_>],
) -> Result<SourceFiles, InputError>
    ensures { IfOk result (λ found. IsOfFolder (S.told system.now) (map candidate_view candidates.now) (place_view folder.entry) found.files found.paths) }
{
    let path = folder.shown(alloc)?;
    let mut found = candidate_files(system, alloc, path.as_str(), candidates)?;
    add_folder(system, alloc, None, folder, &mut found)?;
    Ok(found)
}

/// Reads the files of the candidates and of a folder beside which there is no other one.
fn alone_in<S: System>(
    system: &S,
    alloc: Global,
    folder: Place<'_>,
    candidates: &[Candidate<'_>],
) -> Result<Configuration, InputError>
    ensures { IfOk result (λ found. IsOfFolder (S.told system.now) (map candidate_view candidates.now) (place_view folder.entry) found.files found.paths
        × IsAlone found.files found.vendor_start) }
{
    let found = folder_files(system, alloc, folder, candidates)?;
    Ok(Configuration::alone(found))
}

/// Reads the files of the candidates and of a folder, and those of another one whose names none of these and no entry of the folder
/// has.
fn over_files<S: System>(
    system: &S,
    alloc: Global,
    folder: Place<'_>,
    vendor: Place<'_>,
    candidates: &[Candidate<'_>],
) -> Result<Configuration, InputError>
    ensures { IfOk result (λ found. IsOver (S.told system.now) (map candidate_view candidates.now) (place_view folder.entry) (place_view vendor.entry)
        found.files found.paths found.vendor_start) }
{
    let mut found = folder_files(system, alloc, folder, candidates)?;
    let vendor_start = found.files.len();
    add_folder(system, alloc, Some(folder), vendor, &mut found)?;
    let SourceFiles { files, paths } = found;
    Ok(Configuration {
        files,
        paths,
        vendor_start,
    })
}

/// Returns the one file in place of `pam.conf`.
fn one_file(alloc: Global, path: &str, bytes: Vec<u8>) -> Result<SourceFiles, InputError>
    ensures ok { IfOk result (λ found. IsOneFile path.now bytes.items found.files found.paths) }
    ensures error { IsOkUnless result InputError.Memory }
{
    let mut found = SourceFiles::new(alloc, Form::Single, path)?;
    let name = Vec::from_slice(alloc, b"pam.conf")?;
    found.put(name, path, bytes)?;
    Ok(found)
}

/// Reads the one file of a system, if it is there.
fn root_file<S: System>(
    system: &S,
    alloc: Global,
    place: Place<'_>,
) -> Result<SourceFiles, InputError>
    ensures { IfOk result (λ found. IsRootFile (S.told system.now) (place_view place.entry) found.files found.paths) }
{
    let path = place.shown(alloc)?;
    match system.held(alloc, place) {
        Ok(Held::Bytes(bytes)) => one_file(alloc, path.as_str(), bytes),
        Ok(Held::Nothing) => Ok(SourceFiles::new(alloc, Form::Single, path.as_str())?),
        Ok(Held::Other) => Err(unread(
            alloc,
            path.as_str(),
            &io::Error::from(ErrorKind::InvalidInput),
        )),
        Err(error) => Err(unread(alloc, path.as_str(), &error)),
    }
}

/// Reads the one file of a system without folders. Candidates stand for files of a folder, so it is an error if there are any.
fn single_file<S: System>(
    system: &S,
    alloc: Global,
    root: &str,
    candidates: &[Candidate<'_>],
) -> Result<SourceFiles, InputError>
    ensures { IfOk result (λ found. IsSingle (S.told system.now) (map candidate_view candidates.now) root.now found.files found.paths) }
{
    if candidates.is_empty() {
        return root_file(system, alloc, Place::Below { root, path: FILE });
    }
    let folder = Place::Below { root, path: FOLDER };
    Err(unread_at(alloc, folder, &io::Error::from(ErrorKind::NotFound)))
}

/// Reads the configuration of a system, by what is at its two folders: that of these, or of the one that is there, else its one file.
fn system_files<S: System>(
    system: &S,
    alloc: Global,
    root: &str,
    there: (Found, Found),
    candidates: &[Candidate<'_>],
) -> Result<Configuration, InputError>
    ensures { IfOk result (λ found. IsOfSystem (S.told system.now) (map candidate_view candidates.now) root.now there.0 there.1
        found.files found.paths found.vendor_start) }
{
    let folder = Place::Below { root, path: FOLDER };
    let vendor = Place::Below { root, path: VENDOR };
    match there {
        (Found::Folder, Found::Nothing) => alone_in(system, alloc, folder, candidates),
        (Found::Folder, _) => over_files(system, alloc, folder, vendor, candidates),
        (_, Found::Folder) => alone_in(system, alloc, vendor, candidates),
        _ => Ok(Configuration::alone(single_file(system, alloc, root, candidates)?)),
    }
}

/// Reads the configuration of the system whose root is this folder.
fn root_files<S: System>(
    system: &S,
    alloc: Global,
    root: &str,
    candidates: &[Candidate<'_>],
) -> Result<Configuration, InputError>
    ensures { IfOk result (λ found. IsOfRoot (S.told system.now) (map candidate_view candidates.now) root.now
        found.files found.paths found.vendor_start) }
{
    entries(system, alloc, Place::Named(root))?;
    let first = look(system, alloc, Place::Below { root, path: FOLDER })?;
    let second = look(system, alloc, Place::Below { root, path: VENDOR })?;
    system_files(system, alloc, root, (first, second), candidates)
}

/// Reads one file in place of `pam.conf`.
fn conf_file<S: System>(system: &S, alloc: Global, name: &str) -> Result<SourceFiles, InputError>
    ensures ok { IfOk result (λ found. IsNamedFile (S.told system.now) name.now found.files found.paths) }
    ensures error { IfErr result (IsUnread (λ n. n ≡ name.now)) }
{
    let bytes = named_file(system, alloc, name)?;
    one_file(alloc, name, bytes)
}

/// Reads the configuration of a source with its candidates. Beside `--conf` there are none.
pub(super) fn source_files<S: System>(
    system: &S,
    alloc: Global,
    source: ConfSource<'_>,
    candidates: &[Candidate<'_>],
) -> Result<Configuration, InputError>
    ensures { MatchResult result (λ found. IsRead (S.told system.now) (map candidate_view candidates.now) source.entry
        found.files found.paths found.vendor_start) (IsUnread (IsInSource source.entry)) }
{
    match source {
        ConfSource::Dir(folder) => alone_in(system, alloc, Place::Named(folder), candidates),
        ConfSource::Over { folder, vendor } => {
            over_files(
                system,
                alloc,
                Place::Named(folder),
                Place::Named(vendor),
                candidates,
            )
        }
        ConfSource::Conf(name) => Ok(Configuration::alone(conf_file(system, alloc, name)?)),
        ConfSource::Root(root) => root_files(system, alloc, root, candidates),
    }
}

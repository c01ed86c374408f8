//! The findings that are meant to be, by an accept file.

ghost use Rattle.std.specs.Prelude.{◌≡◌, ◌++◌, IfOk, List, OnOk, Some, filter, map, not, ℕ};
ghost use Rattle.std.specs.Option.{option_map};
ghost use Rattle.pam_report.specs.Accepting as spec;
ghost use Rattle.pam_report.specs.inner.Accepting as inner;
ghost use Rattle.pam_report.specs.Fault.{file_at};
ghost use Rattle.pam_report.specs.TablePaths.{table_paths_view};

use super::table_keys::problems_of;
use crate::fault::push_pieces;
use crate::names::{kind_name, stack_of};
use crate::tables::TablePaths;
use pam_codes::Piece;
use pam_conf::{Files, Kind, NameList};
use pam_findings::accepted::AcceptFile;
use pam_findings::host::{Finding, HostReport, Place};
use pam_findings::tables::{TableFinding, TableReport};
use pam_text::Texts;
use std::alloc::{AllocError, Global};
use std::collections::BTreeMap;

/// The findings and the problems of tables that no line of the accept file accepts, and the numbers of its lines that accept none.
#[derive(Drop)]
pub(super) struct Listed {
    pub(super) found: Vec<(Place, Finding)>,
    pub(super) tables: Vec<TableFinding>,
    pub(super) unused: Vec<u32>,
}

/// Appends ` FILE:LINE`, or ` FILE` for line 0.
pub(super) fn push_line(key: &mut Vec<u8>, name: &[u8], line: usize) -> Result<(), AllocError>
    ensures { OnOk result (key.new.items ≡ key.old.items ++ spec.file_key (Some name.now) line) }
{
    push_pieces(key, &[Piece::Bytes(b" "), Piece::Bytes(name)])?;
    if line == 0 {
        return Ok(());
    }
    push_pieces(key, &[Piece::Bytes(b":"), Piece::Number(line as u64)])
}

/// Appends ` SERVICE KIND`.
fn push_stack(key: &mut Vec<u8>, name: &[u8], kind: Kind) -> Result<(), AllocError>
    ensures { OnOk result (key.new.items ≡ key.old.items ++ spec.stack_key name.now kind) }
{
    push_pieces(
        key,
        &[
            Piece::Bytes(b" "),
            Piece::Bytes(name),
            Piece::Bytes(b" "),
            Piece::Bytes(kind_name(kind).as_bytes()),
        ],
    )
}

/// What gives each of what is found a key, by which a line of an accept file names it.
pub(super) trait Keys<T> {
    /// The key of what is found.
    ghost key_of: { Self → T → List ℕ };

    /// Returns the key of what is found.
    fn key(&self, alloc: Global, found: &T) -> Result<Vec<u8>, AllocError>
        ensures { IfOk result (λ key. key.items ≡ key_of self.now found.now) };
}

/// The names of files and services.
#[derive(Drop)]
struct Names<'a> {
    files: &'a Files,
    services: Vec<&'a [u8]>,
}

fn names_of<'a>(
    alloc: Global,
    files: &'a Files,
    services: &'a Texts,
) -> Result<Names<'a>, AllocError>
    ensures { IfOk result (λ n. (n.files.now ≡ files.now) × (map (λ s. s.now) n.services.items ≡ services.now)) }
{
    let services = services.iter().collect(alloc)?;
    Ok(Names { files, services })
}

impl Names<'_> {
    fn service(&self, position: usize) -> &[u8]
        ensures { result.now ≡ spec.service_at (map (λ s. s.now) self.now.services.items) position }
    {
        match self.services.get(position) {
            Some(service) => service,
            None => b"",
        }
    }

    fn file(&self, position: Option<usize>) -> Option<&[u8]>
        ensures { option_map (λ name. name.now) result ≡ file_at self.now.files.now position }
    {
        match position {
            Some(position) => self.files.name(position),
            None => None,
        }
    }

    /// Returns the name of the service of a stack; where a file is the cause, that of the file, which is a service too.
    fn stack(&self, file: Option<usize>, service: Option<usize>) -> &[u8]
        ensures { result.now ≡ spec.stack_name self.now.files.now (map (λ s. s.now) self.now.services.items) file service }
    {
        match service {
            Some(service) => self.service(service),
            None => self.file(file).unwrap_or(b""),
        }
    }

    /// Appends ` FILE:LINE`, or ` FILE` for line 0. The configuration as a whole has neither.
    fn push_file(&self, key: &mut Vec<u8>, place: &Place) -> Result<(), AllocError>
        ensures { OnOk result (key.new.items ≡ key.old.items ++ spec.file_key (file_at self.now.files.now place.now.file) place.now.line) }
    {
        match self.file(place.file) {
            Some(name) => push_line(key, name, place.line),
            None => Ok(()),
        }
    }
}

impl Keys<(Place, Finding)> for Names<'_> {
    ghost use Rattle.std.specs.Prelude.{map};
    ghost use Rattle.pam_report.specs.Accepting.{key_of};

    ghost key_of = { λ names entry. key_of names.files.now (map (λ s. s.now) names.services.items) entry };

    /// Returns the key of a finding: its number and its place.
    #[tactic(auto, unfolding(crate::specs::Accepting::key_of))]
    fn key(&self, alloc: Global, found: &(Place, Finding)) -> Result<Vec<u8>, AllocError> {
        let problem = found.1.problem;
        let mut key = Vec::from_slice(alloc, problem.row().number.as_bytes())?;
        match stack_of(problem) {
            Some((service, kind)) => {
                let name = self.stack(found.0.file, service);
                push_stack(&mut key, name, kind)?;
            }
            None => self.push_file(&mut key, &found.0)?,
        }
        Ok(key)
    }
}

/// Appends the keys of what is found, in order.
fn push_keys<T, K: Keys<T>>(
    alloc: Global,
    keys: &mut Texts,
    by: &K,
    found: &[T],
) -> Result<(), AllocError>
    ensures { OnOk result (keys.new ≡ keys.old ++ map (K.key_of by.now) found.now) }
{
    for one in found {
        let key = by.key(alloc, one)?;
        keys.push(&key)?;
    }
    Ok(())
}

/// Returns what no line accepts.
fn not_accepted<T: Copy, K: Keys<T>>(
    alloc: Global,
    by: &K,
    found: &[T],
    accept: &AcceptFile,
) -> Result<Vec<T>, AllocError>
    ensures { IfOk result (λ kept. kept.items ≡ filter (λ one. not (spec.accepts accept.now (K.key_of by.now one))) found.now) }
{
    let mut kept = Vec::new(alloc);
    for one in found {
        let key = by.key(alloc, one)?;
        if !accept.accepts(&key) {
            kept.push(*one)?;
        }
    }
    Ok(kept)
}

/// Returns the numbers of the lines with other keys than these.
fn unused(alloc: Global, keys: &NameList, accept: &AcceptFile) -> Result<Vec<u32>, AllocError>
    ensures { IfOk result (λ unused. unused.items ≡ spec.lines_without keys.now accept.now) }
{
    let mut unused = Vec::new(alloc);
    for line in accept.lines() {
        if !keys.has(&line.key) {
            unused.push(line.number)?;
        }
    }
    Ok(unused)
}

/// What may be accepted: the findings of a host, and the problems of its tables.
#[derive(Clone, Copy)]
struct Reported<'x> {
    services: &'x Texts,
    found: &'x [(Place, Finding)],
    tables: &'x [TableFinding],
    paths: TablePaths<'x>,
}

/// Returns the lines that accept none of these findings and problems.
// A call of its own, so that the keys of all are gone before what is not accepted is listed.
fn unused_lines(
    alloc: Global,
    names: &Names<'_>,
    reported: &Reported<'_>,
    accept: &AcceptFile,
) -> Result<Vec<u32>, AllocError>
    ensures { let keys = spec.all_keys names.now.files.now (map (λ s. s.now) names.now.services.items) reported.now.found.now
        (table_paths_view reported.now.paths) reported.now.tables.now in
        IfOk result (λ unused. unused.items ≡ spec.lines_without keys accept.now) }
{
    let mut keys = Texts::new(alloc);
    push_keys(alloc, &mut keys, names, reported.found)?;
    push_keys(alloc, &mut keys, &reported.paths, reported.tables)?;
    let keys = NameList::of(alloc, keys)?;
    unused(alloc, &keys, accept)
}

/// Returns which of these findings and problems are not accepted, and the lines that accept none.
fn list_reported(
    alloc: Global,
    files: &Files,
    reported: Reported<'_>,
    accept: &AcceptFile,
) -> Result<Listed, AllocError>
    ensures { IfOk result (inner.IsListed accept.now files.now reported.entry.services.now reported.entry.found.now
        (table_paths_view reported.entry.paths) reported.entry.tables.now) }
{
    let names = names_of(alloc, files, reported.services)?;
    let unused = unused_lines(alloc, &names, &reported, accept)?;
    let found = not_accepted(alloc, &names, reported.found, accept)?;
    let tables = not_accepted(alloc, &reported.paths, reported.tables, accept)?;
    Ok(Listed {
        found,
        tables,
        unused,
    })
}

/// Returns the findings of a report, in order.
fn entries(
    alloc: Global,
    found: &BTreeMap<Place, Finding>,
) -> Result<Vec<(Place, Finding)>, AllocError>
    ensures { IfOk result (λ entries. entries.items ≡ found.now.entries) }
{
    let mut entries = Vec::new(alloc);
    for (place, finding) in found {
        entries.push((*place, *finding))?;
    }
    Ok(entries)
}

/// Returns the findings of two reports that are not accepted, and the lines that accept none.
pub(super) fn list_findings(
    alloc: Global,
    files: &Files,
    report: &HostReport,
    tables: &TableReport,
    paths: TablePaths<'_>,
    accept: &AcceptFile,
) -> Result<Listed, AllocError>
    ensures { IfOk result (inner.IsListed accept.now files.now report.now.services report.now.found.entries (table_paths_view paths.entry)
        (spec.table_findings tables.now.found)) }
{
    let found = entries(alloc, &report.found)?;
    let problems = problems_of(alloc, &tables.found)?;
    let reported = Reported {
        services: &report.services,
        found: &found,
        tables: &problems,
        paths,
    };
    list_reported(alloc, files, reported, accept)
}

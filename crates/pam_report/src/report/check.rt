//! The `check` command: what is wrong with a host.

ghost use Rattle.std.specs.Prelude.{◌≡◌, [], IfOk, IfErr, MatchResult, if◌then◌else◌, map, true, unwrap_or};
ghost use Rattle.std.specs.List.{list_any};
ghost use Rattle.std.specs.Option.{option_copied};
ghost use Rattle.pam_report.specs.Candidates.{IfUsed, first_unused};
ghost use Rattle.pam_report.specs.Check.{IsCheck};
ghost use Rattle.pam_report.specs.inner.Check.{IsAccepted, IsListedFrom, IsReported, IsUnaccepted, IsUnreported};
ghost use Rattle.pam_report.specs.Finds.{Finds};
ghost use Rattle.pam_report.specs.Inputs.{facts_given, host_tables_given, there_given, unread_given};
ghost use Rattle.pam_findings.specs.tables.Report.{IsTableReport};
ghost use Rattle.pam_report.specs.Memory.{WantsOnly, of_stack};
ghost use Rattle.pam_report.specs.Reply.{check_status, counts, has_counting, has_counting_line, has_counting_table};
ghost use Rattle.pam_report.specs.ReplyViews.{check_view};
ghost use Rattle.pam_report.specs.Services.{IfServices, has_asked};
ghost use Rattle.pam_report.specs.TablePaths.{table_paths_view};
ghost use Rattle.pam_report.specs.Left.{IfAllRead, IfLeft, has_unread, services_left};
ghost use Rattle.pam_report.specs.Unused.{idle_rows, level_of_unused, unused_lines as spec_unused_lines, unused_view};
ghost use Rattle.pam_words.specs.Wanted.{candidate_view};

use super::Status;
use super::accepting::{Listed, list_findings};
use super::replies::Reply;
use super::unused::{UnusedLine, unused_lines};
use crate::candidates::require_used;
use crate::fault::{Fault, accept_fault, facts_fault};
use crate::inputs::Inputs;
use crate::left::services_left;
use crate::services::require_asked;
use crate::tables::TablePaths;
use pam_conf::{Files, Form};
use pam_facts::Facts;
use pam_findings::accepted::AcceptFile;
use pam_findings::host::laws::{a_silent_host_is_sound, links_are_notes};
use pam_findings::host::{Finding, HostReport, Installed, Level, Place};
use pam_findings::misspelled::{Misspelled, misspelled_words};
use pam_findings::tables::{TableFinding, TableReport};
use pam_text::Texts;
use pam_words::{Candidate, CheckFiles, LevelName};
use std::alloc::Global;

/// What is wrong with a host.
#[derive(Drop)]
pub struct CheckReply<'a> {
    pub form: Form,
    /// The files of the configuration.
    pub files: Option<&'a Files>,
    /// For each file, by its position, whether it is a link that leads out of its folder. No word of such a file is told.
    pub outside: &'a [bool],
    /// The path of the configuration, and then that of each file by its position, as far as they are known.
    pub paths: Option<&'a Texts>,
    pub report: HostReport,
    /// The findings of the report that are not accepted, in its order.
    pub found: Vec<(Place, Finding)>,
    /// For each finding, by its position, the word that is wrong, if it is about one.
    pub misspelled: Vec<Option<Misspelled>>,
    /// The path of each table.
    pub table_paths: TablePaths<'a>,
    /// The problems of tables that are not accepted, in order.
    pub tables: Vec<TableFinding>,
    /// The name of the accept file, empty if there is none.
    pub accept: &'a str,
    /// That of the facts file.
    pub facts: &'a str,
    /// The lines of these two that say nothing of the host (S8).
    pub unused: Vec<UnusedLine>,
    /// The least level of a finding that makes the status a refusal.
    pub fail_on: LevelName,
}

/// The services that are checked, all if none is named, the candidates for their files, and how.
#[derive(Clone, Copy)]
pub(super) struct CheckRequest<'x, 'a> {
    pub services: &'x Texts,
    pub candidates: &'x [Candidate<'a>],
    pub fail_on: LevelName,
    pub given: &'x CheckFiles<'a>,
}

/// Whether a finding of this level makes the status a refusal.
pub(super) fn counts(fail_on: LevelName, level: Level) -> bool
    ensures { result ≡ counts fail_on level }
{
    match fail_on {
        LevelName::Note => true,
        LevelName::Warning => level != Level::Note,
        LevelName::Error => level == Level::Error,
    }
}

/// Whether some finding counts.
fn has_counting(found: &[(Place, Finding)], fail_on: LevelName) -> bool
    ensures { result ≡ has_counting fail_on found.now }
{
    found
        .iter()
        .any(|entry| counts(fail_on, entry.1.problem.level()))
}

/// Whether some problem of a table counts.
fn has_counting_table(tables: &[TableFinding], fail_on: LevelName) -> bool
    ensures { result ≡ has_counting_table fail_on tables.now }
{
    tables
        .iter()
        .any(|finding| counts(fail_on, finding.problem.level()))
}

/// Whether some line that says nothing counts.
fn some_line_counts(unused: &[UnusedLine], fail_on: LevelName) -> bool
    ensures { result ≡ list_any (λ line. counts fail_on (level_of_unused (unused_view line))) unused.now }
{
    unused.iter().any(|line| counts(fail_on, line.level()))
}

/// The same, by the values of the lines.
fn has_counting_line(unused: &[UnusedLine], fail_on: LevelName) -> bool
    ensures { result ≡ has_counting_line fail_on (map unused_view unused.now) }
{
    some_line_counts(unused, fail_on)
}

impl CheckReply<'_> {
    /// Returns a refusal if a finding or a problem of a table counts.
    pub(super) fn status(&self) -> Status
        ensures { result ≡ check_status (check_view self.now) }
    {
        if has_counting(&self.found, self.fail_on)
            || has_counting_table(&self.tables, self.fail_on)
            || has_counting_line(&self.unused, self.fail_on)
        {
            Status::Refusal
        } else {
            Status::Success
        }
    }
}

/// Reports on the services of a host, by what is known of modules.
fn report(
    alloc: Global,
    services: &Texts,
    files: &Files,
    inputs: &Inputs,
) -> Result<HostReport, Fault>
    ensures { MatchResult result (IsReported services.now files.now inputs.now) (IsUnreported inputs.now) }
{
    let facts = match Facts::read(alloc, inputs.facts_file()) {
        Ok(facts) => facts,
        Err(error) => return Err(facts_fault(error)),
    };
    let Ok(mut report) = HostReport::of(
        alloc,
        files,
        inputs.vendor_start(),
        services,
        &facts,
        Installed {
            modules: inputs.there(),
            files: inputs.named_files(),
        },
    ) else {
        return Err(Fault::Memory);
    };
    match report.add_links(inputs.outside()) {
        Ok(()) => Ok(report),
        Err(_) => Err(Fault::Memory),
    }
}

/// Reports on the tables that the services of a host need.
fn table_report(
    alloc: Global,
    files: &Files,
    report: &HostReport,
    inputs: &Inputs,
) -> Result<TableReport, Fault>
    ensures ok { IfOk result (λ r. IsTableReport files.now report.now.services (host_tables_given inputs.now) r.found) }
    ensures err { IfErr result (λ fault. fault ≡ Fault.Memory) }
{
    match TableReport::of(alloc, files, &report.services, &inputs.host_tables()) {
        Ok(tables) => Ok(tables),
        Err(_) => Err(Fault::Memory),
    }
}

fn accepted(alloc: Global, inputs: &Inputs) -> Result<AcceptFile, Fault>
    ensures { MatchResult result (IsAccepted inputs.now) (IsUnaccepted inputs.now) }
{
    match AcceptFile::read(alloc, inputs.accept_file()) {
        Ok(accept) => Ok(accept),
        Err(error) => Err(accept_fault(error)),
    }
}

/// Lists the findings of a report, and the problems of the tables that its services need, without what the accept file accepts.
fn list_unaccepted(
    alloc: Global,
    files: &Files,
    report: &HostReport,
    inputs: &Inputs,
    paths: TablePaths<'_>,
) -> Result<Listed, Fault>
    ensures ok { IfOk result (IsListedFrom files.now inputs.now report.now.services report.now.found.entries (table_paths_view paths.entry)) }
    ensures err { IfErr result (IsUnaccepted inputs.now) }
{
    let accept = accepted(alloc, inputs)?;
    let tables = table_report(alloc, files, report, inputs)?;
    match list_findings(alloc, files, report, &tables, paths, &accept) {
        Ok(listed) => Ok(listed),
        Err(_) => Err(Fault::Memory),
    }
}

/// Returns the lines that say nothing of the host, of which those of the accept file are known. None are told where a file cannot be
/// read, of which they may say something.
fn lines_unused(
    alloc: Global,
    accept: &[u32],
    files: &Files,
    inputs: &Inputs,
) -> Result<Vec<UnusedLine>, Fault>
    ensures ok { IfOk result (λ unused. map unused_view unused.items
        ≡ (if has_unread (unread_given inputs.now) then []
        else spec_unused_lines accept.now (idle_rows files.now (there_given inputs.now) (facts_given inputs.now)))) }
    ensures err { IfErr result (λ fault. fault ≡ Fault.Memory) }
{
    if inputs.has_unread() {
        return Ok(Vec::new(alloc));
    }
    match unused_lines(alloc, accept, files, inputs.there(), inputs.facts_file()) {
        Ok(unused) => Ok(unused),
        Err(_) => Err(Fault::Memory),
    }
}

/// Returns the name of a file, empty if none is named.
fn name_of<'a>(named: Option<&'a str>) -> &'a str
    ensures { result.now ≡ unwrap_or (option_copied named.entry) [] }
{
    match named {
        Some(name) => name,
        None => "",
    }
}

/// Returns the findings of the services that are named, or of all. The configuration has to be there and to have each that is named, and
/// some service that is checked has to read each candidate.
// Not inlined, so that a command uses no stack for the values of the others.
#[inline(never)]
pub(super) fn checked<'a>(
    alloc: Global,
    asked: CheckRequest<'_, 'a>,
    files: &Files,
    inputs: &'a Inputs,
) -> Result<Reply<'a>, Fault>
    ensures answer { Finds result (IfServices (has_asked files.now asked.entry.services.now)
        (IfUsed (first_unused files.now asked.entry.services.now (map candidate_view asked.entry.candidates.now))
        (IfAllRead (has_unread (unread_given inputs.now)) asked.entry.services.now
        (services_left files.now (unread_given inputs.now) asked.entry.services.now)
        (λ checked. IsCheck checked asked.entry.fail_on asked.entry.given.now files.now inputs.now)))) }
    ensures wants { WantsOnly (of_stack true) result }
{
    match require_asked(alloc, files, asked.services) {
        Ok(()) => checked_candidates(alloc, asked, files, inputs),
        Err(fault) => Err(fault),
    }
}

/// Returns the findings of services, if some of them reads each candidate.
fn checked_candidates<'a>(
    alloc: Global,
    asked: CheckRequest<'_, 'a>,
    files: &Files,
    inputs: &'a Inputs,
) -> Result<Reply<'a>, Fault>
    ensures answer { Finds result (IfUsed (first_unused files.now asked.entry.services.now (map candidate_view asked.entry.candidates.now))
        (IfAllRead (has_unread (unread_given inputs.now)) asked.entry.services.now
        (services_left files.now (unread_given inputs.now) asked.entry.services.now)
        (λ checked. IsCheck checked asked.entry.fail_on asked.entry.given.now files.now inputs.now))) }
    ensures wants { WantsOnly (of_stack true) result }
{
    match require_used(alloc, files, asked.services, asked.candidates) {
        Ok(()) => checked_if_read(alloc, asked, files, inputs),
        Err(fault) => Err(fault),
    }
}

/// Returns the findings of services; where a file cannot be read, of those that take no rules from such a file.
fn checked_if_read<'a>(
    alloc: Global,
    asked: CheckRequest<'_, 'a>,
    files: &Files,
    inputs: &'a Inputs,
) -> Result<Reply<'a>, Fault>
    ensures answer { let named = asked.entry.services.now in
        let unread = unread_given inputs.now in
        Finds result (IfAllRead (has_unread unread) named (services_left files.now unread named)
        (λ checked. IsCheck checked asked.entry.fail_on asked.entry.given.now files.now inputs.now)) }
    ensures wants { WantsOnly (of_stack true) result }
{
    if !inputs.has_unread() {
        return checked_services(alloc, asked, files, inputs);
    }
    match services_left(alloc, files, inputs.unread(), asked.services) {
        Ok(left) => checked_left(alloc, asked, &left, files, inputs),
        Err(_) => Err(Fault::Memory),
    }
}

/// Returns the findings of these services, if there are any.
fn checked_left<'a>(
    alloc: Global,
    asked: CheckRequest<'_, 'a>,
    left: &Texts,
    files: &Files,
    inputs: &'a Inputs,
) -> Result<Reply<'a>, Fault>
    ensures answer { Finds result (IfLeft left.now
        (λ checked. IsCheck checked asked.entry.fail_on asked.entry.given.now files.now inputs.now)) }
    ensures wants { WantsOnly (of_stack true) result }
{
    if left.len() == 0 {
        return Err(Fault::Unread);
    }
    let asked = CheckRequest {
        services: left,
        candidates: asked.candidates,
        fail_on: asked.fail_on,
        given: asked.given,
    };
    checked_services(alloc, asked, files, inputs)
}

/// Returns the findings of the services that are named, or of all.
fn checked_services<'a>(
    alloc: Global,
    asked: CheckRequest<'_, 'a>,
    files: &Files,
    inputs: &'a Inputs,
) -> Result<Reply<'a>, Fault>
    ensures answer { Finds result (IsCheck asked.entry.services.now asked.entry.fail_on asked.entry.given.now files.now inputs.now) }
    ensures wants { WantsOnly (of_stack true) result }
{
    a_silent_host_is_sound();
    links_are_notes();
    let report = report(alloc, asked.services, files, inputs)?;
    let paths = inputs.table_paths();
    let listed = list_unaccepted(alloc, files, &report, inputs, paths)?;
    let Ok(misspelled) = misspelled_words(
        alloc,
        files,
        inputs.there(),
        inputs.outside(),
        inputs.dead(),
        &listed.found,
    ) else {
        return Err(Fault::Memory);
    };
    let unused = lines_unused(alloc, &listed.unused, files, inputs)?;
    Ok(Reply::Check(CheckReply {
        form: files.form(),
        files: inputs.files(),
        outside: inputs.outside(),
        paths: inputs.paths(),
        report,
        found: listed.found,
        misspelled,
        table_paths: paths,
        tables: listed.tables,
        accept: name_of(asked.given.accept),
        facts: name_of(asked.given.facts),
        unused,
        fail_on: asked.fail_on,
    }))
}

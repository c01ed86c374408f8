//! The `show` command with `--as`: the rules of the service's own file, as a release of Linux-PAM reads them.

ghost use Rattle.std.specs.Prelude.{◌≡◌, ◌||◌, IfOk, codes, false, filter, map, true};
ghost use Rattle.std.specs.List.{list_any};
ghost use Rattle.std.specs.Option.{option_map, option_map_or};
ghost use Rattle.std.specs.Str.{bytes_eq};
ghost use Rattle.pam_conf.specs.Files.{position_of};
ghost use Rattle.pam_conf.specs.Lines.{fault_of_source};
ghost use Rattle.pam_conf.specs.Tells.{ErrorTells};
ghost use Rattle.pam_conf.specs.Walk.{same_kind};
ghost use Rattle.pam_released.specs.Control.{then_some};
ghost use Rattle.pam_released.specs.Readings.{numbered_rules, numbered_view, reading_view};
ghost use Rattle.pam_report.specs.Answer.{shown_for};
ghost use Rattle.pam_report.specs.Finds.{Finds};
ghost use Rattle.pam_report.specs.Memory.{WantsOnly, of_stack};
ghost use Rattle.pam_report.specs.Released.{chosen, concerns, fault_in, own_file, reading_at, refuses, release_of_name};
ghost use Rattle.pam_report.specs.Released.{released};
ghost use Rattle.pam_report.specs.ReplyViews.{released_view};
ghost use Rattle.pam_report.specs.Show.{for_each};
ghost use Rattle.pam_text.specs.Gives.{Gives};

use super::login::lowered;
use super::replies::Reply;
use crate::fault::Fault;
use pam_conf::{ConfError, FaultKind, Files, Form, Kind};
use pam_released::{NumberedReading, Reading, Release, released_rules};
use pam_text::{Source, SourceFault};
use pam_words::ReleaseName;
use std::alloc::{AllocError, Global};

/// What a release reads for a service and a kind in the service's own file.
#[derive(Drop)]
pub struct ReleasedReply<'a> {
    pub service: &'a str,
    pub kind: Kind,
    pub release: ReleaseName,
    /// The name of the file.
    pub file: Vec<u8>,
    /// `None` where the release refuses the configuration.
    pub rules: Option<Vec<NumberedReading>>,
}

/// What is asked of a release.
#[derive(Clone, Copy)]
struct ReleaseRequest<'a> {
    service: &'a str,
    kind: Kind,
    release: ReleaseName,
}

fn release_of_name(name: ReleaseName) -> Release
    ensures { result ≡ release_of_name name }
{
    match name {
        ReleaseName::LinuxPam15 => Release::Older,
        ReleaseName::LinuxPam17 => Release::Newer,
    }
}

/// The name of the file in which the rules of a service stand.
fn own_file(alloc: Global, form: Form, service: &str) -> Result<Vec<u8>, AllocError>
    ensures { IfOk result (λ name. name.items ≡ own_file form service.now) }
{
    match form {
        Form::Dir => lowered(alloc, service),
        Form::Single => b"pam.conf".to_vec(alloc),
    }
}

/// The position of the file of this name.
fn position(files: &Files, name: &[u8]) -> Option<usize>
    ensures { result ≡ position_of name.now files.now.entries }
{
    for position in 0..files.len() {
        let known = files.name(position).unwrap();
        if name == known {
            return Some(position);
        }
    }
    None
}

/// Whether this is the service that a line names, or it names none.
fn is_of_service(named: &Option<Vec<u8>>, service: &[u8]) -> bool
    ensures { result ≡ option_map_or (bytes_eq service.now) (option_map (λ s. s.items) named.now) true }
{
    match named {
        Some(named) => service == named.as_slice(),
        None => true,
    }
}

/// Whether this is the kind of a rule, or it has none.
fn is_of_kind(named: Option<Kind>, kind: Kind) -> bool
    ensures { result ≡ option_map_or (same_kind kind) named true }
{
    match named {
        Some(named) => kind == named,
        None => true,
    }
}

/// Whether what is read concerns a service, in lowercase, and a kind.
fn concerns(reading: &Reading, service: &[u8], kind: Kind) -> bool
    ensures { result ≡ concerns service.now kind (reading_view reading.now) }
{
    match reading {
        Reading::Rule(rule) => is_of_service(&rule.service, service) && is_of_kind(rule.kind, kind),
        Reading::Fails(rule) => {
            is_of_service(&rule.service, service) && is_of_kind(Some(rule.kind), kind)
        }
        Reading::Refuses(_) => false,
    }
}

/// Whether this is the service that a line names, or it names `other` or none.
fn is_of_service_or_other(named: &Option<Vec<u8>>, service: &[u8]) -> bool
    ensures { result ≡ option_map_or (λ name. bytes_eq service.now name || bytes_eq (codes "other") name) (option_map (λ s. s.items) named.now) true }
{
    match named {
        Some(named) => service == named.as_slice() || b"other".as_slice() == named.as_slice(),
        None => true,
    }
}

/// Whether what is read makes the release refuse the configuration where a service, in lowercase, is asked for.
fn refuses(reading: &Reading, service: &[u8]) -> bool
    ensures { result ≡ refuses service.now (reading_view reading.now) }
{
    match reading {
        Reading::Rule(_) => false,
        Reading::Fails(_) => false,
        Reading::Refuses(named) => is_of_service_or_other(named, service),
    }
}

/// Whether one of these rules makes the release refuse the configuration.
fn some_refuses(rules: &[NumberedReading], service: &[u8]) -> bool
    ensures { result ≡ list_any (λ rule. refuses service.now (reading_view rule.reading)) rules.now }
{
    rules.iter().any(|rule| refuses(&rule.reading, service))
}

/// Keeps the rules that concern a service, in lowercase, and a kind.
fn keep_those_of(rules: &mut Vec<NumberedReading>, service: &[u8], kind: Kind)
    ensures { map numbered_view rules.new.items
        ≡ filter (λ rule. concerns service.now kind rule.1) (map numbered_view rules.old.items) }
{
    rules.retain(|rule| concerns(&rule.reading, service, kind));
}

/// Those of these rules that concern a service and a kind; `None` where one makes the release refuse the configuration.
#[tactic(auto, using(crate::proofs::ReleasedRules::none_chosen, crate::proofs::ReleasedRules::those_chosen))]
fn chosen(
    alloc: Global,
    service: &str,
    kind: Kind,
    rules: Vec<NumberedReading>,
) -> Result<Option<Vec<NumberedReading>>, AllocError>
    ensures { IfOk result (λ found. option_map (λ rules. map numbered_view rules.items) found
        ≡ chosen service.now kind (map numbered_view rules.items)) }
{
    let service = lowered(alloc, service)?;
    if some_refuses(&rules, service.as_slice()) {
        return Ok(None);
    }
    let mut rules = rules;
    keep_those_of(&mut rules, service.as_slice(), kind);
    Ok(Some(rules))
}

/// The rules that a release reads for a service and a kind; `None` where it refuses the configuration.
fn chosen_rules(
    alloc: Global,
    asked: ReleaseRequest<'_>,
    form: Form,
    source: Source<'_>,
) -> Result<Option<Vec<NumberedReading>>, AllocError>
    ensures { IfOk result (λ found. option_map (λ rules. map numbered_view rules.items) found
        ≡ then_some (numbered_rules (release_of_name asked.entry.release) form source.entry.bytes.now)
        (chosen asked.entry.service.now asked.entry.kind)) }
{
    let release = release_of_name(asked.release);
    match released_rules(alloc, release, source, form)? {
        Some(rules) => chosen(alloc, asked.service, asked.kind, rules),
        None => Ok(None),
    }
}

/// The fault of the file at a position.
fn fault_in(at: usize, fault: SourceFault) -> ConfError
    ensures { result ≡ fault_in at (fault_of_source fault) }
{
    let (kind, line) = match fault {
        SourceFault::TooLong => (FaultKind::FileTooLong, 0),
        SourceFault::NulByte(line) => (FaultKind::NulByte, line as usize),
    };
    ConfError {
        kind,
        at: Some(at),
        line,
    }
}

/// Reads the file at a position, of these bytes.
fn read_at<'a>(
    alloc: Global,
    asked: ReleaseRequest<'a>,
    form: Form,
    at: usize,
    bytes: &[u8],
) -> Result<ReleasedReply<'a>, ConfError>
    ensures { Gives ErrorTells released_view result (reading_at asked.entry.service.now asked.entry.kind asked.entry.release form at bytes.now) }
{
    let source = match Source::of(bytes) {
        Ok(source) => source,
        Err(fault) => return Err(fault_in(at, fault)),
    };
    let rules = chosen_rules(alloc, asked, form, source)?;
    Ok(ReleasedReply {
        service: asked.service,
        kind: asked.kind,
        release: asked.release,
        file: own_file(alloc, form, asked.service)?,
        rules,
    })
}

/// Reads the own file of a service.
fn read<'a>(
    alloc: Global,
    asked: ReleaseRequest<'a>,
    files: &Files,
) -> Result<ReleasedReply<'a>, ConfError>
    ensures { Gives ErrorTells released_view result (released asked.entry.service.now asked.entry.kind asked.entry.release files.now) }
{
    let name = own_file(alloc, files.form(), asked.service)?;
    match position(files, name.as_slice()) {
        Some(at) => {
            let bytes = files.bytes(at).unwrap_or(b"");
            read_at(alloc, asked, files.form(), at, bytes)
        }
        None => Err(ConfError {
            kind: FaultKind::NoService,
            at: None,
            line: 0,
        }),
    }
}

/// Reads the own file of a service for these kinds, in their order.
fn read_each<'a>(
    alloc: Global,
    service: &'a str,
    kinds: &[Kind],
    release: ReleaseName,
    files: &Files,
) -> Result<Vec<ReleasedReply<'a>>, ConfError>
    ensures { Gives ErrorTells (λ readings. map released_view readings.items) result
        (for_each (λ kind. released service.now kind release files.now) kinds.now) }
{
    let mut readings = Vec::new(alloc);
    for kind in kinds {
        let asked = ReleaseRequest {
            service,
            kind: *kind,
            release,
        };
        readings.push(read(alloc, asked, files)?)?;
    }
    Ok(readings)
}

/// Returns the rules of the own file of a service for these kinds, as a release reads them.
pub(super) fn read_as<'a>(
    alloc: Global,
    service: &'a str,
    kinds: &[Kind],
    release: ReleaseName,
    files: &Files,
) -> Result<Reply<'a>, Fault>
    ensures answer { Finds result (λ answer. shown_for (Some release) service.now kinds.now files.now ≡ answer) }
    ensures wants { WantsOnly (of_stack false) result }
{
    match read_each(alloc, service, kinds, release, files) {
        Ok(readings) => Ok(Reply::Released(readings)),
        Err(error) => Err(Fault::Conf(error)),
    }
}

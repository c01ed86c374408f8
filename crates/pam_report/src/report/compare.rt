//! The `compare` command: what changes from one configuration to another.

ghost use Rattle.std.specs.Prelude.{◌≡◌, IfOk, MatchResult, Ok, is_some, map, option_map};
ghost use Rattle.std.specs.Option.{option_copied};
ghost use Rattle.pam_changes.specs.Changes.{AreChanges};
ghost use Rattle.pam_changes.specs.Sides.{side_view};
ghost use Rattle.pam_report.specs.Compare.{IsCompare, are_named as are_named_in, lines_of, names_of, side_of, sides_of};
ghost use Rattle.pam_report.specs.inner.Compare.{IsFound, IsReturnsFault, IsUnfound};
ghost use Rattle.pam_report.specs.Finds.{Finds};
ghost use Rattle.pam_report.specs.Inputs.{no_files, returns_given};
ghost use Rattle.pam_report.specs.Memory.{WantsOnly, of_compare};
ghost use Rattle.pam_report.specs.Reply.{compare_status};
ghost use Rattle.pam_report.specs.ReplyViews.{compare_view, side_files};
ghost use Rattle.pam_report.specs.Services.{IfServices, sides_have};
ghost use Rattle.pam_facts.specs.settings.Settings.{setting_view};

use super::Status;
use super::compared_keys::are_keys;
use super::replies::Reply;
use crate::fault::{Fault, facts_fault};
use crate::inputs::{Inputs, SideInputs};
use crate::services::require_either;
use pam_changes::{HostChanges, Side, Sides};
use pam_conf::{Files, Form, Kind};
use pam_facts::Facts;
use pam_facts::known::NumberedError;
use pam_facts::settings::Setting;
use pam_tables::{ReturnTable, TableError};
use pam_text::Texts;
use std::alloc::{AllocError, Global};

/// What changes from one configuration to another.
#[derive(Drop)]
pub struct CompareReply<'a> {
    /// The two configurations, as far as they are given.
    pub old: Option<&'a Files>,
    pub new: Option<&'a Files>,
    pub changes: HostChanges,
}

/// The service and the kind that are compared, all if none is named, and the codes that are set for modules.
#[derive(Clone, Copy)]
pub(super) struct CompareRequest<'x> {
    pub service: Option<&'x str>,
    pub kind: Option<Kind>,
    pub settings: &'x [Setting<'x>],
}

impl CompareReply<'_> {
    /// Returns that a stack has a fault; else a refusal if a decision changes, or if that is not known.
    pub(super) fn status(&self) -> Status
        ensures { result ≡ compare_status (compare_view self.now) }
    {
        let counts = self.changes.counts();
        if counts.refused > 0 {
            Status::Faulty
        } else if counts.changed > 0 || counts.not_known > 0 {
            Status::Refusal
        } else {
            Status::Success
        }
    }
}

/// Returns the name of the service, if one is named.
fn names(alloc: Global, service: Option<&str>) -> Result<Texts, AllocError>
    ensures { IfOk result (λ names. names ≡ names_of (option_copied service.entry)) }
{
    let mut names = Texts::new(alloc);
    if let Some(service) = service {
        names.push(service.as_bytes())?;
    }
    Ok(names)
}

/// Returns a side of a comparison, which has no files if it is not given.
fn side<'x>(given: Option<&'x SideInputs>, none: &'x Files) -> Side<'x>
    requires { none.now ≡ no_files }
    ensures { side_view result ≡ side_of (option_map (λ s. s.now) given.entry) }
{
    match given {
        Some(side) => Side {
            files: &side.files,
            there: side.there.as_ref(),
        },
        None => Side {
            files: none,
            there: None,
        },
    }
}

/// Reads the returns file, if one is given.
fn returns<'x>(alloc: Global, inputs: &'x Inputs) -> Result<Option<ReturnTable<'x>>, TableError>
    ensures { MatchResult result (λ table. lines_of (returns_given inputs.now) ≡ Ok table)
        (λ e. IsReturnsFault inputs.now record { number = 1; error = e }) }
{
    let Some(bytes) = inputs.returns_file() else {
        return Ok(None);
    };
    match ReturnTable::read(alloc, bytes) {
        Ok(table) => Ok(Some(table)),
        Err(error) => Err(error),
    }
}

/// Compares the two configurations by what is known of modules.
fn changes(
    alloc: Global,
    asked: CompareRequest<'_>,
    inputs: &Inputs,
    facts: &Facts<'_>,
    returns: Option<&ReturnTable<'_>>,
) -> Result<HostChanges, AllocError>
    ensures { IfOk result
        (AreChanges (sides_of inputs.now facts.now (option_map (λ t. t.now) returns.entry) (map setting_view asked.entry.settings.now))
        (names_of (option_copied asked.entry.service)) asked.entry.kind) }
{
    let names = names(alloc, asked.service)?;
    let none = Files::new(alloc, Form::Dir);
    let sides = Sides {
        old: side(inputs.old_side(), &none),
        new: side(inputs.new_side(), &none),
        facts,
        returns,
        settings: asked.settings,
    };
    HostChanges::of(alloc, &sides, &names, asked.kind)
}

/// Whether each key of a setting is the name of a module of either configuration.
fn are_named(alloc: Global, inputs: &Inputs, settings: &[Setting<'_>]) -> Result<bool, AllocError>
    ensures { IfOk result (λ all. all ≡ are_named_in inputs.now (map setting_view settings.now)) }
{
    let none = Files::new(alloc, Form::Dir);
    let old = side(inputs.old_side(), &none);
    let new = side(inputs.new_side(), &none);
    are_keys(alloc, old.files, new.files, settings)
}

/// Compares the two configurations, or returns the first fault: of the facts file, then of the returns file, then that a key of a setting
/// names no module.
fn found(alloc: Global, asked: CompareRequest<'_>, inputs: &Inputs) -> Result<HostChanges, Fault>
    ensures { let settings = map setting_view asked.entry.settings.now in
        MatchResult result (IsFound (option_copied asked.entry.service) asked.entry.kind settings inputs.now) (IsUnfound settings inputs.now) }
{
    let facts = match Facts::read(alloc, inputs.facts_file()) {
        Ok(facts) => facts,
        Err(error) => return Err(facts_fault(error)),
    };
    let returns = match returns(alloc, inputs) {
        Ok(returns) => returns,
        Err(error) => return Err(Fault::Table(NumberedError::first(error))),
    };
    match are_named(alloc, inputs, asked.settings) {
        Ok(true) => {}
        Ok(false) => return Err(Fault::NoSuchKey),
        Err(_) => return Err(Fault::Memory),
    }
    match changes(alloc, asked, inputs, &facts, returns.as_ref()) {
        Ok(changes) => Ok(changes),
        Err(_) => Err(Fault::Memory),
    }
}

fn files_of<'a>(side: Option<&'a SideInputs>) -> Option<&'a Files>
    ensures { side_files result ≡ (side_of (option_map (λ s. s.now) side.entry)).folder }
{
    match side {
        Some(side) => Some(&side.files),
        None => None,
    }
}

/// Returns what changes for the service and the kind that are named, or for all. One of the two configurations has to have the service.
// Not inlined, so that a command uses no stack for the values of the others.
#[inline(never)]
pub(super) fn compared<'a>(
    alloc: Global,
    asked: CompareRequest<'_>,
    inputs: &'a Inputs,
) -> Result<Reply<'a>, Fault>
    ensures answer { Finds result (IfServices (sides_have inputs.now (option_copied asked.entry.service))
        (IsCompare (option_copied asked.entry.service) asked.entry.kind (map setting_view asked.entry.settings.now) inputs.now)) }
    ensures wants { WantsOnly (of_compare (is_some (returns_given inputs.now))) result }
{
    match require_either(alloc, inputs, asked.service) {
        Ok(()) => compared_services(alloc, asked, inputs),
        Err(fault) => Err(fault),
    }
}

/// Returns what changes for the service and the kind that are named, or for all.
fn compared_services<'a>(
    alloc: Global,
    asked: CompareRequest<'_>,
    inputs: &'a Inputs,
) -> Result<Reply<'a>, Fault>
    ensures answer { Finds result
        (IsCompare (option_copied asked.entry.service) asked.entry.kind (map setting_view asked.entry.settings.now) inputs.now) }
    ensures wants { WantsOnly (of_compare (is_some (returns_given inputs.now))) result }
{
    let changes = found(alloc, asked, inputs)?;
    Ok(Reply::Compared(CompareReply {
        old: files_of(inputs.old_side()),
        new: files_of(inputs.new_side()),
        changes,
    }))
}

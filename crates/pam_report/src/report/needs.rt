//! The `needs` command: the rules that hold of a stack.

ghost use Rattle.std.specs.Prelude.{◌≡◌, IfOk, None, Some, is_some, map, option_map};
ghost use Rattle.pam_facts.specs.known.Reads.{TablesRead};
ghost use Rattle.pam_facts.specs.known.Tables.{tables_view, timed_view};
ghost use Rattle.pam_facts.specs.settings.Settings.{setting_view};
ghost use Rattle.pam_paths.specs.Known.{may_answer};
ghost use Rattle.pam_policy.specs.declared.host.stacks.ClassStack.TheVariants.{Known as KnownClass};
ghost use Rattle.pam_policy.specs.host.HostStacks.{HasGraph};
ghost use Rattle.pam_policy.specs.needs.Suggestions.{SaysRules, suggestion_view};
ghost use Rattle.pam_policy.specs.search.Witness.{IsGraphOf};
ghost use Rattle.pam_report.specs.Finds.{Finds};
ghost use Rattle.pam_report.specs.Inputs.{tables_given};
ghost use Rattle.pam_report.specs.Memory.{WantsOnly, of_paths, paths_tables};
ghost use Rattle.pam_report.specs.Needs.{IsByClass, IsKeyed, IsNeeds, IsTimed, known_site_of};
ghost use Rattle.pam_report.specs.Policy.{are_keys};
ghost use Rattle.pam_report.specs.Services.{IfServices, has_service};
ghost use Rattle.pam_report.specs.inner.Known.{WantsForRuns, tables_from, with_time};
ghost use Rattle.pam_report.specs.inner.Memory.{WantsWork};
ghost use Rattle.pam_report.specs.inner.Needs.{FindsClass, FindsFrom, fault_of_conf, needs_text, stack_sources};

use super::host_sources::{host_sources, stacks_fault};
use super::known_stack::{Sources, StackRequest};
use super::login::lowered;
use super::replies::Reply;
use crate::fault::{Fault, facts_fault};
use crate::inputs::{Given, tables_with, timed_given};
use crate::report::compared_keys::are_keys;
use crate::services::require;
use jiff::civil::DateTime;
use pam_conf::{ConfError, FaultKind, Kind, NameList, Stack};
use pam_facts::Facts;
use pam_facts::known::{Tables, TimedTable};
use pam_policy::host::{ClassStack, KnownStack, StackClass};
use pam_policy::needs::{Suggestion, suggestions};
use pam_policy::rules::Site;
use pam_text::Texts;
use std::alloc::{AllocError, Global};

/// The rules that hold of the stack of a service.
#[derive(Drop)]
pub struct NeedsReply<'a> {
    pub service: &'a str,
    pub kind: Kind,
    pub stack: Stack,
    /// In their order; `None` if no answers let anybody in.
    pub rules: Option<Vec<Suggestion>>,
}

/// The fault for which a stack is refused.
fn refusal(error: ConfError) -> Fault
    ensures { result ≡ fault_of_conf error.kind error }
{
    match error.kind {
        FaultKind::Memory => Fault::Memory,
        _ => Fault::Conf(error),
    }
}

/// Returns the rules that hold of a stack.
fn rules_of(
    alloc: Global,
    kind: Kind,
    facts: &Facts<'_>,
    found: &KnownStack,
) -> Result<Option<Vec<Suggestion>>, AllocError>
    requires { IsGraphOf (may_answer found.now.known) found.now.stack found.now.graph }
    ensures { IfOk result (λ rules. SaysRules (known_site_of kind facts.now found.now) (option_map (λ those. map suggestion_view those.items) rules)) }
{
    suggestions(
        alloc,
        &Site {
            kind,
            stack: &found.stack,
            facts,
            known: &found.known,
            graph: &found.graph,
        },
    )
}

/// Returns the reply of `needs` for a known stack.
fn answer_known<'a>(
    alloc: Global,
    request: &StackRequest<'a>,
    facts: &Facts<'_>,
    found: KnownStack,
) -> Result<Reply<'a>, Fault>
    requires { IsGraphOf (may_answer found.known) found.stack found.graph }
    ensures answer { Finds result (IsByClass request.now.service.now request.now.kind facts.now (KnownClass found)) }
    ensures wants { WantsWork result }
{
    match rules_of(alloc, request.kind, facts, &found) {
        Ok(rules) => Ok(Reply::Needs(NeedsReply {
            service: request.service,
            kind: request.kind,
            stack: found.stack,
            rules,
        })),
        Err(_) => Err(Fault::Memory),
    }
}

/// Like `answer_known`, if the stack is known.
fn answer_class<'a>(
    alloc: Global,
    request: &StackRequest<'a>,
    facts: &Facts<'_>,
    class: StackClass,
) -> Result<Reply<'a>, Fault>
    requires { HasGraph class }
    ensures answer { Finds result (IsByClass request.now.service.now request.now.kind facts.now class.stack) }
    ensures wants { (read : TablesRead) → WantsOnly (of_paths read) result }
{
    match class.stack {
        ClassStack::Refused(error) => Err(refusal(error)),
        ClassStack::TooLarge => Err(Fault::TooManyStates),
        ClassStack::Known(found) => answer_known(alloc, request, facts, found),
    }
}

/// Finds what is known of the stack that is asked for, from these tables.
fn class_with(
    sources: &Sources<'_, '_>,
    request: &StackRequest<'_>,
    tables: &Tables<'_>,
) -> Result<StackClass, Fault>
    ensures { FindsClass request.now (stack_sources sources.now request.now (tables_view tables.now)) result }
{
    let service = match lowered(sources.alloc, request.service) {
        Ok(service) => service,
        Err(_) => return Err(Fault::Memory),
    };
    let host = host_sources(sources.files, request.login, sources.settings, tables);
    match StackClass::of(sources.alloc, &host, &service, request.kind) {
        Ok(class) => Ok(class),
        Err(error) => Err(stacks_fault(error)),
    }
}

/// The same, with this time table.
fn class_timed(
    sources: &Sources<'_, '_>,
    request: &StackRequest<'_>,
    given: Given<'_>,
    time: &Option<TimedTable<'_>>,
) -> Result<StackClass, Fault>
    ensures { let tables = with_time (tables_from given.entry None) (option_map timed_view time.now) in
        FindsClass request.now (stack_sources sources.now request.now tables) result }
{
    let tables = tables_with(given, time);
    // Their types are named here, since the proof of what is lent has to find them.
    let _there: Option<&NameList> = tables.there;
    let _access: Option<&Texts> = tables.access;
    class_with(sources, request, &tables)
}

/// The same, by these facts and at this moment.
fn class_at(
    sources: &Sources<'_, '_>,
    request: &StackRequest<'_>,
    facts: &Facts<'_>,
    moment: Option<DateTime>,
) -> Result<StackClass, Fault>
    ensures class { let tables = tables_given sources.now.inputs.now (Some facts.now) moment in
        FindsClass request.now (stack_sources sources.now request.now tables) result }
    ensures wants { WantsOnly (of_paths (paths_tables (is_some moment) sources.now.inputs.now)) result }
{
    let given = Given {
        inputs: sources.inputs,
        facts: Some(facts),
    };
    class_timed(
        sources,
        request,
        given,
        &timed_given(sources.inputs, moment),
    )
}

/// Returns the rules that hold of the stack that is asked for, at this moment.
fn answer_at<'a>(
    sources: &Sources<'_, '_>,
    request: &StackRequest<'a>,
    facts: &Facts<'_>,
    moment: Option<DateTime>,
) -> Result<Reply<'a>, Fault>
    ensures answer { let tables = tables_given sources.now.inputs.now (Some facts.now) moment in
        FindsFrom request.now facts.now (stack_sources sources.now request.now tables) result }
    ensures wants { WantsOnly (of_paths (paths_tables (is_some moment) sources.now.inputs.now)) result }
{
    match class_at(sources, request, facts, moment) {
        Ok(class) => answer_class(sources.alloc, request, facts, class),
        Err(fault) => Err(fault),
    }
}

/// Like `answer_at`, if each key that is set is the name of a module.
fn keyed<'a>(
    sources: &Sources<'_, '_>,
    request: &StackRequest<'a>,
    facts: &Facts<'_>,
    moment: Option<DateTime>,
) -> Result<Reply<'a>, Fault>
    ensures answer { let named = are_keys sources.now.files.now (map setting_view sources.now.settings.now) in
        Finds result (IsKeyed (needs_text sources.now request.now) sources.now.files.now sources.now.inputs.now named facts.now moment) }
    ensures wants { WantsOnly (of_paths (paths_tables (is_some moment) sources.now.inputs.now)) result }
{
    match are_keys(
        sources.alloc,
        sources.files,
        sources.files,
        sources.settings,
    ) {
        Ok(true) => answer_at(sources, request, facts, moment),
        Ok(false) => Err(Fault::NoSuchKey),
        Err(_) => Err(Fault::Memory),
    }
}

/// Like `keyed`, if the moment is valid.
fn timed<'a>(
    sources: &Sources<'_, '_>,
    request: &StackRequest<'a>,
    facts: &Facts<'_>,
) -> Result<Reply<'a>, Fault>
    ensures answer { Finds result (IsTimed (needs_text sources.now request.now) sources.now.files.now sources.now.inputs.now sources.now.moment facts.now) }
    ensures wants { WantsForRuns sources.now result }
{
    match sources.moment {
        None => keyed(sources, request, facts, None),
        Some(Ok(moment)) => keyed(sources, request, facts, Some(moment)),
        Some(Err(error)) => Err(Fault::Moment(error)),
    }
}

/// Like `timed`, if the facts file has no fault.
fn by_facts<'a>(sources: &Sources<'_, '_>, request: &StackRequest<'a>) -> Result<Reply<'a>, Fault>
    ensures answer { Finds result (IsNeeds (needs_text sources.now request.now) sources.now.files.now sources.now.inputs.now) }
    ensures wants { WantsForRuns sources.now result }
{
    match Facts::read(sources.alloc, sources.inputs.facts_file()) {
        Ok(facts) => timed(sources, request, &facts),
        Err(error) => Err(facts_fault(error)),
    }
}

/// Returns the rules that hold of the stack that is asked for, whose service has to be one of the configuration, or the first fault: of
/// the facts file, then of the moment, then of a key that is set, then of the configuration or the tables.
// Not inlined, so that a command uses no stack for the values of the others.
#[inline(never)]
pub(super) fn answer_needs<'a>(
    sources: &Sources<'_, '_>,
    request: &StackRequest<'a>,
) -> Result<Reply<'a>, Fault>
    ensures answer { Finds result (IfServices (has_service sources.now.files.now request.now.service.now)
        (IsNeeds (needs_text sources.now request.now) sources.now.files.now sources.now.inputs.now)) }
    ensures wants { WantsForRuns sources.now result }
{
    match require(sources.alloc, sources.files, request.service) {
        Ok(()) => by_facts(sources, request),
        Err(fault) => Err(fault),
    }
}

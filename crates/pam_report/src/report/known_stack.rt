//! What the commands about paths begin with: the stack of a service, and what is known of the answers of its modules.

ghost use Rattle.std.specs.Prelude.{IfErr, None, is_some, option_map};
ghost use Rattle.pam_conf.specs.Resolution.{resolved};
ghost use Rattle.pam_report.specs.Answer.{login_at};
ghost use Rattle.pam_facts.specs.known.Knowledge.{knowledge};
ghost use Rattle.pam_facts.specs.known.Reads.{tables_read};
ghost use Rattle.pam_facts.specs.known.Tables.{tables_view, timed_view};
ghost use Rattle.pam_report.specs.inner.Known.{FindsKnown, FindsStack, IsFaultOfRead, rows_of, stack_from, tables_from, with_time};
ghost use Rattle.pam_report.specs.KnownStack.{facts_asked, known_at as stack_at, known_items, known_stack as stack_known, known_then as stack_then, with_facts};
ghost use Rattle.pam_report.specs.Memory.{IsWanting, of_paths, paths_tables};
ghost use Rattle.pam_tables.specs.Login.{login_view};

use super::login::{login_to, lowered};
use super::settings::with_settings;
use crate::fault::{Fault, facts_fault, known_fault};
use crate::inputs::{Given, Inputs, tables_with, timed_given};
use jiff::civil::DateTime;
use pam_conf::{Files, Kind, NameList, Stack, resolve};
use pam_facts::Facts;
use pam_facts::known::{Tables, TimedTable, known_answers};
use pam_facts::settings::Setting;
use pam_paths::Known;
use pam_tables::Login as TableLogin;
use pam_tables::times::MomentError;
use pam_text::Texts;
use pam_words::{Answers, Login};
use std::alloc::Global;

/// A stack that is asked for, and the login that its modules decide on.
#[derive(Clone, Copy)]
pub(super) struct StackRequest<'a> {
    pub service: &'a str,
    pub kind: Kind,
    pub login: Login<'a>,
}

/// What the runs of a stack are found from: the files, the tables, what is asked of facts, the codes that are set, and the moment, if one
/// is given.
#[derive(Clone, Copy)]
pub(super) struct Sources<'x, 's> {
    pub alloc: Global,
    pub files: &'x Files,
    pub inputs: &'x Inputs,
    pub answers: Answers<'s>,
    pub settings: &'x [Setting<'s>],
    pub moment: Option<Result<DateTime, MomentError>>,
}

/// A stack, and the codes that its modules may return.
#[derive(Drop)]
pub(super) struct KnownStack {
    pub stack: Stack,
    pub known: Known,
}

/// Returns the codes that the modules of a stack may return, from these tables.
fn known_by(
    alloc: Global,
    kind: Kind,
    login: &TableLogin<'_>,
    stack: &Stack,
    tables: &Tables<'_>,
) -> Result<Known, Fault>
    ensures known { FindsKnown stack.now result (known_items stack.now (knowledge kind (login_view login.now) (tables_view tables.now) stack.now)) }
    ensures read { IfErr result (IsFaultOfRead (tables_read kind (tables_view tables.now) stack.now)) }
{
    match known_answers(alloc, stack, kind, login, tables) {
        Ok(known) => Ok(known),
        Err(error) => Err(known_fault(error)),
    }
}

/// Returns the codes that the modules of a stack may return, with this time table.
fn known_with(
    alloc: Global,
    kind: Kind,
    login: &TableLogin<'_>,
    given: Given<'_>,
    stack: &Stack,
    time: &Option<TimedTable<'_>>,
) -> Result<Known, Fault>
    ensures known { let tables = with_time (tables_from given.entry None) (option_map timed_view time.now) in
        FindsKnown stack.now result (known_items stack.now (knowledge kind (login_view login.now) tables stack.now)) }
    ensures read { let tables = with_time (tables_from given.entry None) (option_map timed_view time.now) in
        IfErr result (IsFaultOfRead (tables_read kind tables stack.now)) }
{
    let tables = tables_with(given, time);
    // Their types are named here, since the proof of what is lent has to find them.
    let _there: Option<&NameList> = tables.there;
    let _access: Option<&Texts> = tables.access;
    known_by(alloc, kind, login, stack, &tables)
}

/// Returns the codes that the modules of a stack may return at a moment.
fn known_at(
    alloc: Global,
    kind: Kind,
    login: &TableLogin<'_>,
    given: Given<'_>,
    stack: &Stack,
    moment: Option<DateTime>,
) -> Result<Known, Fault>
    ensures known { FindsKnown stack.now result (stack_at kind (login_view login.now) given.entry.inputs.now (rows_of given.entry.facts) stack.now moment) }
    ensures wants { IfErr result (IsWanting (of_paths (paths_tables (is_some moment) given.entry.inputs.now))) }
{
    known_with(
        alloc,
        kind,
        login,
        given,
        stack,
        &timed_given(given.inputs, moment),
    )
}

/// Like `known_at`, for a moment that may be missing or invalid.
fn known_then(
    alloc: Global,
    kind: Kind,
    login: &TableLogin<'_>,
    given: Given<'_>,
    stack: &Stack,
    moment: Option<Result<DateTime, MomentError>>,
) -> Result<Known, Fault>
    ensures known { FindsKnown stack.now result (stack_then kind (login_view login.now) given.entry.inputs.now (rows_of given.entry.facts) stack.now moment) }
    ensures wants { IfErr result (IsWanting (of_paths (paths_tables (is_some moment) given.entry.inputs.now))) }
{
    match moment {
        None => known_at(alloc, kind, login, given, stack, None),
        Some(Ok(moment)) => known_at(alloc, kind, login, given, stack, Some(moment)),
        Some(Err(error)) => Err(Fault::Moment(error)),
    }
}

/// Like `known_then`, for the login of a request.
fn known_to(
    alloc: Global,
    request: &StackRequest<'_>,
    moment: Option<Result<DateTime, MomentError>>,
    given: Given<'_>,
    stack: &Stack,
) -> Result<Known, Fault>
    ensures known { let login = login_at request.now.service.now request.now.login in FindsKnown stack.now result
        (stack_then request.now.kind login given.entry.inputs.now (rows_of given.entry.facts) stack.now moment) }
    ensures wants { IfErr result (IsWanting (of_paths (paths_tables (is_some moment) given.entry.inputs.now))) }
{
    match lowered(alloc, request.service) {
        Ok(service) => {
            let login = login_to(&service, request.login);
            known_then(alloc, request.kind, &login, given, stack, moment)
        }
        Err(_) => Err(Fault::Memory),
    }
}

/// Returns the stack, and the codes that its modules may return by tables, the returns file and these facts, or the first fault: of the
/// configuration, then of the moment, then of the tables.
fn stack_by_tables(
    sources: &Sources<'_, '_>,
    request: &StackRequest<'_>,
    facts: Option<&Facts<'_>>,
) -> Result<KnownStack, Fault>
    ensures stack { FindsStack result (stack_known request.now.kind (login_at request.now.service.now request.now.login) sources.now.inputs.now
        (rows_of facts.entry) sources.now.moment (resolved sources.now.files.now request.now.service.now request.now.kind)) }
    ensures wants { IfErr result (IsWanting (of_paths (paths_tables (is_some sources.now.moment) sources.now.inputs.now))) }
{
    let alloc = sources.alloc;
    let stack = match resolve(
        alloc,
        sources.files,
        request.service.as_bytes(),
        request.kind,
    ) {
        Ok(stack) => stack,
        Err(error) => return Err(Fault::Conf(error)),
    };
    let given = Given {
        inputs: sources.inputs,
        facts,
    };
    match known_to(alloc, request, sources.moment, given, &stack) {
        Ok(known) => Ok(KnownStack { stack, known }),
        Err(fault) => Err(fault),
    }
}

/// Like `stack_by_tables`, with the facts that are asked. A fault of the facts file comes first.
fn stack_by_facts(
    sources: &Sources<'_, '_>,
    request: &StackRequest<'_>,
) -> Result<KnownStack, Fault>
    ensures stack { FindsStack result (with_facts (facts_asked sources.now.answers sources.now.inputs.now) (λ facts.
        stack_known request.now.kind (login_at request.now.service.now request.now.login) sources.now.inputs.now
        facts sources.now.moment (resolved sources.now.files.now request.now.service.now request.now.kind))) }
    ensures wants { IfErr result (IsWanting (of_paths (paths_tables (is_some sources.now.moment) sources.now.inputs.now))) }
{
    match sources.answers {
        Answers::Any => stack_by_tables(sources, request, None),
        Answers::Possible { .. } => {
            match Facts::read(sources.alloc, sources.inputs.facts_file()) {
                Ok(facts) => stack_by_tables(sources, request, Some(&facts)),
                Err(error) => Err(facts_fault(error)),
            }
        }
    }
}

/// Returns the stack, and the codes that its modules may return, or the first fault: of the facts file, then of the configuration, then
/// of the moment, then of the tables, then that a key of a setting names no module.
pub(super) fn known_stack(
    sources: &Sources<'_, '_>,
    request: &StackRequest<'_>,
) -> Result<KnownStack, Fault>
    ensures stack { FindsStack result (stack_from sources.now request.now) }
    ensures wants { IfErr result (IsWanting (of_paths (paths_tables (is_some sources.now.moment) sources.now.inputs.now))) }
{
    match stack_by_facts(sources, request) {
        Ok(found) => {
            with_settings(
                sources.files,
                sources.inputs.there(),
                sources.settings,
                found,
            )
        }
        Err(fault) => Err(fault),
    }
}

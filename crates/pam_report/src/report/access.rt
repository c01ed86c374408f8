//! The `access` command: the line of the access tables that decides.

ghost use Rattle.std.specs.Prelude.{◌≡◌, ℕ, [], Bool, List, IfErr, is_some, map, true, false, option_map};
ghost use Rattle.std.specs.Option.{option_copied, option_map_or};
ghost use Rattle.pam_facts.specs.known.Access.{tables_decide};
ghost use Rattle.pam_tables.specs.Error.{Gives};
ghost use Rattle.pam_tables.specs.Login.{login_view};
ghost use Rattle.pam_tables.specs.Options.{options_of};
ghost use Rattle.pam_report.specs.Answer.{login_at, looked_up, table_of_line as table_of_line_in, with_decision};
ghost use Rattle.pam_report.specs.inner.Answer.{FindsAccess};
ghost use Rattle.pam_report.specs.Finds.{Finds};
ghost use Rattle.pam_report.specs.Inputs.{group_file, groups_in};
ghost use Rattle.pam_report.specs.Memory.{IsWanting, WantsOnly, of_tables};

use super::login::{login_to, lowered};
use super::replies::{AccessReply, Reply};
use crate::fault::Fault;
use crate::inputs::Inputs;
use pam_facts::known::{AccessDecision, NumberedError, decide_access};
use pam_tables::{AccessAnswer, AccessOptions, Groups, Login as TableLogin, Table, TableError};
use pam_text::Texts;
use pam_words::Login;
use std::alloc::Global;

/// Reads the groups, if a file is given.
fn groups(alloc: Global, bytes: Option<&[u8]>) -> Result<Groups<'_>, TableError>
    ensures groups { Gives Table.Group (λ groups. groups) result (groups_in (option_map (λ b. b.now) bytes.entry)) }
    ensures given { IfErr result (λ e. is_some bytes.entry ≡ true) }
{
    match bytes {
        Some(bytes) => Groups::read(alloc, bytes),
        None => Ok(Groups::new(alloc)),
    }
}

/// Looks up a login in access tables, with the groups of the group file.
fn look_up_with(
    alloc: Global,
    login: &TableLogin<'_>,
    groups: &Groups<'_>,
    arguments: &Texts,
    tables: &Texts,
) -> Result<AccessDecision, Fault>
    ensures answer { (names : List (List ℕ)) → FindsAccess names result
        (with_decision names (tables_decide (login_view login.now) groups.now (options_of arguments.now) tables.now)) }
    ensures wants { (groups_given : Bool) → IfErr result (IsWanting (of_tables true groups_given false)) }
{
    match decide_access(alloc, login, groups, &AccessOptions::of(arguments), tables) {
        Ok(decision) => Ok(decision),
        Err(error) => Err(Fault::Table(error)),
    }
}

/// Looks up a login in these access tables, or in none.
fn look_up_in(
    alloc: Global,
    login: &TableLogin<'_>,
    groups: &Groups<'_>,
    arguments: &Texts,
    tables: Option<&Texts>,
) -> Result<AccessDecision, Fault>
    ensures answer { (names : List (List ℕ)) → FindsAccess names result (with_decision names
        (tables_decide (login_view login.now) groups.now (options_of arguments.now) (option_map_or (λ t. t.now) tables.entry []))) }
    ensures wants { (groups_given : Bool) → IfErr result (IsWanting (of_tables true groups_given false)) }
{
    match tables {
        Some(tables) => look_up_with(alloc, login, groups, arguments, tables),
        None => look_up_with(alloc, login, groups, arguments, &Texts::new(alloc)),
    }
}

/// Looks up a login in the access tables.
fn look_up(
    alloc: Global,
    login: &TableLogin<'_>,
    arguments: &Texts,
    inputs: &Inputs,
) -> Result<AccessDecision, Fault>
    ensures answer { (names : List (List ℕ)) → FindsAccess names result (looked_up (login_view login.now) arguments.now names inputs.now) }
    ensures wants { IfErr result (IsWanting (of_tables true (is_some (group_file inputs.now)) false)) }
{
    match groups(alloc, inputs.groups()) {
        Ok(groups) => look_up_in(alloc, login, &groups, arguments, inputs.access_tables()),
        Err(error) => Err(Fault::Table(NumberedError::first(error))),
    }
}

/// Returns the name of the table whose line decides, if several are named.
fn table_of_line<'a>(names: &[&'a str], decision: AccessDecision) -> Option<&'a str>
    ensures { option_copied result ≡ table_of_line_in (map (λ n. n.now) names.now) decision }
{
    if names.len() < 2 {
        return None;
    }
    match decision.answer {
        AccessAnswer::Granted(None) => None,
        AccessAnswer::Granted(Some(_)) | AccessAnswer::Denied(_) => {
            names.get(decision.number).copied()
        }
    }
}

fn answer_login<'a>(
    alloc: Global,
    login: &TableLogin<'_>,
    arguments: &Texts,
    names: &[&'a str],
    inputs: &Inputs,
) -> Result<Reply<'a>, Fault>
    ensures answer { Finds result (λ answer. looked_up (login_view login.now) arguments.now (map (λ n. n.now) names.now) inputs.now ≡ answer) }
    ensures wants { WantsOnly (of_tables true (is_some (group_file inputs.now)) false) result }
{
    match look_up(alloc, login, arguments, inputs) {
        Ok(decision) => Ok(Reply::Access(AccessReply {
            answer: decision.answer,
            table: table_of_line(names, decision),
        })),
        Err(fault) => Err(fault),
    }
}

/// Looks up the login of a request in the access tables with these names.
pub(super) fn answer_access<'a>(
    alloc: Global,
    service: &str,
    login: Login<'_>,
    arguments: &Texts,
    names: &[&'a str],
    inputs: &Inputs,
) -> Result<Reply<'a>, Fault>
    ensures answer { Finds result (λ answer. looked_up (login_at service.now login.entry) arguments.now (map (λ n. n.now) names.now) inputs.now ≡ answer) }
    ensures wants { WantsOnly (of_tables true (is_some (group_file inputs.now)) false) result }
{
    match lowered(alloc, service) {
        Ok(service) => answer_login(alloc, &login_to(&service, login), arguments, names, inputs),
        Err(_) => Err(Fault::Memory),
    }
}

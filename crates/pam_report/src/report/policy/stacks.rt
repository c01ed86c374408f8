//! The stacks of the host of which policies are asked.

ghost use Rattle.std.specs.Prelude.{IfErr, None, is_some, option_map};
ghost use Rattle.pam_facts.specs.known.Tables.{tables_view, timed_view};
ghost use Rattle.pam_report.specs.Memory.{IsWanting, of_paths, paths_tables};
ghost use Rattle.pam_report.specs.Policy.{sources_of};
ghost use Rattle.pam_report.specs.inner.Known.{tables_from, with_time};
ghost use Rattle.pam_report.specs.inner.Policy.{FindsStacks, policy_text, sources_with};

use super::answering::PolicyRequest;
use crate::fault::Fault;
use crate::inputs::{Given, tables_with, timed_given};
use crate::report::host_sources::{host_sources, stacks_fault};
use jiff::civil::DateTime;
use pam_conf::NameList;
use pam_facts::Facts;
use pam_facts::known::{Tables, TimedTable};
use pam_policy::host::HostStacks;
use pam_text::Texts;

/// Finds the stacks, from these tables.
fn stacks_with(asked: &PolicyRequest<'_, '_>, tables: &Tables<'_>) -> Result<HostStacks, Fault>
    ensures { FindsStacks (sources_with asked.now (tables_view tables.now)) result }
{
    let sources = host_sources(asked.files, asked.login, asked.settings, tables);
    match HostStacks::of(asked.alloc, &sources) {
        Ok(stacks) => Ok(stacks),
        Err(error) => Err(stacks_fault(error)),
    }
}

/// Finds the stacks, with this time table.
fn stacks_timed(
    asked: &PolicyRequest<'_, '_>,
    given: Given<'_>,
    time: &Option<TimedTable<'_>>,
) -> Result<HostStacks, Fault>
    ensures { FindsStacks (sources_with asked.now (with_time (tables_from given.entry None) (option_map timed_view time.now))) result }
{
    let tables = tables_with(given, time);
    // Their types are named here, since the proof of what is lent has to find them.
    let _there: Option<&NameList> = tables.there;
    let _access: Option<&Texts> = tables.access;
    stacks_with(asked, &tables)
}

/// Finds the stacks, by these facts and at this moment.
pub(super) fn stacks_at(
    asked: &PolicyRequest<'_, '_>,
    facts: &Facts<'_>,
    moment: Option<DateTime>,
) -> Result<HostStacks, Fault>
    ensures stacks { FindsStacks (sources_of (policy_text asked.now) asked.now.files.now asked.now.inputs.now facts.now moment) result }
    ensures wants { IfErr result (IsWanting (of_paths (paths_tables (is_some moment) asked.now.inputs.now))) }
{
    let given = Given {
        inputs: asked.inputs,
        facts: Some(facts),
    };
    stacks_timed(asked, given, &timed_given(asked.inputs, moment))
}

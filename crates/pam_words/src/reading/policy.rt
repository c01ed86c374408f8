//! Reads a `policy` request from its words.

ghost use Rattle.clap.specs.Words.{found_of, rows_of};
ghost use Rattle.pam_words.specs.Request.{policy_task};
ghost use Rattle.pam_words.specs.inner.Wanted.{GivesTask};

use crate::reading::checks::{level, source_or_root};
use crate::reading::knowledge::{knowledge, names};
use crate::reading::value;
use crate::wanted::{Answers, Task, Usage};
use clap::ArgMatches;
use std::alloc::Global;

pub(crate) fn policy<'a>(alloc: Global, matches: &ArgMatches<'a>) -> Result<Task<'a>, Usage>
    ensures { GivesTask (policy_task (rows_of (found_of matches.now))) result }
{
    let Some(source) = source_or_root(matches) else {
        return Err(Usage::Source);
    };
    let Some(fail_on) = level(matches) else {
        return Err(Usage::LevelName);
    };
    let Ok(policies) = names(alloc, matches, "policy") else {
        return Err(Usage::Memory);
    };
    let facts = value(matches, "facts");
    let knowledge = knowledge(alloc, matches, Answers::Possible { facts })?;
    Ok(Task::Policy {
        source,
        policies,
        fail_on,
        knowledge,
    })
}

//! Reads a `needs` request from its words.

ghost use Rattle.clap.specs.Words.{found_of, rows_of};
ghost use Rattle.pam_words.specs.Request.{needs_task};
ghost use Rattle.pam_words.specs.inner.Wanted.{GivesTask};

use crate::reading::checks::stack_or_root;
use crate::reading::knowledge::knowledge;
use crate::reading::value;
use crate::wanted::{Answers, Task, Usage};
use clap::ArgMatches;
use std::alloc::Global;

pub(crate) fn needs<'a>(alloc: Global, matches: &ArgMatches<'a>) -> Result<Task<'a>, Usage>
    ensures { GivesTask (needs_task (rows_of (found_of matches.now))) result }
{
    let (source, kind) = stack_or_root(matches)?;
    let facts = value(matches, "facts");
    let knowledge = knowledge(alloc, matches, Answers::Possible { facts })?;
    Ok(Task::Needs {
        source,
        kind,
        knowledge,
    })
}

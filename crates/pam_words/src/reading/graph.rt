//! Reads a `graph` request from its words.

ghost use Rattle.std.specs.Prelude.{◌≡◌};
ghost use Rattle.clap.specs.Words.{found_of, rows_of};
ghost use Rattle.pam_words.specs.Request.{graph_task};
ghost use Rattle.pam_words.specs.Values.{format_named as format_of_name, format_of};
ghost use Rattle.pam_words.specs.inner.Wanted.{GivesTask};

use crate::reading::checks::stack_or_root;
use crate::reading::knowledge::possible_knowledge;
use crate::reading::value;
use crate::wanted::{GraphFormat, Task, Usage};
use clap::ArgMatches;
use std::alloc::Global;

fn format_named(name: &str) -> Option<GraphFormat>
    ensures { result ≡ format_of_name name.now }
{
    if name == "dot" {
        Some(GraphFormat::Dot)
    } else if name == "mermaid" {
        Some(GraphFormat::Mermaid)
    } else if name == "svg" {
        Some(GraphFormat::Svg)
    } else {
        None
    }
}

/// Returns the format, or `None` if the name that is given is not that of one.
fn format(matches: &ArgMatches<'_>) -> Option<GraphFormat>
    ensures { result ≡ format_of (rows_of (found_of matches.now)) }
{
    match value(matches, "format") {
        Some(name) => format_named(name),
        None => Some(GraphFormat::Dot),
    }
}

pub(crate) fn graph<'a>(alloc: Global, matches: &ArgMatches<'a>) -> Result<Task<'a>, Usage>
    ensures { GivesTask (graph_task (rows_of (found_of matches.now))) result }
{
    let (source, kind) = stack_or_root(matches)?;
    let Some(format) = format(matches) else {
        return Err(Usage::FormatName);
    };
    let knowledge = possible_knowledge(alloc, matches)?;
    Ok(Task::Graph {
        source,
        kind,
        format,
        knowledge,
    })
}

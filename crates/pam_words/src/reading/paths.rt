//! Reads a `paths` request from its words.

ghost use Rattle.std.specs.Prelude.{◌≡◌, option_map};
ghost use Rattle.clap.specs.Words.{found_of, rows_of};
ghost use Rattle.pam_words.specs.Request.{paths_task};
ghost use Rattle.pam_words.specs.Values.{asks_of, limit_of, one_filter, part_of};
ghost use Rattle.pam_words.specs.Wanted.{part_view};
ghost use Rattle.pam_words.specs.inner.Wanted.{GivesTask};

use crate::number::{DEFAULT_LIMIT, number_in};
use crate::reading::decisions::decisions;
use crate::reading::knowledge::knowledge;
use crate::reading::{stack, value};
use crate::wanted::{Answers, PagePart, PathFilter, Task, Usage};
use clap::ArgMatches;
use pam_codes::CodeSet;
use std::alloc::Global;

fn limit(matches: &ArgMatches<'_>) -> u32
    ensures { result ≡ limit_of (rows_of (found_of matches.now)) }
{
    let Some(number) = value(matches, "limit") else {
        return DEFAULT_LIMIT;
    };
    number_in(number).unwrap_or(DEFAULT_LIMIT)
}

/// Returns the part of the listing, or `None` if both `--after` and `--before` are given.
fn part<'a>(matches: &ArgMatches<'a>) -> Option<PagePart<'a>>
    ensures { option_map part_view result ≡ part_of (rows_of (found_of matches.now)) }
{
    match (value(matches, "after"), value(matches, "before")) {
        (None, None) => Some(PagePart::Whole),
        (Some(cursor), None) => Some(PagePart::After(cursor)),
        (None, Some(cursor)) => Some(PagePart::Before(cursor)),
        (Some(_), Some(_)) => None,
    }
}

fn asks(matches: &ArgMatches<'_>) -> Option<u32>
    ensures { result ≡ asks_of (rows_of (found_of matches.now)) }
{
    match value(matches, "asks") {
        Some(number) => number_in(number),
        None => None,
    }
}

/// Returns the filter, or `None` if both decisions and a module are given.
fn filter(decisions: Option<CodeSet>, asks: Option<u32>) -> Option<PathFilter>
    ensures { result ≡ one_filter decisions asks }
{
    match (decisions, asks) {
        (None, None) => Some(PathFilter::All),
        (Some(decisions), None) => Some(PathFilter::Decides(decisions)),
        (None, Some(module_number)) => Some(PathFilter::Asks(module_number)),
        (Some(_), Some(_)) => None,
    }
}

pub(crate) fn paths<'a>(alloc: Global, matches: &ArgMatches<'a>) -> Result<Task<'a>, Usage>
    ensures { GivesTask (paths_task (rows_of (found_of matches.now))) result }
{
    let (source, kind) = stack(matches)?;
    let Some(decisions) = decisions(matches) else {
        return Err(Usage::CodeName);
    };
    let knowledge = knowledge(alloc, matches, Answers::Any)?;
    let Some(part) = part(matches) else {
        return Err(Usage::BothEnds);
    };
    let Some(filter) = filter(decisions, asks(matches)) else {
        return Err(Usage::BothFilters);
    };
    Ok(Task::Paths {
        source,
        kind,
        limit: limit(matches),
        part,
        filter,
        knowledge,
    })
}

//! Reads a `check` request from its words.

ghost use Rattle.std.specs.Prelude.{◌≡◌, IfOk, option_map};
ghost use Rattle.clap.specs.Words.{found_of, rows_of};
ghost use Rattle.pam_words.specs.Request.{check_task, stack_or_root as stack_or_root_of};
ghost use Rattle.pam_words.specs.Values.{level_named as level_of_name, level_of, source_or_root as source_or_root_of};
ghost use Rattle.pam_words.specs.Values.{names_source as has_source};
ghost use Rattle.pam_words.specs.Wanted.{Gives, source_view};
ghost use Rattle.pam_words.specs.inner.Wanted.{GivesTask, IsGiven};

use crate::reading::candidates::services;
use crate::reading::knowledge::{has, names, tables};
use crate::reading::{kind, source, value};
use crate::wanted::{CheckFiles, ConfSource, LevelName, Task, Usage};
use clap::ArgMatches;
use pam_conf::Kind;
use std::alloc::{AllocError, Global};

/// Whether an option of a source is given.
pub(crate) fn names_source(matches: &ArgMatches<'_>) -> bool
    ensures { result ≡ has_source (rows_of (found_of matches.now)) }
{
    has(matches, "dir")
        || has(matches, "vendor-dir")
        || has(matches, "conf")
        || has(matches, "root")
}

/// Returns the source, which is the running system if no option names one.
pub(crate) fn source_or_root<'a>(matches: &ArgMatches<'a>) -> Option<ConfSource<'a>>
    ensures { option_map source_view result ≡ source_or_root_of (rows_of (found_of matches.now)) }
{
    if names_source(matches) {
        source(matches)
    } else {
        Some(ConfSource::Root("/"))
    }
}

/// Reads the source, which is the running system if no option names one, and the kind.
pub(crate) fn stack_or_root<'a>(matches: &ArgMatches<'a>) -> Result<(ConfSource<'a>, Kind), Usage>
    ensures { Gives (λ p. (source_view p.0, p.1)) (stack_or_root_of (rows_of (found_of matches.now))) result }
{
    let Some(source) = source_or_root(matches) else {
        return Err(Usage::Source);
    };
    let Some(kind) = kind(matches) else {
        return Err(Usage::KindName);
    };
    Ok((source, kind))
}

fn level_named(name: &str) -> Option<LevelName>
    ensures { result ≡ level_of_name name.now }
{
    if name == "error" {
        Some(LevelName::Error)
    } else if name == "warning" {
        Some(LevelName::Warning)
    } else if name == "note" {
        Some(LevelName::Note)
    } else {
        None
    }
}

/// Returns the least level that fails, or `None` if the name that is given is not that of one.
pub(crate) fn level(matches: &ArgMatches<'_>) -> Option<LevelName>
    ensures { result ≡ level_of (rows_of (found_of matches.now)) }
{
    match value(matches, "fail-on") {
        Some(name) => level_named(name),
        None => Some(LevelName::Warning),
    }
}

/// Reads the names of the folders and files that a check reads besides the configuration.
fn given<'a>(alloc: Global, matches: &ArgMatches<'a>) -> Result<CheckFiles<'a>, AllocError>
    ensures { IfOk result (λ given. IsGiven (rows_of (found_of matches.now)) given) }
{
    Ok(CheckFiles {
        modules: names(alloc, matches, "modules")?,
        tables: tables(alloc, matches)?,
        facts: value(matches, "facts"),
        accept: value(matches, "accept"),
    })
}

pub(crate) fn check<'a>(alloc: Global, matches: &ArgMatches<'a>) -> Result<Task<'a>, Usage>
    ensures { GivesTask (check_task (rows_of (found_of matches.now))) result }
{
    let Some(source) = source_or_root(matches) else {
        return Err(Usage::Source);
    };
    let Some(fail_on) = level(matches) else {
        return Err(Usage::LevelName);
    };
    let Ok(given) = given(alloc, matches) else {
        return Err(Usage::Memory);
    };
    match services(alloc, matches) {
        Ok(services) => Ok(Task::Check {
            source,
            services,
            fail_on,
            given,
        }),
        Err(_) => Err(Usage::Memory),
    }
}

//! Reads a `compare` request from its words.

ghost use Rattle.std.specs.Prelude.{◌≡◌, IfOk, option_map};
ghost use Rattle.clap.specs.Words.{found_of, rows_of};
ghost use Rattle.pam_words.specs.Request.{compare_task};
ghost use Rattle.pam_words.specs.Values.{side_in, side_of};
ghost use Rattle.pam_words.specs.Wanted.{source_view};
ghost use Rattle.pam_words.specs.inner.Wanted.{GivesTask, IsCompareGiven};

use crate::reading::knowledge::names;
use crate::reading::settings::settings;
use crate::reading::{is_on, kind_if_named, text, value};
use crate::wanted::{CompareFiles, ConfSource, Task, Usage};
use clap::ArgMatches;
use pam_facts::settings::Setting;
use std::alloc::{AllocError, Global};

/// Returns the source of this name, or `None` if both forms are given.
fn side_of_form<'a>(are_files: bool, are_roots: bool, name: &'a str) -> Option<ConfSource<'a>>
    ensures { option_map source_view result ≡ side_of are_files are_roots name.now }
{
    match (are_files, are_roots) {
        (false, false) => Some(ConfSource::Dir(name)),
        (true, false) => Some(ConfSource::Conf(name)),
        (false, true) => Some(ConfSource::Root(name)),
        (true, true) => None,
    }
}

/// Returns the source that an id names.
fn side<'a>(matches: &ArgMatches<'a>, id: &str) -> Option<ConfSource<'a>>
    ensures { option_map source_view result ≡ side_in id.now (rows_of (found_of matches.now)) }
{
    side_of_form(
        is_on(matches, "conf"),
        is_on(matches, "root"),
        text(matches, id),
    )
}

/// Reads the names of the folders and files that a comparison reads besides the two configurations.
fn given<'a>(
    alloc: Global,
    matches: &ArgMatches<'a>,
    settings: Vec<Setting<'a>>,
) -> Result<CompareFiles<'a>, AllocError>
    ensures given { IfOk result (λ given. IsCompareGiven (rows_of (found_of matches.now)) given) }
    ensures settings { IfOk result (λ given. given.settings ≡ settings.entry) }
{
    Ok(CompareFiles {
        modules: names(alloc, matches, "modules")?,
        facts: value(matches, "facts"),
        returns: value(matches, "returns"),
        settings,
    })
}

pub(crate) fn compare<'a>(alloc: Global, matches: &ArgMatches<'a>) -> Result<Task<'a>, Usage>
    ensures { GivesTask (compare_task (rows_of (found_of matches.now))) result }
{
    let Some(old) = side(matches, "old") else {
        return Err(Usage::Source);
    };
    let Some(new) = side(matches, "new") else {
        return Err(Usage::Source);
    };
    let Some(kind) = kind_if_named(matches) else {
        return Err(Usage::KindName);
    };
    let settings = match settings(alloc, matches) {
        Ok(settings) => settings,
        Err(usage) => return Err(usage),
    };
    match given(alloc, matches, settings) {
        Ok(given) => Ok(Task::Compare {
            old,
            new,
            service: value(matches, "service"),
            kind,
            given,
        }),
        Err(_) => Err(Usage::Memory),
    }
}

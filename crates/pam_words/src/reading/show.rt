//! Reads a `show` request from its words.

ghost use Rattle.std.specs.Prelude.{◌≡◌};
ghost use Rattle.clap.specs.Words.{found_of, rows_of};
ghost use Rattle.pam_words.specs.Request.{show_task};
ghost use Rattle.pam_words.specs.Values.{release_named as release_of_name, release_of};
ghost use Rattle.pam_words.specs.inner.Wanted.{GivesTask};

use crate::reading::form::json_or_text;
use crate::reading::{kind_if_named, source, value};
use crate::wanted::{OutputForm, ReleaseName, Task, Usage};
use clap::ArgMatches;

fn release_named(name: &str) -> Option<ReleaseName>
    ensures { result ≡ release_of_name name.now }
{
    if name == "linux-pam-1.5" {
        Some(ReleaseName::LinuxPam15)
    } else if name == "linux-pam-1.7" {
        Some(ReleaseName::LinuxPam17)
    } else {
        None
    }
}

/// Returns the release, if one is named, or `None` if the name is not that of one, or JSON is asked for.
fn release(matches: &ArgMatches<'_>) -> Option<Option<ReleaseName>>
    ensures { result ≡ release_of (rows_of (found_of matches.now)) }
{
    let Some(name) = value(matches, "as") else {
        return Some(None);
    };
    match (json_or_text(matches), release_named(name)) {
        (OutputForm::PlainText, Some(release)) => Some(Some(release)),
        _ => None,
    }
}

pub(crate) fn show<'a>(matches: &ArgMatches<'a>) -> Result<Task<'a>, Usage>
    ensures { GivesTask (show_task (rows_of (found_of matches.now))) result }
{
    let Some(source) = source(matches) else {
        return Err(Usage::Source);
    };
    let Some(kind) = kind_if_named(matches) else {
        return Err(Usage::KindName);
    };
    let Some(release) = release(matches) else {
        return Err(Usage::ReleaseForm);
    };
    Ok(Task::Show {
        source,
        kind,
        release,
    })
}

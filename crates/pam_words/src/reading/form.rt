//! Reads the form of the answer, and the candidates beside it.

ghost use Rattle.std.specs.Prelude.{◌≡◌, map};
ghost use Rattle.std.specs.Option.{option_copied};
ghost use Rattle.clap.specs.Words.{found_of, rows_of};
ghost use Rattle.pam_words.specs.Request.{form_and_candidates as form_and_candidates_of};
ghost use Rattle.pam_words.specs.Values.{form_beside, form_named as form_of_name, json_or_text as json_or_text_of, output_of};
ghost use Rattle.pam_words.specs.Wanted.{Gives, candidate_view};

use crate::reading::candidates::candidates;
use crate::reading::{is_on, value};
use crate::wanted::{Candidate, OutputForm, Usage};
use clap::ArgMatches;
use std::alloc::Global;

/// Returns the form of an answer that is text unless `--json` is given.
pub(crate) fn json_or_text(matches: &ArgMatches<'_>) -> OutputForm
    ensures { result ≡ json_or_text_of (rows_of (found_of matches.now)) }
{
    if is_on(matches, "json") {
        OutputForm::Json
    } else {
        OutputForm::PlainText
    }
}

fn form_named(name: &str) -> Option<OutputForm>
    ensures { result ≡ form_of_name name.now }
{
    if name == "short" {
        Some(OutputForm::PlainText)
    } else if name == "full" {
        Some(OutputForm::Full)
    } else if name == "json" {
        Some(OutputForm::Json)
    } else if name == "sarif" {
        Some(OutputForm::Sarif)
    } else if name == "patch" {
        Some(OutputForm::Patch)
    } else {
        None
    }
}

/// Returns the form of a check with this value of `--format`, or `None` if it is not the name of one, or `--json` asks for another one.
fn form(name: Option<&str>, matches: &ArgMatches<'_>) -> Option<OutputForm>
    ensures { result ≡ form_beside (option_copied name.entry) (rows_of (found_of matches.now)) }
{
    match name {
        Some(name) if is_on(matches, "json") && name != "json" => None,
        Some(name) => form_named(name),
        None => Some(json_or_text(matches)),
    }
}

/// Returns the form of the answer of a command, or `None` if the options ask for none, or for two.
fn output(command: &str, matches: &ArgMatches<'_>) -> Option<OutputForm>
    ensures { result ≡ output_of command.now (rows_of (found_of matches.now)) }
{
    if command == "check" {
        form(value(matches, "format"), matches)
    } else {
        Some(json_or_text(matches))
    }
}

/// Reads what a request has beside its task.
pub(super) fn form_and_candidates<'a>(
    alloc: Global,
    command: &str,
    matches: &ArgMatches<'a>,
) -> Result<(OutputForm, Vec<Candidate<'a>>), Usage>
    ensures { Gives (λ p. (p.0, map candidate_view p.1.items)) (form_and_candidates_of command.now (rows_of (found_of matches.now))) result }
{
    let Some(output) = output(command, matches) else {
        return Err(Usage::FormatName);
    };
    let candidates = candidates(alloc, matches)?;
    Ok((output, candidates))
}

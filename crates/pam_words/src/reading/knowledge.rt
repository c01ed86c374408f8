//! Reads what a request says of the answers of modules, and an `outcomes` request.

ghost use Rattle.std.specs.Prelude.{◌≡◌, IfOk, map, option_map};
ghost use Rattle.std.specs.Option.{option_copied};
ghost use Rattle.clap.specs.Words.{found_of, rows_of};
ghost use Rattle.pam_words.specs.Request.{knowledge_of, possible_knowledge_of};
ghost use Rattle.pam_words.specs.Values.{has as has_value, lacks_user as lacks_user_in, texts_of};
ghost use Rattle.pam_words.specs.Request.{moment_if_needed as moment_if_needed_in, outcomes_task};
ghost use Rattle.pam_words.specs.Values.{answers_named as answers_of_name, answers_of, needs_moment as needs_moment_in};
ghost use Rattle.pam_words.specs.Wanted.{Gives, answers_view, knowledge_view, moment_view};
ghost use Rattle.pam_words.specs.inner.Wanted.{AreTableNames, GivesTask};

use crate::reading::checks::stack_or_root;
use crate::reading::settings::settings;
use crate::reading::{login, moment, value, values};
use crate::wanted::{Answers, KnowledgeSource, Moment, TableNames, Task, Usage};
use clap::ArgMatches;
use std::alloc::{AllocError, Global};

pub(crate) fn has(matches: &ArgMatches<'_>, id: &str) -> bool
    ensures { result ≡ has_value id.now (rows_of (found_of matches.now)) }
{
    value(matches, id).is_some()
}

/// Whether an access or time table is given without a user.
fn lacks_user(matches: &ArgMatches<'_>) -> bool
    ensures { result ≡ lacks_user_in (rows_of (found_of matches.now)) }
{
    (has(matches, "access") || has(matches, "time")) && !has(matches, "user")
}

/// Whether a time table or an option of the moment is given.
fn needs_moment(matches: &ArgMatches<'_>) -> bool
    ensures { result ≡ needs_moment_in (rows_of (found_of matches.now)) }
{
    has(matches, "time") || has(matches, "at") || has(matches, "at-unix") || has(matches, "zone")
}

/// Returns the moment, if one is needed.
fn moment_if_needed<'a>(matches: &ArgMatches<'a>) -> Result<Option<Moment<'a>>, Usage>
    ensures { Gives (λ m. option_map moment_view m) (moment_if_needed_in (rows_of (found_of matches.now))) result }
{
    if !needs_moment(matches) {
        return Ok(None);
    }
    let Some(moment) = moment(matches) else {
        return Err(Usage::Moment);
    };
    Ok(Some(moment))
}

/// Returns all values of an id, in order.
pub(crate) fn names<'a>(
    alloc: Global,
    matches: &ArgMatches<'a>,
    id: &str,
) -> Result<Vec<&'a str>, AllocError>
    ensures { IfOk result (λ v. map (λ s. s.now) v.items ≡ texts_of id.now (rows_of (found_of matches.now))) }
{
    match values(matches, id) {
        Some(names) => Vec::from_slice(alloc, names),
        None => Ok(Vec::new(alloc)),
    }
}

/// Reads the names of the group file and the tables.
pub(crate) fn tables<'a>(
    alloc: Global,
    matches: &ArgMatches<'a>,
) -> Result<TableNames<'a>, AllocError>
    ensures { IfOk result (λ tables. AreTableNames (rows_of (found_of matches.now)) tables) }
{
    Ok(TableNames {
        groups: value(matches, "group"),
        access: names(alloc, matches, "access")?,
        time: value(matches, "time"),
    })
}

fn answers_named<'a>(facts: Option<&'a str>, name: &str) -> Option<Answers<'a>>
    ensures { option_map answers_view result ≡ answers_of_name (option_copied facts.entry) name.now }
{
    if name == "any" {
        Some(Answers::Any)
    } else if name == "possible" {
        Some(Answers::Possible { facts })
    } else {
        None
    }
}

/// Returns what modules may return of which nothing else tells, or `None` if the name that is given is not one of answers.
fn answers<'a>(matches: &ArgMatches<'a>) -> Option<Answers<'a>>
    ensures { option_map answers_view result ≡ answers_of (rows_of (found_of matches.now)) }
{
    let facts = value(matches, "facts");
    match value(matches, "answers") {
        Some(name) => answers_named(facts, name),
        None => Some(Answers::Possible { facts }),
    }
}

/// Reads the codes of modules, the login and the moment, and the names of the folders of modules, of the tables, of the passwd
/// file and of the returns file.
pub(crate) fn knowledge<'a>(
    alloc: Global,
    matches: &ArgMatches<'a>,
    answers: Answers<'a>,
) -> Result<KnowledgeSource<'a>, Usage>
    ensures { Gives knowledge_view (knowledge_of (answers_view answers.entry) (rows_of (found_of matches.now))) result }
{
    let settings = match settings(alloc, matches) {
        Ok(settings) => settings,
        Err(usage) => return Err(usage),
    };
    if lacks_user(matches) {
        return Err(Usage::Login);
    }
    let moment = moment_if_needed(matches)?;
    let Ok(modules) = names(alloc, matches, "modules") else {
        return Err(Usage::Memory);
    };
    let Ok(tables) = tables(alloc, matches) else {
        return Err(Usage::Memory);
    };
    Ok(KnowledgeSource {
        modules,
        login: login(matches),
        tables,
        passwd: value(matches, "passwd"),
        returns: value(matches, "returns"),
        settings,
        moment,
        answers,
    })
}

/// Like `knowledge`, with the answers that the words name.
pub(crate) fn possible_knowledge<'a>(
    alloc: Global,
    matches: &ArgMatches<'a>,
) -> Result<KnowledgeSource<'a>, Usage>
    ensures { Gives knowledge_view (possible_knowledge_of (rows_of (found_of matches.now))) result }
{
    let Some(answers) = answers(matches) else {
        return Err(Usage::AnswersName);
    };
    knowledge(alloc, matches, answers)
}

pub(crate) fn outcomes<'a>(alloc: Global, matches: &ArgMatches<'a>) -> Result<Task<'a>, Usage>
    ensures { GivesTask (outcomes_task (rows_of (found_of matches.now))) result }
{
    let (source, kind) = stack_or_root(matches)?;
    let knowledge = possible_knowledge(alloc, matches)?;
    Ok(Task::Outcomes {
        source,
        kind,
        knowledge,
    })
}

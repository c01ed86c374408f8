//! Reads a request from the words of the command line.

ghost use Rattle.std.specs.Prelude.{◌≡◌, true, map, IfOk, MatchOption, option_map, slice_get};
ghost use Rattle.std.specs.Char.{is_ascii_digit};
ghost use Rattle.std.specs.List.{list_all};
ghost use Rattle.std.specs.Option.{option_copied};
ghost use Rattle.clap.specs.Words.{found_of, rows_of, first_of, all_of, takes, fault_of, subcommand_of};
ghost use Rattle.pam_words.specs.Request.{access_task, decide_task, other_task_of, request_of, stack_of, stack_task_of, task_of, time_task};
ghost use Rattle.pam_words.specs.Decisions.{code_named as code_of_name, codes_named as codes_of_names};
ghost use Rattle.pam_words.specs.Values.{codes_of_rows, is_on as is_on_in, kind_if_named as kind_in};
ghost use Rattle.pam_words.specs.Values.{instant_of, kind_of_rows, login_of, moment_of, seconds_of, source_of, text_of, texts_of as texts_in};
ghost use Rattle.pam_words.specs.Wanted.{Answers, Gives, IsRead, IsRefusal, Reads, RefusesBy, login_view, moment_view, source_view};
ghost use Rattle.pam_words.specs.inner.Wanted.{GivesTask, IsRefusalOf};
ghost use Rattle.pam_words.specs.Words.{pamcheck_app};

mod candidates;
mod checks;
mod compare;
mod decisions;
mod form;
mod graph;
mod knowledge;
pub(crate) mod mistakes;
mod needs;
mod paths;
mod policy;
mod settings;
mod show;

use crate::wanted::{ConfSource, Login, Moment, Request, Task, Usage};
use crate::words::command_for;
use clap::error::ErrorKind;
use clap::{ArgMatches, Error};
use pam_codes::Code;
use pam_conf::Kind;
use pam_text::Texts;
use std::alloc::{AllocError, Global};
use std::convert::AsStr;

/// Returns the value of an id, the first if there are several.
fn value<'a>(matches: &ArgMatches<'a>, id: &str) -> Option<&'a str>
    ensures { option_copied result ≡ first_of id.now (rows_of (found_of matches.now)) }
{
    matches.get_str(id)
}

/// Returns the value of an id, or the empty text.
fn text<'a>(matches: &ArgMatches<'a>, id: &str) -> &'a str
    ensures { result.now ≡ text_of id.now (rows_of (found_of matches.now)) }
{
    value(matches, id).unwrap_or("")
}

/// Whether an option without a value is given.
fn is_on(matches: &ArgMatches<'_>, id: &str) -> bool
    ensures { result ≡ is_on_in id.now (rows_of (found_of matches.now)) }
{
    match value(matches, id) {
        Some(value) => value == "true",
        None => false,
    }
}

/// Returns all values of an id, in order.
fn values<'m, 'a>(matches: &'m ArgMatches<'a>, id: &str) -> Option<&'m [&'a str]>
    ensures { option_map (λ s. map (λ v. v.now) s.now) result ≡ all_of id.now (rows_of (found_of matches.now)) }
{
    matches.get_strs(id)
}

/// Returns the source, if exactly one is given.
fn source<'a>(matches: &ArgMatches<'a>) -> Option<ConfSource<'a>>
    ensures { option_map source_view result ≡ source_of (rows_of (found_of matches.now)) }
{
    match (
        value(matches, "dir"),
        value(matches, "vendor-dir"),
        value(matches, "conf"),
        value(matches, "root"),
    ) {
        (Some(folder), None, None, None) => Some(ConfSource::Dir(folder)),
        (Some(folder), Some(vendor), None, None) => Some(ConfSource::Over { folder, vendor }),
        (None, None, Some(file), None) => Some(ConfSource::Conf(file)),
        (None, None, None, Some(folder)) => Some(ConfSource::Root(folder)),
        _ => None,
    }
}

fn kind(matches: &ArgMatches<'_>) -> Option<Kind>
    ensures { result ≡ kind_of_rows (rows_of (found_of matches.now)) }
{
    Kind::from_name(text(matches, "kind").as_bytes())
}

/// Returns the kind, if one is named, or `None` if it is the name of none.
fn kind_if_named(matches: &ArgMatches<'_>) -> Option<Option<Kind>>
    ensures { result ≡ kind_in (rows_of (found_of matches.now)) }
{
    match value(matches, "kind") {
        Some(name) => match Kind::from_name(name.as_bytes()) {
            Some(kind) => Some(Some(kind)),
            None => None,
        },
        None => Some(None),
    }
}

#[tactic(auto, unfolding(crate::specs::Decisions::code_named))]
fn code_named(name: &str) -> Option<Code>
    ensures { result ≡ code_of_name name.now }
{
    Code::from_name(name.as_bytes())
}

/// Returns the codes with these names, in order. Returns `Ok(None)` if one is no code's name.
fn codes_named(alloc: Global, names: &[&str]) -> Result<Option<Vec<Code>>, AllocError>
    ensures { IfOk result (λ r. option_map (λ v. v.items) r ≡ codes_of_names (map (λ s. s.now) names.now)) }
{
    let mut codes = Vec::new(alloc);
    for name in names {
        match code_named(name) {
            Some(code) => codes.push(code)?,
            None => return Ok(None),
        }
    }
    Ok(Some(codes))
}

fn codes(alloc: Global, matches: &ArgMatches<'_>) -> Result<Option<Vec<Code>>, AllocError>
    ensures { IfOk result (λ r. option_map (λ v. v.items) r ≡ codes_of_rows (rows_of (found_of matches.now))) }
{
    match values(matches, "code") {
        Some(names) => codes_named(alloc, names),
        None => Ok(Some(Vec::new(alloc))),
    }
}

/// Parses 1 to 12 decimal digits.
fn seconds(text: &str) -> Option<i64>
    ensures { result ≡ seconds_of text.now }
{
    if text.is_empty() || text.len() > 12 || !is_digits(text) {
        return None;
    }
    text.parse::<i64>().ok()
}

fn is_digits(text: &str) -> bool
    ensures { result ≡ list_all is_ascii_digit text.now }
{
    text.as_bytes().iter().all(|byte| byte.is_ascii_digit())
}

fn instant<'a>(digits: &str, zone: Option<&'a str>) -> Option<Moment<'a>>
    ensures { option_map moment_view result ≡ instant_of digits.now (option_copied zone.entry) }
{
    let Some(seconds) = seconds(digits) else {
        return None;
    };
    Some(Moment::Instant {
        seconds,
        zone: zone.unwrap_or("UTC0"),
    })
}

/// Returns the moment, if exactly one is given.
fn moment<'a>(matches: &ArgMatches<'a>) -> Option<Moment<'a>>
    ensures { option_map moment_view result ≡ moment_of (rows_of (found_of matches.now)) }
{
    let zone = value(matches, "zone");
    match (value(matches, "at"), value(matches, "at-unix")) {
        (Some(text), None) => match zone {
            Some(_) => None,
            None => Some(Moment::Civil(text)),
        },
        (None, Some(digits)) => instant(digits, zone),
        (Some(_text), Some(_digits)) => None,
        (None, None) => None,
    }
}

fn login<'a>(matches: &ArgMatches<'a>) -> Login<'a>
    ensures { login_view result ≡ login_of (rows_of (found_of matches.now)) }
{
    Login {
        user: text(matches, "user"),
        rhost: text(matches, "rhost"),
        tty: text(matches, "tty"),
    }
}

/// Copies the bytes of each text.
fn copies(alloc: Global, texts: &[&str]) -> Result<Texts, AllocError>
    ensures { IfOk result (λ copies. copies ≡ map (λ s. s.now) texts.now) }
{
    let mut copies = Texts::new(alloc);
    for text in texts {
        copies.push(text.as_bytes())?;
    }
    Ok(copies)
}

/// Copies all values of an id, in order.
fn texts(alloc: Global, matches: &ArgMatches<'_>, id: &str) -> Result<Texts, AllocError>
    ensures { IfOk result (λ texts. texts ≡ texts_in id.now (rows_of (found_of matches.now))) }
{
    match values(matches, id) {
        Some(texts) => copies(alloc, texts),
        None => Ok(Texts::new(alloc)),
    }
}

/// Reads the source and the kind.
fn stack<'a>(matches: &ArgMatches<'a>) -> Result<(ConfSource<'a>, Kind), Usage>
    ensures { Gives (λ p. (source_view p.0, p.1)) (stack_of (rows_of (found_of matches.now))) result }
{
    let Some(source) = source(matches) else {
        return Err(Usage::Source);
    };
    let Some(kind) = kind(matches) else {
        return Err(Usage::KindName);
    };
    Ok((source, kind))
}

fn decide<'a>(alloc: Global, matches: &ArgMatches<'a>) -> Result<Task<'a>, Usage>
    ensures { GivesTask (decide_task (rows_of (found_of matches.now))) result }
{
    let (source, kind) = stack(matches)?;
    match codes(alloc, matches) {
        Ok(Some(codes)) => Ok(Task::Decide {
            source,
            kind,
            codes,
        }),
        Ok(None) => Err(Usage::CodeName),
        Err(_) => Err(Usage::Memory),
    }
}

fn access<'a>(alloc: Global, matches: &ArgMatches<'a>) -> Result<Task<'a>, Usage>
    ensures { GivesTask (access_task (rows_of (found_of matches.now))) result }
{
    let Ok(tables) = knowledge::names(alloc, matches, "access") else {
        return Err(Usage::Memory);
    };
    match texts(alloc, matches, "argument") {
        Ok(arguments) => Ok(Task::Access {
            tables,
            groups: value(matches, "group"),
            passwd: value(matches, "passwd"),
            login: login(matches),
            arguments,
        }),
        Err(_) => Err(Usage::Memory),
    }
}

fn time<'a>(matches: &ArgMatches<'a>) -> Result<Task<'a>, Usage>
    ensures { GivesTask (time_task (rows_of (found_of matches.now))) result }
{
    let Some(moment) = moment(matches) else {
        return Err(Usage::Moment);
    };
    Ok(Task::Time {
        table: text(matches, "time"),
        login: Login {
            rhost: "",
            ..login(matches)
        },
        moment,
    })
}

/// Returns the task of a command that reads no configuration.
fn other_task<'a>(alloc: Global, command: &str, matches: &ArgMatches<'a>) -> Result<Task<'a>, Usage>
    ensures { GivesTask (other_task_of command.now (rows_of (found_of matches.now))) result }
{
    if command == "access" {
        access(alloc, matches)
    } else if command == "time" {
        time(matches)
    } else if command == "explain" {
        Ok(Task::Explain(value(matches, "number")))
    } else if command == "facts" {
        Ok(Task::Facts)
    } else {
        Ok(Task::Version)
    }
}

/// Returns the task of a command about one stack, or of one that reads no configuration.
fn stack_task<'a>(alloc: Global, command: &str, matches: &ArgMatches<'a>) -> Result<Task<'a>, Usage>
    ensures { GivesTask (stack_task_of command.now (rows_of (found_of matches.now))) result }
{
    if command == "show" {
        show::show(matches)
    } else if command == "decide" {
        decide(alloc, matches)
    } else if command == "paths" {
        paths::paths(alloc, matches)
    } else if command == "outcomes" {
        knowledge::outcomes(alloc, matches)
    } else if command == "graph" {
        graph::graph(alloc, matches)
    } else if command == "needs" {
        needs::needs(alloc, matches)
    } else {
        other_task(alloc, command, matches)
    }
}

/// Returns the task of a command.
fn task<'a>(alloc: Global, command: &str, matches: &ArgMatches<'a>) -> Result<Task<'a>, Usage>
    ensures { GivesTask (task_of command.now (rows_of (found_of matches.now))) result }
{
    if command == "check" {
        checks::check(alloc, matches)
    } else if command == "compare" {
        compare::compare(alloc, matches)
    } else if command == "policy" {
        policy::policy(alloc, matches)
    } else {
        stack_task(alloc, command, matches)
    }
}

/// Reads the request of a command from its values.
fn read<'a>(alloc: Global, command: &str, matches: &ArgMatches<'a>) -> Result<Request<'a>, Usage>
    ensures { Answers (request_of command.now (rows_of (found_of matches.now))) result }
{
    let task = task(alloc, command, matches)?;
    match form::form_and_candidates(alloc, command, matches) {
        Ok((output, candidates)) => Ok(Request {
            service: text(matches, "service"),
            task,
            candidates,
            output,
        }),
        Err(usage) => {
            // A call, since to prove the drop of each variant in place takes longer.
            drop(task);
            Err(usage)
        }
    }
}

/// Converts an error of `clap`.
fn refused(error: Error) -> Usage
    ensures { IsRefusalOf error result }
{
    match error.kind() {
        ErrorKind::OutOfMemory => Usage::Memory,
        ErrorKind::DisplayHelp | ErrorKind::DisplayVersion => Usage::Help(error),
        _ => Usage::Words(error),
    }
}

/// Returns the first word after the name of the program, if there is one.
fn command_name<S: AsStr>(words: &[S]) -> Option<&str>
    ensures { option_copied result ≡ slice_get (map S.text words.now) 1 }
{
    match words.get(1) {
        Some(word) => Some(word.as_str()),
        None => None,
    }
}

/// Reads the words of the command line, the first of which is the name of the program. Borrows them.
// Not inlined, so that the 15 kB of commands and options are off the stack while its caller answers.
#[inline(never)]
pub fn request<'a, S: AsStr>(alloc: Global, words: &'a [S]) -> Result<Request<'a>, Usage>
    ensures reads { MatchOption (subcommand_of pamcheck_app (map S.text words.entry.now)) (IsRefusal result) (λ p. Reads (request_of p.0 p.1) result) }
    ensures taken { takes pamcheck_app (map S.text words.entry.now) ≡ true → IsRead result }
    ensures refused { RefusesBy (fault_of pamcheck_app (map S.text words.entry.now)) result }
{
    let Ok(command) = command_for(alloc, command_name(words)) else {
        return Err(Usage::Memory);
    };
    let matches = match command.try_get_matches_from(words) {
        Ok(matches) => matches,
        Err(error) => return Err(refused(error)),
    };
    match matches.subcommand() {
        Some((name, inner)) => read(alloc, name, inner),
        None => unreachable!(),
    }
}

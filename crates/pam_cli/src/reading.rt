//! Reads the files that a request names.

ghost use Rattle.std.specs.Prelude.{◌≡◌, ◌⊎◌, ◌&&◌, IfErr, IfOk, MatchResult, is_some, map};
ghost use Rattle.std.specs.Option.{option_copied};
ghost use Rattle.pam_cli.specs.Reading.{AreKnownTables, IsNamed, IsOfKnowledge, has_user, IsReading, IsSide};
ghost use Rattle.pam_cli.specs.inner.Reading.{IsAccessReading, IsCheckReading, IsGivenReading, IsKnowledgeReading, IsKnownReading, IsPolicyReading};
ghost use Rattle.pam_cli.specs.inner.Reading.{IsCompareReading, IsOfSide, IsRightFile};
ghost use Rattle.pam_cli.specs.Sources.{IsUnread};
ghost use Rattle.pam_words.specs.Wanted.{candidate_view, facts_named};

mod access;
mod dead_links;
mod files;
mod going_on;
mod links;
mod module_paths;
mod modules;
mod named_files;
mod passwd;
mod sources;
mod tables;
mod unread;

use crate::system::System;
use access::named_access;
use dead_links::dead_links;
use files::named_file;
use going_on::GoingOn;
use links::links_outside;
use modules::modules_there;
use named_files::files_there;
use pam_conf::Files;
use pam_report::{CheckInputs, InputError, Inputs, KnowledgeInputs, SideInputs, TableFiles};
use pam_text::Texts;
use pam_words::{
    Answers, Candidate, CheckFiles, CompareFiles, ConfSource, KnowledgeSource, Request, Task,
};
use passwd::{file_with_users, optional_passwd, passwd_of, table_with_users};
use sources::{Configuration, source_files};
use std::alloc::Global;
use tables::{LookedUp, table_files};
use unread::unread_files;

/// A check looks up all logins, at all moments.
const ALL_TABLES: LookedUp = LookedUp {
    login: true,
    moment: true,
};

/// Reads a file, if one is named.
fn optional_file<S: System>(
    system: &S,
    alloc: Global,
    name: Option<&str>,
) -> Result<Option<Vec<u8>>, InputError>
    ensures ok { IfOk result (IsRightFile (S.told system.now) name.entry) }
    ensures error { IfErr result (IsUnread (IsNamed (option_copied name.entry))) }
{
    match name {
        Some(name) => Ok(Some(named_file(system, alloc, name)?)),
        None => Ok(None),
    }
}

/// Reads two files in turn, each if it is named.
fn optional_files<S: System>(
    system: &S,
    alloc: Global,
    first: Option<&str>,
    second: Option<&str>,
) -> Result<(Option<Vec<u8>>, Option<Vec<u8>>), InputError>
    ensures ok { IfOk result (λ given. IsRightFile (S.told system.now) first.entry given.0 × IsRightFile (S.told system.now) second.entry given.1) }
    ensures error { IfErr result (IsUnread (λ n. IsNamed (option_copied first.entry) n ⊎ IsNamed (option_copied second.entry) n)) }
{
    let first = optional_file(system, alloc, first)?;
    let second = optional_file(system, alloc, second)?;
    Ok((first, second))
}

/// Looks for links, for the modules of a configuration and for the files that its arguments name, and reads the tables of its system or
/// those that are named, and the facts file and the accept file that are named.
fn given_inputs<S: System>(
    system: &S,
    alloc: Global,
    source: ConfSource<'_>,
    candidates: &[Candidate<'_>],
    named: &CheckFiles<'_>,
    found: &Configuration,
) -> Result<CheckInputs, InputError>
    ensures { IsGivenReading (S.told system.now) (map candidate_view candidates.now) found.now.files found.now.vendor_start
        source.entry named.now result }
{
    let unread = unread_files(system, alloc, source, candidates, found)?;
    let outside = links_outside(system, alloc, source, candidates, found)?;
    let dead = dead_links(system, alloc, source, &found.files)?;
    let there = modules_there(system, alloc, source, &named.modules, &found.files)?;
    let named_files = files_there(system, alloc, source, &found.files)?;
    let tables = table_files(system, alloc, source, &named.tables, ALL_TABLES)?;
    let others = optional_files(system, alloc, named.facts, named.accept)?;
    Ok(CheckInputs {
        vendor_start: found.vendor_start,
        outside,
        unread: unread.at,
        unread_errors: unread.errors,
        dead,
        there,
        named_files,
        tables,
        facts: others.0,
        accept: others.1,
    })
}

/// Reads a configuration with its paths, and what else a check is given. A file that cannot be read is left without a byte.
fn check_inputs<S: System>(
    system: &S,
    alloc: Global,
    source: ConfSource<'_>,
    candidates: &[Candidate<'_>],
    named: &CheckFiles<'_>,
) -> Result<Inputs, InputError>
    ensures { IsCheckReading (S.told system.now) (map candidate_view candidates.now) source.entry named.now result }
{
    let found = source_files(&GoingOn { system }, alloc, source, candidates)?;
    let given = given_inputs(system, alloc, source, candidates, named, &found)?;
    Ok(Inputs::Host {
        files: found.files,
        paths: found.paths,
        given,
    })
}

/// Reads a side of a comparison, and looks for its modules.
fn side_inputs<S: System>(
    system: &S,
    alloc: Global,
    source: ConfSource<'_>,
    named: &CompareFiles<'_>,
) -> Result<SideInputs, InputError>
    ensures { MatchResult result (IsSide (S.told system.now) source.entry named.now) (IsUnread (IsOfSide source.entry named.now)) }
{
    let files = source_files(system, alloc, source, &[])?.files;
    let there = modules_there(system, alloc, source, &named.modules, &files)?;
    Ok(SideInputs { files, there })
}

/// Reads the old configuration and the new one, and what else a comparison is given.
fn compare_inputs<S: System>(
    system: &S,
    alloc: Global,
    old: ConfSource<'_>,
    new: ConfSource<'_>,
    named: &CompareFiles<'_>,
) -> Result<Inputs, InputError>
    ensures { IsCompareReading (S.told system.now) old.entry new.entry named.now result }
{
    let old = side_inputs(system, alloc, old, named)?;
    let new = side_inputs(system, alloc, new, named)?;
    let others = optional_files(system, alloc, named.facts, named.returns)?;
    Ok(Inputs::Sides {
        old,
        new,
        facts: others.0,
        returns: others.1,
    })
}

/// Reads the group file and the passwd file, as far as they are named, then the access tables.
fn access_inputs<S: System>(
    system: &S,
    alloc: Global,
    names: &[&str],
    groups: Option<&str>,
    passwd: Option<&str>,
) -> Result<Inputs, InputError>
    ensures { IsAccessReading (S.told system.now) names.now groups.entry passwd.entry result }
{
    let groups = optional_file(system, alloc, groups)?;
    let passwd = optional_passwd(system, alloc, passwd)?;
    let groups = file_with_users(alloc, groups, &passwd)?;
    let tables = named_access(system, alloc, names)?.contents;
    Ok(Inputs::Access { tables, groups })
}

/// What of the tables of a system is looked up for the answers of modules: a login if its user is given, and its moment if that is given
/// too.
fn looked_up(named: &KnowledgeSource<'_>) -> LookedUp
    ensures login { result.login ≡ has_user named.now }
    ensures moment { result.moment ≡ (has_user named.now && is_some named.now.moment) }
{
    let has_user = !named.login.user.is_empty();
    LookedUp {
        login: has_user,
        moment: has_user && named.moment.is_some(),
    }
}

/// Reads the tables of a system or those that are named, and then the passwd file, whose users are members of the groups of their numbers.
fn known_tables<S: System>(
    system: &S,
    alloc: Global,
    source: ConfSource<'_>,
    named: &KnowledgeSource<'_>,
) -> Result<TableFiles, InputError>
    ensures ok { IfOk result (AreKnownTables (S.told system.now) source.entry named.now) }
    ensures error { IfErr result (IsUnread (IsOfKnowledge source.entry named.now)) }
{
    let looked_up = looked_up(named);
    let TableFiles {
        groups,
        access,
        time,
    } = table_files(system, alloc, source, &named.tables, looked_up)?;
    let passwd = passwd_of(system, alloc, source, named.passwd, looked_up.login)?;
    let groups = table_with_users(alloc, groups, &passwd)?;
    Ok(TableFiles {
        groups,
        access,
        time,
    })
}

/// Reads the facts file, if it is asked what is possible and the file is named, and then the returns file, if that is named.
fn possible_files<S: System>(
    system: &S,
    alloc: Global,
    answers: Answers<'_>,
    returns: Option<&str>,
) -> Result<(Option<Vec<u8>>, Option<Vec<u8>>), InputError>
    ensures ok { IfOk result (λ given. IsRightFile (S.told system.now) (facts_named answers.entry) given.0
        × IsRightFile (S.told system.now) returns.entry given.1) }
    ensures error { IfErr result (IsUnread (λ n. IsNamed (option_copied (facts_named answers.entry)) n ⊎ IsNamed (option_copied returns.entry) n)) }
{
    match answers {
        Answers::Any => optional_files(system, alloc, None, returns),
        Answers::Possible { facts } => optional_files(system, alloc, facts, returns),
    }
}

/// Looks for the modules of a configuration, and reads the tables of its system or those that are named, and the facts file and the
/// returns file that are named. Where any code is possible, no facts file is read. No policies are read.
fn known_inputs<S: System>(
    system: &S,
    alloc: Global,
    source: ConfSource<'_>,
    named: &KnowledgeSource<'_>,
    files: &Files,
) -> Result<KnowledgeInputs, InputError>
    ensures { IsKnownReading (S.told system.now) source.entry named.now result }
{
    let there = modules_there(system, alloc, source, &named.modules, files)?;
    let tables = known_tables(system, alloc, source, named)?;
    let others = possible_files(system, alloc, named.answers, named.returns)?;
    Ok(KnowledgeInputs {
        there,
        tables,
        facts: others.0,
        returns: others.1,
        policies: Texts::new(alloc),
    })
}

/// Reads a configuration, and then what is known of the answers of its modules.
fn knowledge_inputs<S: System>(
    system: &S,
    alloc: Global,
    source: ConfSource<'_>,
    candidates: &[Candidate<'_>],
    named: &KnowledgeSource<'_>,
) -> Result<Inputs, InputError>
    ensures { IsKnowledgeReading (S.told system.now) (map candidate_view candidates.now) source.entry named.now result }
{
    let files = source_files(system, alloc, source, candidates)?.files;
    let given = known_inputs(system, alloc, source, named, &files)?;
    Ok(Inputs::Paths { files, given })
}

/// Reads a configuration, then what is known of the answers of its modules, and then the policies in turn.
fn policy_inputs<S: System>(
    system: &S,
    alloc: Global,
    source: ConfSource<'_>,
    candidates: &[Candidate<'_>],
    named: &KnowledgeSource<'_>,
    policies: &[&str],
) -> Result<Inputs, InputError>
    ensures { IsPolicyReading (S.told system.now) (map candidate_view candidates.now) source.entry named.now policies.now result }
{
    let files = source_files(system, alloc, source, candidates)?.files;
    let given = known_inputs(system, alloc, source, named, &files)?;
    let policies = named_access(system, alloc, policies)?.contents;
    Ok(Inputs::Paths {
        files,
        given: KnowledgeInputs { policies, ..given },
    })
}

/// Reads the files of a request: the configuration, the folders of modules and what arguments name, the group file, the access tables,
/// the time table, the passwd file, and then the other files.
pub(crate) fn inputs_of<S: System>(
    system: &S,
    alloc: Global,
    request: &Request<'_>,
) -> Result<Inputs, InputError>
    ensures { IsReading (S.told system.now) (map candidate_view request.now.candidates.items) request.now.task result }
{
    let candidates = &request.candidates;
    match &request.task {
        Task::Check { source, given, .. } => check_inputs(
            system, alloc, *source, candidates, given,
        ),
        Task::Compare {
            old,
            new,
            given,
            ..
        } => compare_inputs(system, alloc, *old, *new, given),
        Task::Show { source, .. } | Task::Decide { source, .. } => Ok(Inputs::Stack(
            source_files(system, alloc, *source, candidates)?.files,
        )),
        Task::Access {
            tables,
            groups,
            passwd,
            ..
        } => access_inputs(system, alloc, tables, *groups, *passwd),
        Task::Time { table, .. } => Ok(Inputs::Time {
            table: named_file(system, alloc, table)?,
        }),
        Task::Paths {
            source,
            knowledge,
            ..
        }
        | Task::Outcomes {
            source,
            knowledge,
            ..
        }
        | Task::Graph {
            source,
            knowledge,
            ..
        }
        | Task::Needs {
            source,
            knowledge,
            ..
        } => knowledge_inputs(system, alloc, *source, candidates, knowledge),
        Task::Policy {
            source,
            policies,
            knowledge,
            ..
        } => policy_inputs(system, alloc, *source, candidates, knowledge, policies),
        Task::Explain(_) | Task::Facts | Task::Version => Ok(Inputs::Nothing),
    }
}

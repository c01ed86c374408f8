//! Whether inputs are those of a request.

ghost use Rattle.std.specs.Prelude.{◌≡◌};
ghost use Rattle.pam_report.specs.Inputs.{fits_check as fits_check_in, fits_compare as fits_compare_in, has_named_tables, has_paths as has_paths_in};

use crate::inputs::{CheckInputs, Inputs, TableFiles};
use pam_conf::Files;
use pam_text::Texts;
use pam_words::{CheckFiles, CompareFiles, KnowledgeSource, Request, TableNames, Task};

impl Inputs {
    ghost use Rattle.std.specs.Prelude.{◌≡◌};
    ghost use Rattle.pam_report.specs.Inputs.{fits_knowledge, fits_task, has_policies};

    /// Whether these are the contents of exactly the files that the request names, each with its path for `check`. Tables
    /// may be given that are not named: those of a root.
    pub fn fits(&self, request: &Request<'_>) -> bool
        ensures { result ≡ fits_task request.now.task self.now }
    {
        match (self, &request.task) {
            (
                Inputs::Host {
                    files,
                    paths,
                    given,
                },
                Task::Check { given: named, .. },
            ) => { has_paths(files, paths) && fits_check(named, given) }
            (Inputs::Sides { facts, returns, .. }, Task::Compare { given: named, .. }) => {
                fits_compare(named, facts, returns)
            }
            (Inputs::Stack(_), Task::Show { .. }) => true,
            (Inputs::Stack(_), Task::Decide { .. }) => true,
            (
                Inputs::Access { tables, groups },
                Task::Access {
                    tables: names,
                    groups: named,
                    ..
                },
            ) => { tables.len() == names.len() && groups.is_some() == named.is_some() }
            (Inputs::Time { .. }, Task::Time { .. }) => true,
            (inputs, Task::Paths { knowledge, .. }) => inputs.fits_knowledge(knowledge),
            (inputs, Task::Outcomes { knowledge, .. }) => inputs.fits_knowledge(knowledge),
            (inputs, Task::Graph { knowledge, .. }) => inputs.fits_knowledge(knowledge),
            (inputs, Task::Needs { knowledge, .. }) => inputs.fits_knowledge(knowledge),
            (
                inputs,
                Task::Policy {
                    policies,
                    knowledge,
                    ..
                },
            ) => { inputs.fits_knowledge(knowledge) && inputs.has_policies(policies.len()) }
            (Inputs::Nothing, Task::Explain(_)) => true,
            (Inputs::Nothing, Task::Facts) => true,
            (Inputs::Nothing, Task::Version) => true,
            _ => false,
        }
    }

    /// Whether these are the contents of this number of policies.
    fn has_policies(&self, count: usize) -> bool
        ensures { result ≡ has_policies count self.now }
    {
        match self {
            Inputs::Paths { given, .. } => given.policies.len() == count,
            _ => count == 0,
        }
    }

    /// Whether these are a configuration, and the contents of exactly the facts file and the returns file, and of each table that are
    /// named.
    fn fits_knowledge(&self, named: &KnowledgeSource<'_>) -> bool
        ensures { result ≡ fits_knowledge named.now self.now }
    {
        match self {
            Inputs::Paths { given, .. } => {
                given.facts.is_some() == named.answers.facts_file().is_some()
                    && given.returns.is_some() == named.returns.is_some()
                    && has_named_tables(&named.tables, &given.tables)
            }
            _ => false,
        }
    }
}

/// Whether there is a path for the whole configuration and for each file.
fn has_paths(files: &Files, paths: &Texts) -> bool
    ensures { result ≡ has_paths_in files.now paths.now }
{
    paths.len() > files.len() && paths.len() - files.len() == 1
}

/// Whether each table that is named is given.
fn has_named_tables(named: &TableNames<'_>, given: &TableFiles) -> bool
    ensures { result ≡ has_named_tables named.now given.now }
{
    (named.groups.is_none() || given.groups.is_some())
        && named.access.len() <= given.access.contents.len()
        && (named.time.is_none() || given.time.is_some())
}

/// Whether these are the contents of exactly the facts file and the accept file that are named, and of each table that is named.
fn fits_check(named: &CheckFiles<'_>, given: &CheckInputs) -> bool
    ensures { result ≡ fits_check_in named.now given.now }
{
    given.facts.is_some() == named.facts.is_some()
        && given.accept.is_some() == named.accept.is_some()
        && has_named_tables(&named.tables, &given.tables)
}

/// Whether these are the contents of exactly the facts file and the returns file that are named.
fn fits_compare(
    named: &CompareFiles<'_>,
    facts: &Option<Vec<u8>>,
    returns: &Option<Vec<u8>>,
) -> bool
    ensures { result ≡ fits_compare_in named.now facts.now returns.now }
{
    facts.is_some() == named.facts.is_some() && returns.is_some() == named.returns.is_some()
}

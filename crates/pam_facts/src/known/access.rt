//! Access tables that are read one after another.

ghost use Rattle.std.specs.Prelude.{◌≡◌, ◌∷◌, [], IfErr};
ghost use Rattle.std.specs.Option.{option_or};
ghost use Rattle.pam_facts.specs.known.Access.{FailsAs, answer_at, first_by_line, is_by_line as is_by_line_of, no_line as no_line_of, tables_decide};
ghost use Rattle.pam_tables.specs.Login.{login_view};
ghost use Rattle.pam_text.specs.Gives.{Gives};

use crate::known::error::NumberedError;
use pam_tables::{AccessAnswer, AccessOptions, AccessTable, Groups, Login, Table};
use pam_text::Texts;
use std::alloc::Global;

/// The answer of the first table in which a line matches, and the number of this table from 0.
///
/// A login that no line of any table matches is granted, as `Granted(None)`; then the number is 0.
#[derive(Clone, Copy, Debug, PartialEq, Eq)]
pub struct AccessDecision {
    pub answer: AccessAnswer,
    pub number: usize,
}

impl AccessDecision {
    fn no_line() -> AccessDecision
        ensures { result ≡ no_line_of }
    {
        AccessDecision {
            answer: AccessAnswer::Granted(None),
            number: 0,
        }
    }
}

/// Whether a line decides.
fn is_by_line(answer: AccessAnswer) -> bool
    ensures { result ≡ is_by_line_of answer }
{
    match answer {
        AccessAnswer::Granted(None) => false,
        AccessAnswer::Granted(Some(_)) | AccessAnswer::Denied(_) => true,
    }
}

/// Returns the answer of the table of this number from 1, or its fault.
fn answer_of(
    alloc: Global,
    login: &Login<'_>,
    groups: &Groups<'_>,
    options: &AccessOptions<'_>,
    number: usize,
    bytes: &[u8],
) -> Result<AccessAnswer, NumberedError>
    ensures answer { Gives FailsAs (λ answer. answer) result (answer_at (login_view login.now) groups.now options.now number bytes.now) }
    ensures table { IfErr result (λ e. e.error.table ≡ Table.Access) }
{
    match AccessTable::read(alloc, bytes, options) {
        Ok(table) => Ok(table.decide(login, groups)),
        Err(error) => Err(NumberedError { number, error }),
    }
}

/// Returns the decision after one more table: that of the tables before it, if a line of these matches.
fn decided_after(
    before: Option<AccessDecision>,
    number: usize,
    answer: AccessAnswer,
) -> Option<AccessDecision>
    ensures { result ≡ option_or before (first_by_line number (answer ∷ [])) }
{
    match before {
        Some(decision) => Some(decision),
        None if is_by_line(answer) => Some(AccessDecision { answer, number }),
        None => None,
    }
}

/// Returns what access tables decide for a login that are read one after another, with these options: the first line that matches.
///
/// All tables are read. The fault is that of the first table that has one, with its number; within a table it is that of
/// `AccessTable::read`.
pub fn decide_access(
    alloc: Global,
    login: &Login<'_>,
    groups: &Groups<'_>,
    options: &AccessOptions<'_>,
    tables: &Texts,
) -> Result<AccessDecision, NumberedError>
    ensures decision { Gives FailsAs (λ decision. decision) result (tables_decide (login_view login.now) groups.now options.now tables.now) }
    ensures table { IfErr result (λ e. e.error.table ≡ Table.Access) }
{
    // The length says that numbers stay in their type.
    let _count = tables.len();
    let mut decided = None;
    for (index, bytes) in tables.iter().enumerate() {
        let answer = answer_of(alloc, login, groups, options, index + 1, bytes)?;
        decided = decided_after(decided, index, answer);
    }
    Ok(decided.unwrap_or(AccessDecision::no_line()))
}

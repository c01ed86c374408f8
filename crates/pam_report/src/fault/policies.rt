//! Faults of policies, of which a request may name several.

ghost use Rattle.std.specs.Prelude.{◌≡◌, IfOk, map};
ghost use Rattle.std.specs.Option.{option_copied};
ghost use Rattle.pam_report.specs.Fault as spec;
ghost use Rattle.pam_report.specs.Fault.{line_of};
ghost use Rattle.pam_report.specs.FaultTable.{policy_row as row_of_policy};
ghost use Rattle.pam_report.specs.Refusal as refusal;

use super::table::policy_row;
use super::{Fault, line_at, policy_line};
use pam_policy::text::{PolicyError, PolicyFault};
use pam_words::{Request, Task};
use std::alloc::{AllocError, Global};
use thiserror::Error;

/// A fault of one of the policies.
#[derive(Clone, Copy, Debug, PartialEq, Eq, Error)]
#[error("policy {number}: {error}")]
pub struct PolicyFileError {
    /// The number of the policy, from 1, in the order in which they are named.
    pub number: usize,
    pub error: PolicyError,
}

/// Returns the fault of the policy of a number, where a failed allocation has no place.
pub(crate) fn policy_fault(number: usize, error: PolicyError) -> Fault
    ensures { result ≡ spec.policy_fault number error }
{
    match error.fault {
        PolicyFault::Memory => Fault::Memory,
        _ => Fault::Policy(PolicyFileError { number, error }),
    }
}

/// The name of the policy of a number, from 1.
fn policy_name<'a>(names: &[&'a str], number: usize) -> Option<&'a str>
    ensures { option_copied result ≡ refusal.policy_name (map (λ n. n.now) names.now) number }
{
    if number == 0 {
        return None;
    }
    names.get(number - 1).copied()
}

/// The line of a fault of one of these policies.
fn line_in_policy(
    alloc: Global,
    names: &[&str],
    error: &PolicyFileError,
) -> Result<Vec<u8>, AllocError>
    ensures { IfOk result (λ text. text.items ≡ line_of (row_of_policy error.now.error.fault)
        (refusal.place_in_policy (map (λ n. n.now) names.now) error.now)) }
{
    let row = policy_row(error.error.fault);
    match policy_name(names, error.number) {
        Some(name) => line_at(
            alloc,
            row,
            Some(name.as_bytes()),
            u64::from(error.error.line),
        ),
        None => policy_line(alloc, row, error),
    }
}

/// The line of a fault of a policy of a request.
pub(super) fn line_of_policy(
    alloc: Global,
    request: &Request<'_>,
    error: &PolicyFileError,
) -> Result<Vec<u8>, AllocError>
    ensures { IfOk result (λ text. text.items ≡ line_of (row_of_policy error.now.error.fault) (refusal.place_of_policy request.now.task error.now)) }
{
    match &request.task {
        Task::Policy { policies, .. } => line_in_policy(alloc, policies, error),
        _ => policy_line(alloc, policy_row(error.error.fault), error),
    }
}

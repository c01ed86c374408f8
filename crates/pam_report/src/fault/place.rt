//! The places of faults: the file in which each is, or the name of a table that is given in place of its file.

ghost use Rattle.std.specs.Prelude.{◌≡◌, option_map};
ghost use Rattle.pam_report.specs.Fault as spec;

use super::table::table_name;
use pam_conf::{ConfError, FaultKind, Files};
use pam_facts::FactsFault;
use pam_findings::accepted::AcceptError;
use pam_policy::text::PolicyFault;
use pam_tables::times::TimeFault;
use pam_tables::{TableError, TableFault};

/// Returns the name of the file of a fault, if it has a place.
pub(super) fn conf_file<'a>(files: &'a Files, error: &ConfError) -> Option<&'a [u8]>
    ensures { option_map (λ name. name.now) result ≡ spec.conf_file files.now error.now.at error.now.kind }
{
    if error.kind == FaultKind::Memory {
        return None;
    }
    match error.at {
        Some(position) => files.name(position),
        None => None,
    }
}

/// Returns the name of the table of a fault, if it has a place.
pub(super) fn table_file(error: &TableError) -> Option<&'static [u8]>
    ensures { option_map (λ name. name.now) result ≡ spec.table_file error.now.table error.now.fault }
{
    if error.fault == TableFault::Memory {
        return None;
    }
    Some(table_name(error.table).as_bytes())
}

/// Returns the place of a fault of a time table, if it has one.
pub(super) fn time_file(fault: TimeFault) -> Option<&'static [u8]>
    ensures { option_map (λ name. name.now) result ≡ spec.time_file fault }
{
    if fault == TimeFault::Memory {
        return None;
    }
    Some("time".as_bytes())
}

/// Returns the place of a fault of a facts file, if it has one.
pub(super) fn facts_file(fault: FactsFault) -> Option<&'static [u8]>
    ensures { option_map (λ name. name.now) result ≡ spec.facts_file fault }
{
    if fault == FactsFault::Memory {
        return None;
    }
    Some("facts".as_bytes())
}

/// Returns the place of a fault of an accept file, if it has one.
pub(super) fn accept_file(error: AcceptError) -> Option<&'static [u8]>
    ensures { option_map (λ name. name.now) result ≡ spec.accept_file error }
{
    match error {
        AcceptError::Memory => None,
        AcceptError::BadAccept(_) | AcceptError::Source(_) => Some("accept".as_bytes()),
    }
}

/// Returns the place of a fault of a policy, if it has one.
pub(super) fn policy_file(fault: PolicyFault) -> Option<&'static [u8]>
    ensures { option_map (λ name. name.now) result ≡ spec.policy_file fault }
{
    if fault == PolicyFault::Memory {
        return None;
    }
    Some("policy".as_bytes())
}

//! A place at which released Linux-PAM reads a table otherwise.

ghost use Rattle.std.specs.Prelude.{◌≡◌, ◌++◌, OnOk};
ghost use Rattle.pam_released.specs.tables.Findings.{found_at};

use crate::tables::difference::TableDifference;
use std::alloc::AllocError;

/// A difference, and the line at which it shows.
#[derive(Clone, Copy, Debug, PartialEq, Eq)]
pub struct TableFinding {
    /// The number of a line, from 1; in a time table, of the first physical line of a rule.
    pub line: u32,
    pub difference: TableDifference,
}

/// Appends a finding at `line` for each difference whose test holds.
pub(crate) fn push_those(
    findings: &mut Vec<TableFinding>,
    line: u32,
    tests: &[(bool, TableDifference)],
) -> Result<(), AllocError>
    ensures { OnOk result (findings.new.items ≡ findings.old.items ++ found_at line tests.now) }
{
    for (holds, difference) in tests {
        if *holds {
            findings.push(TableFinding {
                line,
                difference: *difference,
            })?;
        }
    }
    Ok(())
}

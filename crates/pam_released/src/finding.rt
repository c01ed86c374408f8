//! A place at which released Linux-PAM reads a file otherwise.

ghost use Rattle.std.specs.Prelude.{◌≡◌, ◌++◌, OnOk, map};
ghost use Rattle.pam_released.specs.Findings.{comes_before, located, those};

use crate::difference::Difference;
use std::alloc::AllocError;

/// A difference, and the line at which it shows.
#[derive(Clone, Copy, Debug, PartialEq, Eq)]
pub struct Finding {
    /// The number of a physical line, from 1: that at which a physical line is read otherwise, and for L6 and L8 the first
    /// one of the rule.
    pub line: u32,
    pub difference: Difference,
}

/// Whether `first` comes before `second`: by line, then by number.
pub(crate) fn comes_before(second: Finding, first: Finding) -> bool
    ensures { result ≡ comes_before second first }
{
    first.line < second.line
        || (first.line == second.line && first.difference.number() < second.difference.number())
}

/// Appends a finding at `line` for each difference whose test holds.
pub(crate) fn push_those(
    findings: &mut Vec<Finding>,
    line: u32,
    tests: &[(bool, Difference)],
) -> Result<(), AllocError>
    ensures { OnOk result (findings.new.items ≡ findings.old.items ++ map (located line) (those tests.now)) }
{
    for (holds, difference) in tests {
        if *holds {
            findings.push(Finding {
                line,
                difference: *difference,
            })?;
        }
    }
    Ok(())
}

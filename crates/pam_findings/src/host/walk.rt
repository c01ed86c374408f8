//! The faults of the walk of a stack.

ghost use Rattle.std.specs.Prelude.{◌≡◌, ◌++◌, OnOk, map};
ghost use Rattle.pam_findings.specs.host.inner.Looked.{walk_spot};

use crate::host::problem::{Problem, Spot};
use pam_conf::ConfError;
use std::alloc::AllocError;

/// Appends the faults of a walk.
pub(crate) fn push_walk(spots: &mut Vec<Spot>, faults: &[ConfError]) -> Result<(), AllocError>
    ensures { OnOk result (spots.new.items ≡ spots.old.items ++ map walk_spot faults.now) }
{
    for fault in faults {
        spots.push(Spot {
            file: fault.at,
            line: fault.line,
            problem: Problem::Walk(fault.kind),
        })?;
    }
    Ok(())
}

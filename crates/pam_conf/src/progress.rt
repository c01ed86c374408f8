//! The progress of a walk.
ghost use Rattle.std.specs.Prelude.{◌≡◌, ◌≤◌, OnOk, fold};
ghost use Rattle.pam_conf.specs.Survey.{with_file};
ghost use Rattle.pam_conf.specs.declared.stack.TheConstants.{MAX_MODULES};
ghost use Rattle.pam_conf.specs.declared.walk.TheConstants.{MAX_FOLLOWS};

use crate::conf_error::ConfError;
use crate::files::Files;
use crate::kept::KeptRule;
use crate::rule::Kind;
use crate::stack::MAX_MODULES;
use crate::walk::MAX_FOLLOWS;
use std::alloc::{AllocError, AllocFailed, Global};

/// The counts of a walk so far, the rules that it has read, and what it has noted.
#[derive(Drop)]
pub(crate) struct Progress {
    /// The rules of the kind of each file that was read and is not open, by position in `Files`; empty if the files were read
    /// before.
    pub table: Vec<Option<Vec<KeptRule>>>,
    pub modules: usize,
    pub follows: usize,
    /// The faults so far, if the walk goes on after them.
    pub noted: Vec<ConfError>,
    /// The files reached so far, each once, if the walk goes on after faults.
    pub reached: Vec<usize>,
    ghost few_modules: { modules ≤ MAX_MODULES },
    ghost few_follows: { follows ≤ MAX_FOLLOWS },
}

impl Progress {
    ghost use Rattle.std.specs.Prelude.{◌∷◌, [], IfOk};
    ghost use Rattle.pam_conf.specs.inner.Progress.{IsTable, count_of};

    /// The progress at the start of a walk over `files`.
    pub(crate) fn new(alloc: Global, files: &Files, kind: Kind) -> Result<Progress, AllocError>
        ensures table { IfOk result (λ p. IsTable files.now kind p.table.items) }
        ensures none { IfOk result (λ p. p.noted.items ≡ []) }
    {
        let mut table = Vec::with_capacity(alloc, files.len())?;
        for _ in 0..files.len() {
            table.push(None)?;
        }
        Ok(Progress {
            table,
            modules: 0,
            follows: 0,
            noted: Vec::new(alloc),
            reached: Vec::new(alloc),
        })
    }

    /// The progress at the start of a walk from `file`, over files that were read before.
    pub(crate) fn from_file(alloc: Global, file: usize) -> Result<Progress, AllocError>
        ensures { IfOk result (λ p. count_of p ≡ record { modules = 0; follows = 0; noted = []; reached = file ∷ [] }) }
    {
        let mut reached = Vec::new(alloc);
        reached.push(file)?;
        Ok(Progress {
            table: Vec::new(alloc),
            modules: 0,
            follows: 0,
            noted: Vec::new(alloc),
            reached,
        })
    }
}

/// Appends `file`, unless it is there.
pub(crate) fn reach(reached: &mut Vec<usize>, file: usize) -> Result<(), AllocFailed<usize>>
    ensures { OnOk result (reached.new.items ≡ with_file reached.old.items file) }
{
    if reached.contains(&file) {
        return Ok(());
    }
    reached.push(file)
}

/// Appends those of `files` that are not there.
pub(crate) fn reach_all(reached: &mut Vec<usize>, files: &[usize]) -> Result<(), AllocFailed<usize>>
    ensures { OnOk result (reached.new.items ≡ fold with_file reached.old.items files.now) }
{
    for file in files {
        reach(reached, *file)?;
    }
    Ok(())
}

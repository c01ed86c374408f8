//! Faults at the lines of the files of a walk.
ghost use Rattle.std.specs.Prelude.{◌≡◌};
ghost use Rattle.pam_conf.specs.Tells.{UnlessMemory};
ghost use Rattle.pam_conf.specs.Walk.{fault_at};

use crate::conf_error::ConfError;
use crate::error::{FaultKind, RuleFault};

/// A fault at a line of a file.
pub(crate) fn fault(file: usize, line: usize, kind: FaultKind) -> ConfError
    ensures { result ≡ fault_at file line kind }
{
    ConfError {
        kind,
        at: Some(file),
        line,
    }
}

/// A fault of reading `file`. A failed allocation has no position.
pub(crate) fn fault_in(file: usize, found: RuleFault) -> ConfError
    ensures kind { result.kind ≡ found.kind }
    ensures place { UnlessMemory result found.kind (result ≡ fault_at file found.line found.kind) }
{
    match found.kind {
        FaultKind::Memory => ConfError {
            kind: FaultKind::Memory,
            at: None,
            line: 0,
        },
        kind => fault(file, found.line, kind),
    }
}

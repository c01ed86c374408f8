//! The error of a service without a stack.
ghost use Rattle.std.specs.Prelude.{◌≡◌, None};

use crate::error::FaultKind;
use std::alloc::{AllocError, AllocFailed};
use thiserror::Error;

/// Why a service has no stack: the first fault, and where it is.
#[derive(Clone, Copy, Debug, PartialEq, Eq, Error)]
#[error("{kind}")]
pub struct ConfError {
    pub kind: FaultKind,
    /// The position of the file in `Files`; `None` if the service has no rules or allocation failed.
    pub at: Option<usize>,
    /// From 1; 0 if the fault has no line.
    pub line: usize,
}

/// The error of a failed allocation.
fn out_of_memory() -> ConfError
    ensures { result ≡ record { kind = FaultKind.Memory; at = None; line = 0 } }
{
    ConfError {
        kind: FaultKind::Memory,
        at: None,
        line: 0,
    }
}

impl From<AllocError> for ConfError {
    ghost use Rattle.std.specs.Prelude.{None};
    ghost use Rattle.pam_conf.specs.declared.error.FaultKind.TheVariants.{Memory};

    ghost from_gives = { λ _ e. e ≡ record { kind = Memory; at = None; line = 0 } };

    fn from(_: AllocError) -> ConfError {
        out_of_memory()
    }
}

impl<T: Drop> From<AllocFailed<T>> for ConfError {
    ghost use Rattle.std.specs.Prelude.{None};
    ghost use Rattle.pam_conf.specs.declared.error.FaultKind.TheVariants.{Memory};

    ghost from_gives = { λ _ e. e ≡ record { kind = Memory; at = None; line = 0 } };

    fn from(_: AllocFailed<T>) -> ConfError {
        out_of_memory()
    }
}

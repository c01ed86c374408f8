//! Why the stacks of a host are not found.

use pam_facts::known::KnownError;
use std::alloc::{AllocError, AllocFailed};
use thiserror::Error;

/// Why the stacks of a host are not found.
#[derive(Clone, Copy, Debug, PartialEq, Eq, Error)]
pub enum StacksError {
    /// A fault of a table.
    #[error(transparent)]
    Known(KnownError),
    #[error("no memory")]
    Memory,
}

impl<T: Drop> From<AllocFailed<T>> for StacksError {
    ghost use Rattle.std.specs.Prelude.{◌≡◌};
    ghost use Rattle.pam_policy.specs.declared.host.error.StacksError.TheVariants.{Memory};

    ghost from_gives = { λ _ error. error ≡ Memory };

    fn from(_: AllocFailed<T>) -> StacksError {
        StacksError::Memory
    }
}

impl From<AllocError> for StacksError {
    ghost use Rattle.std.specs.Prelude.{◌≡◌};
    ghost use Rattle.pam_policy.specs.declared.host.error.StacksError.TheVariants.{Memory};

    ghost from_gives = { λ _ error. error ≡ Memory };

    fn from(_: AllocError) -> StacksError {
        StacksError::Memory
    }
}

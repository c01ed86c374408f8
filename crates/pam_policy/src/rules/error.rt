//! Why a rule is not judged.

use std::alloc::{AllocError, AllocFailed};
use thiserror::Error;

/// Why a rule is not judged.
#[derive(Clone, Copy, Debug, PartialEq, Eq, Error)]
pub enum JudgeError {
    #[error("no memory")]
    Memory,
    /// No rule that is read has such a sentence.
    #[error("more than four events are joined by `and` after `with`")]
    TooManyTogether,
}

impl<T: Drop> From<AllocFailed<T>> for JudgeError {
    ghost use Rattle.std.specs.Prelude.{◌≡◌};
    ghost use Rattle.pam_policy.specs.declared.rules.error.JudgeError.TheVariants.{Memory};

    ghost from_gives = { λ _ error. error ≡ Memory };

    fn from(_: AllocFailed<T>) -> JudgeError {
        JudgeError::Memory
    }
}

impl From<AllocError> for JudgeError {
    ghost use Rattle.std.specs.Prelude.{◌≡◌};
    ghost use Rattle.pam_policy.specs.declared.rules.error.JudgeError.TheVariants.{Memory};

    ghost from_gives = { λ _ error. error ≡ Memory };

    fn from(_: AllocError) -> JudgeError {
        JudgeError::Memory
    }
}

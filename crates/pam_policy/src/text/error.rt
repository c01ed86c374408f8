//! The faults of policy files.

ghost use Rattle.std.specs.Prelude.{◌≡◌};
ghost use Rattle.pam_policy.specs.text.Error.{error_at, source_error};

use pam_text::SourceFault;
use std::alloc::{AllocError, AllocFailed};
use thiserror::Error;

/// Why a policy file or a line of it is invalid.
#[derive(Clone, Copy, Debug, PartialEq, Eq, Error)]
pub enum PolicyFault {
    /// TE1
    #[error("the line ends where a word is needed")]
    MissingField,
    /// TE10
    #[error("a NUL byte")]
    NulByte,
    /// TE12
    #[error("the file is too long")]
    TableTooLong,
    /// TE13
    #[error("an item is no return code, or no code is left")]
    BadCode,
    /// TE17
    #[error("the first word is no list of services")]
    BadServices,
    /// TE18
    #[error("the second word is no list of kinds")]
    BadKinds,
    /// TE19
    #[error("the word is no verb, or none that can follow the one before it")]
    BadVerb,
    /// TE20
    #[error("the word is no event")]
    BadEvent,
    /// TE21
    #[error("these events cannot be joined in this way")]
    BadList,
    /// TE22
    #[error("the event does not say its codes")]
    NoAnswers,
    /// TE23
    #[error("a word after the end of the sentence")]
    ExtraWord,
    /// TE24
    #[error("more than 1000 rules")]
    TooManyRules,
    #[error("no memory")]
    Memory,
}

/// A fault of a policy file, with the number of its line from 1. The line is 0 if an allocation failed or the file is too
/// long.
#[derive(Clone, Copy, Debug, PartialEq, Eq, Error)]
#[error("line {line}: {fault}")]
pub struct PolicyError {
    pub fault: PolicyFault,
    pub line: u32,
}

impl PolicyError {
    /// The fault of this line. A failed allocation has no line.
    pub(crate) fn at(fault: PolicyFault, line: u32) -> PolicyError
        ensures { result ≡ error_at fault line }
    {
        match fault {
            PolicyFault::Memory => PolicyError { fault, line: 0 },
            _ => PolicyError { fault, line },
        }
    }

    /// The fault of the bytes as a whole.
    pub(crate) fn of_source(fault: SourceFault) -> PolicyError
        ensures { result ≡ source_error fault }
    {
        match fault {
            SourceFault::TooLong => PolicyError::at(PolicyFault::TableTooLong, 0),
            SourceFault::NulByte(line) => PolicyError::at(PolicyFault::NulByte, line),
        }
    }
}

impl<T: Drop> From<AllocFailed<T>> for PolicyFault {
    ghost use Rattle.std.specs.Prelude.{◌≡◌};
    ghost use Rattle.pam_policy.specs.declared.text.error.PolicyFault.TheVariants.{Memory};

    ghost from_gives = { λ _ fault. fault ≡ Memory };

    fn from(_: AllocFailed<T>) -> PolicyFault {
        PolicyFault::Memory
    }
}

impl From<AllocError> for PolicyFault {
    ghost use Rattle.std.specs.Prelude.{◌≡◌};
    ghost use Rattle.pam_policy.specs.declared.text.error.PolicyFault.TheVariants.{Memory};

    ghost from_gives = { λ _ fault. fault ≡ Memory };

    fn from(_: AllocError) -> PolicyFault {
        PolicyFault::Memory
    }
}

//! The faults of facts files.

ghost use Rattle.std.specs.Prelude.{◌≡◌};
ghost use Rattle.pam_facts.specs.Error.{error_at, source_error};

use pam_text::SourceFault;
use std::alloc::{AllocError, AllocFailed};
use thiserror::Error;

/// Why a facts file or a line of it is invalid.
#[derive(Clone, Copy, Debug, PartialEq, Eq, Error)]
pub enum FactsFault {
    #[error("the line is no fact of a module")]
    BadFact,
    #[error("a NUL byte")]
    NulByte,
    #[error("no memory")]
    Memory,
    #[error("the file is too long")]
    TooLong,
}

/// A fault of a facts file, with the number of its line from 1. The line is 0 if an allocation failed or the file is too
/// long.
#[derive(Clone, Copy, Debug, PartialEq, Eq, Error)]
#[error("line {line}: {fault}")]
pub struct FactsError {
    pub fault: FactsFault,
    pub line: u32,
}

impl FactsError {
    /// The fault of this line. A failed allocation has no line.
    pub(crate) fn at(fault: FactsFault, line: u32) -> FactsError
        ensures { result ≡ error_at fault line }
    {
        match fault {
            FactsFault::Memory => FactsError { fault, line: 0 },
            _ => FactsError { fault, line },
        }
    }

    /// The fault of the bytes as a whole.
    pub(crate) fn of_source(fault: SourceFault) -> FactsError
        ensures { result ≡ source_error fault }
    {
        match fault {
            SourceFault::TooLong => FactsError::at(FactsFault::TooLong, 0),
            SourceFault::NulByte(line) => FactsError::at(FactsFault::NulByte, line),
        }
    }
}

impl<T: Drop> From<AllocFailed<T>> for FactsError {
    ghost use Rattle.std.specs.Prelude.{◌≡◌};
    ghost use Rattle.pam_facts.specs.Error.{no_memory};

    ghost from_gives = { λ _ error. error ≡ no_memory };

    fn from(_: AllocFailed<T>) -> FactsError {
        FactsError::at(FactsFault::Memory, 0)
    }
}

impl From<AllocError> for FactsError {
    ghost use Rattle.std.specs.Prelude.{◌≡◌};
    ghost use Rattle.pam_facts.specs.Error.{no_memory};

    ghost from_gives = { λ _ error. error ≡ no_memory };

    fn from(_: AllocError) -> FactsError {
        FactsError::at(FactsFault::Memory, 0)
    }
}

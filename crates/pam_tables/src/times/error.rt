//! The faults of time tables.

use pam_text::SourceFault;
use std::alloc::{AllocError, AllocFailed};
use thiserror::Error;

/// Why a time table or a line of it is invalid.
#[derive(Clone, Copy, Debug, PartialEq, Eq, Error)]
pub enum TimeFault {
    #[error("a field is missing")]
    MissingField,
    #[error("a netgroup")]
    Netgroup,
    #[error("no days and range of times")]
    BadTimes,
    #[error("more than one * in a token")]
    TwoWildcards,
    #[error("no list of tokens with &, | and !")]
    BadLogic,
    #[error("a NUL byte")]
    NulByte,
    #[error("no memory")]
    Memory,
    #[error("the table is too long")]
    TooLong,
}

/// A fault of a time table, with the number of its line from 1. The line is 0 if an allocation failed or the table is
/// too long.
#[derive(Clone, Copy, Debug, PartialEq, Eq, Error)]
#[error("line {line}: {fault}")]
pub struct TimeError {
    pub fault: TimeFault,
    pub line: u32,
}

impl TimeError {
    ghost use Rattle.std.specs.Prelude.{◌≡◌};
    ghost use Rattle.pam_tables.specs.times.inner.Error.{error_at};

    /// Returns a fault of this line. For `Memory` the line is 0.
    pub(crate) fn at(fault: TimeFault, line: u32) -> TimeError
        ensures { result ≡ error_at fault line }
    {
        match fault {
            TimeFault::Memory => TimeError { fault, line: 0 },
            _ => TimeError { fault, line },
        }
    }
}

impl From<SourceFault> for TimeError {
    ghost use Rattle.std.specs.Prelude.{◌≡◌};
    ghost use Rattle.pam_tables.specs.times.Error.{source_error};

    ghost from_gives = { λ fault error. error ≡ source_error fault };

    fn from(fault: SourceFault) -> TimeError {
        match fault {
            SourceFault::TooLong => TimeError {
                fault: TimeFault::TooLong,
                line: 0,
            },
            SourceFault::NulByte(line) => TimeError {
                fault: TimeFault::NulByte,
                line,
            },
        }
    }
}

impl<T: Drop> From<AllocFailed<T>> for TimeError {
    ghost use Rattle.std.specs.Prelude.{◌≡◌};
    ghost use Rattle.pam_tables.specs.times.Error.{no_memory};

    ghost from_gives = { λ _ error. error ≡ no_memory };

    fn from(_: AllocFailed<T>) -> TimeError {
        TimeError {
            fault: TimeFault::Memory,
            line: 0,
        }
    }
}

impl From<AllocError> for TimeError {
    ghost use Rattle.std.specs.Prelude.{◌≡◌};
    ghost use Rattle.pam_tables.specs.times.Error.{no_memory};

    ghost from_gives = { λ _ error. error ≡ no_memory };

    fn from(_: AllocError) -> TimeError {
        TimeError {
            fault: TimeFault::Memory,
            line: 0,
        }
    }
}

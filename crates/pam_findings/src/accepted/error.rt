//! The faults of accept files.

ghost use Rattle.std.specs.Prelude.{◌≡◌};
ghost use Rattle.pam_findings.specs.accepted.Error.{line_of};

use pam_text::SourceFault;
use std::alloc::{AllocError, AllocFailed};
use thiserror::Error;

/// A fault of an accept file.
#[derive(Clone, Copy, Debug, PartialEq, Eq, Error)]
pub enum AcceptError {
    /// The number of the line, from 1.
    #[error("line {0}: the line is no number of a finding with a place")]
    BadAccept(u32),
    #[error("no memory")]
    Memory,
    /// A fault of the bytes as a whole.
    #[error("{0}")]
    Source(SourceFault),
}

impl AcceptError {
    /// The number of the line, from 1. It is 0 if an allocation failed or the file is too long.
    pub fn line(self) -> u32
        ensures { result ≡ line_of self }
    {
        match self {
            AcceptError::BadAccept(line) | AcceptError::Source(SourceFault::NulByte(line)) => line,
            AcceptError::Memory | AcceptError::Source(SourceFault::TooLong) => 0,
        }
    }
}

impl From<SourceFault> for AcceptError {
    ghost use Rattle.std.specs.Prelude.{◌≡◌};
    ghost use Rattle.pam_findings.specs.declared.accepted.error.AcceptError.TheVariants.{Source};

    ghost from_gives = { λ fault error. error ≡ Source fault };

    fn from(fault: SourceFault) -> AcceptError {
        AcceptError::Source(fault)
    }
}

impl From<AllocError> for AcceptError {
    ghost use Rattle.std.specs.Prelude.{◌≡◌};
    ghost use Rattle.pam_findings.specs.declared.accepted.error.AcceptError.TheVariants.{Memory};

    ghost from_gives = { λ _ error. error ≡ Memory };

    fn from(_: AllocError) -> AcceptError {
        AcceptError::Memory
    }
}

impl<T: Drop> From<AllocFailed<T>> for AcceptError {
    ghost use Rattle.std.specs.Prelude.{◌≡◌};
    ghost use Rattle.pam_findings.specs.declared.accepted.error.AcceptError.TheVariants.{Memory};

    ghost from_gives = { λ _ error. error ≡ Memory };

    fn from(_: AllocFailed<T>) -> AcceptError {
        AcceptError::Memory
    }
}

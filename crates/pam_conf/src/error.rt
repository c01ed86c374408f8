//! The faults of configuration files.
ghost use Rattle.std.specs.Prelude.{◌≡◌};

use pam_codes::ControlError;
use std::alloc::{AllocError, AllocFailed};
use thiserror::Error;

/// What is wrong with a file, or with the files that a service reads.
#[derive(Clone, Copy, Debug, PartialEq, Eq, Error)]
pub enum FaultKind {
    /// E1, at the line of the first NUL byte, even in a comment.
    #[error("a NUL byte")]
    NulByte,
    /// E2: a line ends before its kind, control or path.
    #[error("the kind, the control or the path is missing")]
    MissingField,
    /// E3: the kind is not one of the four.
    #[error("not one of auth, account, password and session")]
    BadKind,
    /// E4 to E8. An open bracket anywhere in the line is E8.
    #[error(transparent)]
    Control(ControlError),
    /// E9: nothing follows `include`, `substack` or `@include`.
    #[error("no target is named")]
    MissingTarget,
    /// E10: the target is empty, or has a `/` besides the folder's prefix.
    #[error("the target is empty or lies in another folder")]
    BadTarget,
    /// E11: the target is open already.
    #[error("the target is being read already")]
    Cycle,
    /// E12: the target would be the 17th open file.
    #[error("more than 16 files would be open")]
    TooDeep,
    /// E13, at the 257th module.
    #[error("more than 256 modules")]
    TooManyModules,
    /// E14: an include, substack or `@include` in pam.conf.
    #[error("an include in pam.conf")]
    IncludeInSingleFile,
    /// E15: neither the service nor `other` has rules, or a target has no file.
    #[error("no rules for the service, or no file of this name")]
    NoService,
    /// E16, at line 0.
    #[error("the file is longer than 1,048,576 bytes")]
    FileTooLong,
    /// E17, at line 0.
    #[error("out of memory")]
    Memory,
    /// E18, at the 257th include or substack.
    #[error("more than 256 includes and substacks")]
    TooManyFollowed,
}

impl From<AllocError> for FaultKind {
    ghost use Rattle.pam_conf.specs.declared.error.FaultKind.TheVariants.{Memory};

    ghost from_gives = { λ _ e. e ≡ Memory };

    fn from(_: AllocError) -> FaultKind {
        FaultKind::Memory
    }
}

impl<T: Drop> From<AllocFailed<T>> for FaultKind {
    ghost use Rattle.pam_conf.specs.declared.error.FaultKind.TheVariants.{Memory};

    ghost from_gives = { λ _ e. e ≡ Memory };

    fn from(_: AllocFailed<T>) -> FaultKind {
        FaultKind::Memory
    }
}

/// A fault of a file, and its line.
#[derive(Clone, Copy, Debug, PartialEq, Eq, Error)]
#[error("line {line}: {kind}")]
pub struct RuleFault {
    pub kind: FaultKind,
    /// From 1; 0 if the fault has no line.
    pub line: usize,
}

/// The fault of a failed allocation.
fn out_of_memory() -> RuleFault
    ensures { result ≡ record { kind = FaultKind.Memory; line = 0 } }
{
    RuleFault {
        kind: FaultKind::Memory,
        line: 0,
    }
}

impl<T: Drop> From<AllocFailed<T>> for RuleFault {
    ghost use Rattle.pam_conf.specs.declared.error.FaultKind.TheVariants.{Memory};

    ghost from_gives = { λ _ e. e ≡ record { kind = Memory; line = 0 } };

    fn from(_: AllocFailed<T>) -> RuleFault {
        out_of_memory()
    }
}

impl From<AllocError> for RuleFault {
    ghost use Rattle.pam_conf.specs.declared.error.FaultKind.TheVariants.{Memory};

    ghost from_gives = { λ _ e. e ≡ record { kind = Memory; line = 0 } };

    fn from(_: AllocError) -> RuleFault {
        out_of_memory()
    }
}

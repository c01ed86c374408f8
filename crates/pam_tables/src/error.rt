//! The faults of tables.

ghost use Rattle.std.specs.Prelude.{◌≡◌};
ghost use Rattle.pam_tables.specs.Error.{line_of_fault};

use std::alloc::{AllocError, AllocFailed};
use thiserror::Error;

/// The kind of a file with a fault.
#[derive(Clone, Copy, Debug, PartialEq, Eq)]
pub enum Table {
    Access,
    Group,
    Returns,
}

/// Why a table or a line of it is invalid.
#[derive(Clone, Copy, Debug, PartialEq, Eq, Error)]
pub enum TableFault {
    #[error("a field is missing")]
    MissingField,
    #[error("the permission is neither + nor -")]
    BadPermission,
    #[error("a netgroup")]
    Netgroup,
    #[error("a user at a host")]
    UserAtHost,
    #[error("the mask of a network is neither a number of bits nor an address of its family")]
    BadMask,
    #[error("no name, password, number and members of a group")]
    BadGroup,
    #[error("a NUL byte")]
    NulByte,
    #[error("no memory")]
    Memory,
    #[error("the table is too long")]
    TableTooLong,
    #[error("a word is no return code")]
    BadCode,
    #[error("a slash in the name of a module")]
    BadModule,
}

impl<T: Drop> From<AllocFailed<T>> for TableFault {
    ghost use Rattle.std.specs.Prelude.{◌≡◌};
    ghost use Rattle.pam_tables.specs.declared.error.TableFault.TheVariants.{Memory};

    ghost from_gives = { λ _ fault. fault ≡ Memory };

    fn from(_: AllocFailed<T>) -> TableFault {
        TableFault::Memory
    }
}

impl From<AllocError> for TableFault {
    ghost use Rattle.std.specs.Prelude.{◌≡◌};
    ghost use Rattle.pam_tables.specs.declared.error.TableFault.TheVariants.{Memory};

    ghost from_gives = { λ _ fault. fault ≡ Memory };

    fn from(_: AllocError) -> TableFault {
        TableFault::Memory
    }
}

/// A fault of a table, with the number of its line from 1. The line is 0 if an allocation failed or the file is too
/// long.
#[derive(Clone, Copy, Debug, PartialEq, Eq, Error)]
#[error("{table:?}, line {line}: {fault}")]
pub struct TableError {
    pub table: Table,
    pub fault: TableFault,
    pub line: u32,
}

impl TableError {
    /// Returns a fault of this line. For `Memory` the line is 0.
    pub fn new(table: Table, fault: TableFault, line: u32) -> TableError
        ensures { result ≡ record { table = table; fault = fault; line = line_of_fault fault line } }
    {
        let line = match fault {
            TableFault::Memory => 0,
            _ => line,
        };
        TableError { table, fault, line }
    }
}

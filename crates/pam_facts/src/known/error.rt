//! The faults of the files that a login is looked up in.

ghost use Rattle.std.specs.Prelude.{◌≡◌};

use pam_tables::TableError;
use pam_tables::times::TimeError;
use thiserror::Error;

/// A fault of a table, with the number of the table from 1 among those of its kind. Only access tables can be several.
#[derive(Clone, Copy, Debug, PartialEq, Eq, Error)]
#[error("table {number}: {error}")]
pub struct NumberedError {
    pub number: usize,
    pub error: TableError,
}

impl NumberedError {
    /// Returns a fault of a table that is the only one of its kind, or the first.
    pub fn first(error: TableError) -> NumberedError
        ensures { result ≡ record { number = 1; error = error } }
    {
        NumberedError { number: 1, error }
    }
}

/// A fault of a file that a login is looked up in.
#[derive(Clone, Copy, Debug, PartialEq, Eq, Error)]
pub enum KnownError {
    /// A fault of the group file, an access table or the returns file.
    #[error(transparent)]
    Table(NumberedError),
    /// A fault of the time table.
    #[error(transparent)]
    Time(TimeError),
}

impl From<TableError> for KnownError {
    ghost use Rattle.std.specs.Prelude.{◌≡◌};
    ghost use Rattle.pam_facts.specs.declared.known.error.KnownError.TheVariants.{Table};

    ghost from_gives = { λ error known. known ≡ Table (record { number = 1; error = error }) };

    fn from(error: TableError) -> KnownError {
        KnownError::Table(NumberedError::first(error))
    }
}

impl From<NumberedError> for KnownError {
    ghost use Rattle.std.specs.Prelude.{◌≡◌};
    ghost use Rattle.pam_facts.specs.declared.known.error.KnownError.TheVariants.{Table};

    ghost from_gives = { λ error known. known ≡ Table error };

    fn from(error: NumberedError) -> KnownError {
        KnownError::Table(error)
    }
}

impl From<TimeError> for KnownError {
    ghost use Rattle.std.specs.Prelude.{◌≡◌};
    ghost use Rattle.pam_facts.specs.declared.known.error.KnownError.TheVariants.{Time};

    ghost from_gives = { λ error known. known ≡ Time error };

    fn from(error: TimeError) -> KnownError {
        KnownError::Time(error)
    }
}

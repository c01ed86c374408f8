//! The row of what is wrong with a table: its number, its name, its level, and what it means.

ghost use Rattle.std.specs.Prelude.{◌≡◌};
ghost use Rattle.pam_explain.specs.Views.{explanation_view};
ghost use Rattle.pam_findings.specs.tables.Rows.{row_of, row_of_difference, row_of_fault, row_of_time_fault};

use crate::tables::problem::TableProblem;
use pam_explain::{Explanation, Level, old_tables, own_files, tables};
use pam_released::tables::TableDifference;
use pam_tables::TableFault;
use pam_tables::times::TimeFault;

fn row_of_fault(fault: TableFault) -> &'static Explanation
    ensures { explanation_view result.now ≡ row_of_fault fault }
{
    match fault {
        TableFault::MissingField => &tables::MISSING_FIELD,
        TableFault::BadPermission => &tables::BAD_PERMISSION,
        TableFault::Netgroup => &tables::NETGROUP,
        TableFault::UserAtHost => &tables::USER_AT_HOST,
        TableFault::BadMask => &tables::BAD_MASK,
        TableFault::BadGroup => &tables::BAD_GROUP,
        TableFault::NulByte => &tables::NUL_BYTE,
        TableFault::Memory => &tables::MEMORY,
        TableFault::TableTooLong => &tables::TABLE_TOO_LONG,
        TableFault::BadCode => &own_files::BAD_CODE,
        TableFault::BadModule => &own_files::BAD_MODULE,
    }
}

fn row_of_time_fault(fault: TimeFault) -> &'static Explanation
    ensures { explanation_view result.now ≡ row_of_time_fault fault }
{
    match fault {
        TimeFault::MissingField => &tables::MISSING_FIELD,
        TimeFault::Netgroup => &tables::NETGROUP,
        TimeFault::BadTimes => &tables::BAD_TIMES,
        TimeFault::TwoWildcards => &tables::TWO_WILDCARDS,
        TimeFault::BadLogic => &tables::BAD_LOGIC,
        TimeFault::NulByte => &tables::NUL_BYTE,
        TimeFault::Memory => &tables::MEMORY,
        TimeFault::TooLong => &tables::TABLE_TOO_LONG,
    }
}

fn row_of_difference(difference: TableDifference) -> &'static Explanation
    ensures { explanation_view result.now ≡ row_of_difference difference }
{
    match difference {
        TableDifference::ZeroMask => &old_tables::ZERO_MASK,
        TableDifference::AccessNoLineFeed => &old_tables::NO_LINE_FEED_IN_ACCESS_TABLE,
        TableDifference::LeadingBlank => &old_tables::LEADING_BLANK,
        TableDifference::BlankInToken => &old_tables::BLANK_IN_TOKEN,
        TableDifference::EmptySeparator => &old_tables::EMPTY_SEPARATOR,
        TableDifference::MaskDigits => &old_tables::MASK_DIGITS,
        TableDifference::Loopback => &old_tables::LOOPBACK,
        TableDifference::TimeNoLineFeed => &old_tables::NO_LINE_FEED_IN_TIME_TABLE,
        TableDifference::OddBytes => &old_tables::ODD_BYTES,
        TableDifference::LongField => &old_tables::LONG_FIELD,
        TableDifference::FinishMinute => &old_tables::FINISH_MINUTE,
    }
}

impl TableProblem {
    /// The row of the problem, as `explain` prints it.
    pub fn row(self) -> &'static Explanation
        ensures { explanation_view result.now ≡ row_of self }
    {
        match self {
            TableProblem::Fault(fault) => row_of_fault(fault),
            TableProblem::TimeFault(fault) => row_of_time_fault(fault),
            TableProblem::Released(difference) => row_of_difference(difference),
        }
    }

    /// The number, as `A2`.
    pub fn number(self) -> &'static str
        ensures { result.now ≡ (row_of self).number }
    {
        self.row().number
    }

    /// The name, as `NoLineFeed`.
    pub fn name(self) -> &'static str
        ensures { result.now ≡ (row_of self).name }
    {
        self.row().name
    }

    /// How grave the problem is.
    pub fn level(self) -> Level
        ensures { result ≡ (row_of self).level }
    {
        self.row().level
    }
}

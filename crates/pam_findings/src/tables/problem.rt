//! What can be wrong with a table, and where.

ghost use Rattle.std.specs.Prelude.{◌≡◌, ◌≤◌};
ghost use Rattle.pam_findings.specs.tables.Problems.{place_of, rank_of, rank_of_difference, rank_of_fault, rank_of_table, rank_of_time_fault};

use pam_released::tables::TableDifference;
use pam_tables::TableFault;
use pam_tables::times::TimeFault;

/// A table that modules read.
#[derive(Clone, Copy, Debug, PartialEq, Eq)]
pub enum HostTable {
    /// The group file, which pam_access reads.
    Groups,
    /// An access table, of pam_access.
    Access,
    /// The time table, of pam_time.
    Time,
}

/// What is wrong.
#[derive(Clone, Copy, Debug, PartialEq, Eq)]
pub enum TableProblem {
    /// TE1 to TE12: a fault of a group file or an access table, or of a line of it.
    Fault(TableFault),
    /// TE1 to TE12: a fault of a time table, or of a line of it.
    TimeFault(TimeFault),
    /// A1 to A4, A6, A7 and T1 to T4: released Linux-PAM reads the line otherwise.
    Released(TableDifference),
}

/// A problem at a line of a table.
#[derive(Clone, Copy, Debug, PartialEq, Eq)]
pub struct TableFinding {
    pub table: HostTable,
    /// Which of the access tables, from 0 in the order in which they are read; 0 for another table.
    pub number: usize,
    /// From 1; 0 for the table as a whole.
    pub line: u32,
    pub problem: TableProblem,
}

/// The place of a problem. Places are in the order in which problems are listed.
#[derive(Clone, Copy, Debug, PartialEq, Eq, PartialOrd, Ord)]
pub struct TablePlace {
    /// The group file is 0, an access table 1, the time table 2.
    pub table: u8,
    /// Which of the access tables, from 0; 0 for another table.
    pub number: usize,
    /// From 1; 0 for the table as a whole.
    pub line: u32,
    /// Problems of one line are in the order of their ranks: faults, and then differences, by number.
    pub rank: u8,
}

impl HostTable {
    fn rank(self) -> u8
        ensures { result ≡ rank_of_table self }
    {
        match self {
            HostTable::Groups => 0,
            HostTable::Access => 1,
            HostTable::Time => 2,
        }
    }
}

/// The number after `TE`.
fn rank_of_fault(fault: TableFault) -> u8
    ensures { result ≡ rank_of_fault fault }
{
    match fault {
        TableFault::MissingField => 1,
        TableFault::BadPermission => 2,
        TableFault::Netgroup => 3,
        TableFault::UserAtHost => 4,
        TableFault::BadMask => 5,
        TableFault::BadGroup => 9,
        TableFault::NulByte => 10,
        TableFault::Memory => 11,
        TableFault::TableTooLong => 12,
        TableFault::BadCode => 13,
        TableFault::BadModule => 14,
    }
}

/// The number after `TE`.
fn rank_of_time_fault(fault: TimeFault) -> u8
    ensures value { result ≡ rank_of_time_fault fault }
    ensures bound { result ≤ 12 }
{
    match fault {
        TimeFault::MissingField => 1,
        TimeFault::Netgroup => 3,
        TimeFault::BadTimes => 6,
        TimeFault::TwoWildcards => 7,
        TimeFault::BadLogic => 8,
        TimeFault::NulByte => 10,
        TimeFault::Memory => 11,
        TimeFault::TooLong => 12,
    }
}

/// The number after `A`, and 10 more than the number after `T`.
fn rank_of_difference(difference: TableDifference) -> u8
    ensures value { result ≡ rank_of_difference difference }
    ensures bound { result ≤ 14 }
{
    match difference {
        TableDifference::ZeroMask => 1,
        TableDifference::AccessNoLineFeed => 2,
        TableDifference::LeadingBlank => 3,
        TableDifference::BlankInToken => 4,
        TableDifference::EmptySeparator => 5,
        TableDifference::MaskDigits => 6,
        TableDifference::Loopback => 7,
        TableDifference::TimeNoLineFeed => 11,
        TableDifference::OddBytes => 12,
        TableDifference::LongField => 13,
        TableDifference::FinishMinute => 14,
    }
}

impl TableProblem {
    fn rank(self) -> u8
        ensures { result ≡ rank_of self }
    {
        match self {
            TableProblem::Fault(fault) => rank_of_fault(fault),
            TableProblem::TimeFault(fault) => 20 + rank_of_time_fault(fault),
            TableProblem::Released(difference) => 40 + rank_of_difference(difference),
        }
    }
}

impl TableFinding {
    /// The place of the problem. Two problems have two places.
    #[tactic(auto, unfolding(crate::specs::tables::Problems::place_of))]
    pub fn place(self) -> TablePlace
        ensures value { result ≡ place_of self }
        ensures apart { (other : TableFinding) → place_of other ≡ result → other ≡ self }
    {
        TablePlace {
            table: self.table.rank(),
            number: self.number,
            line: self.line,
            rank: self.problem.rank(),
        }
    }
}

//! The lines of a check.

use crate::parts::check::{Counts, Names};
use pam_findings::host::{Finding, Place};
use pam_findings::misspelled::Misspelled;
use pam_findings::tables::TableFinding;
use pam_report::{TablePaths, UnusedLine};

/// A finding, beside the names that its line uses and the word that is wrong, if it is known.
#[derive(Clone, Copy)]
pub struct FoundProblem<'x> {
    pub names: &'x Names<'x>,
    pub entry: &'x (Place, Finding),
    pub word: Option<&'x Misspelled>,
}

/// A line of a check.
#[derive(Clone, Copy)]
pub enum CheckLine<'x> {
    /// A finding.
    Found(FoundProblem<'x>),
    /// A problem of a table, beside the path of each table.
    InTable {
        paths: &'x TablePaths<'x>,
        finding: TableFinding,
    },
    /// A line that says nothing of the host, beside the name of its file.
    Unused {
        file: &'x [u8],
        line: &'x UnusedLine,
    },
    /// The last line: the number of services, and those of findings.
    Last {
        services: usize,
        counts: Counts,
    },
}

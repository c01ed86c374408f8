//! The tables of a host: which of them the modules of its stacks read, and what is wrong with these.
#![tactic(auto)]

mod findings;
mod host_tables;
mod judging;
mod needs;
mod problem;
mod report;
mod row;

pub use host_tables::HostTables;
pub use problem::{HostTable, TableFinding, TablePlace, TableProblem};
pub use report::TableReport;

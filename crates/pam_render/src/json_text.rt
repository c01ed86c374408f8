//! Answers as JSON Lines: each reply of `pam_report` is written as lines of JSON, and nowhere else.
#![tactic(auto)]

mod check;
mod compare;
mod decide;
mod form;
mod header;
mod needs;
mod outcomes;
mod paths;
mod policy;
mod printing;
mod show;
mod steps;
mod tables;

pub(crate) use check::FindingValue;
pub use printing::print_if_any;

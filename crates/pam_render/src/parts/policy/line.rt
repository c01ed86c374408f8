//! The lines of policies.

use crate::parts::check::Counts;
use crate::parts::policy::told::{PolicyHost, ToldFinding, ToldRule};

/// A line of policies.
#[derive(Clone, Copy)]
pub enum PolicyLine<'x> {
    /// A finding of a rule, beside the host.
    Found {
        host: &'x PolicyHost<'x>,
        told: &'x ToldFinding<'x>,
    },
    /// A rule, of which it is told whether it holds.
    Judged(ToldRule<'x>),
    /// The last line: the number of rules, that of the stacks of which some rule speaks, and those of findings.
    Last {
        rules: usize,
        stacks: usize,
        counts: Counts,
    },
}

//! What is wanted of a run.

use crate::past_ends::PastEnds;
use pam_codes::CodeSet;

/// What is wanted of a run, and so of a walk through a graph.
#[derive(Clone, Copy, Debug)]
pub enum Goal {
    /// Nothing: every walk meets it.
    Any,
    /// The stack decides one of these codes.
    Decides(CodeSet),
    /// The module with this number is asked.
    Asks(usize),
    /// Some answer jumps past the end of its list.
    PastEnd(PastEnds),
}

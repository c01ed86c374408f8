//! Runs that are found.

use pam_codes::Code;

/// A module that is asked, and its answer.
#[derive(Clone, Copy, Debug, PartialEq, Eq)]
pub struct Step {
    /// The number of the module, from 1.
    pub module_number: usize,
    pub code: Code,
}

/// A run of a stack: the modules that are asked, in turn, with their answers, and what the stack decides.
#[derive(Drop)]
pub struct Run {
    pub steps: Vec<Step>,
    pub decision: Code,
}

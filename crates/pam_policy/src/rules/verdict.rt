//! What a stack says of a rule.

use crate::search::Run;

/// What a stack says of a rule.
#[derive(Drop)]
pub enum Verdict {
    /// No answers break the rule.
    Holds,
    /// This run breaks it.
    Broken(Run),
    /// This run does what the rule says that the stack can do.
    Shown(Run),
    /// No answers do what the rule says that the stack can do.
    Impossible,
}

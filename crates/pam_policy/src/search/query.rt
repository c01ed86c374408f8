//! What is looked for among the runs of a stack.

use crate::search::marks::Marks;
use arrayvec::ArrayVec;
use pam_codes::CodeSet;

/// The most events that a query can want together.
pub const MAX_TOGETHER: usize = 4;

/// What is looked for among the runs of a stack.
#[derive(Drop)]
pub enum Query {
    /// The stack decides one of `decisions`, each of the events `wanted` happens, and `barred` does not.
    Together {
        wanted: ArrayVec<Marks, MAX_TOGETHER>,
        barred: Marks,
        decisions: CodeSet,
    },
    /// The event `second` happens, and at no module that is asked before does `first`.
    Before {
        first: Marks,
        second: Marks,
    },
}

//! Situations of two stacks.

/// Where two stacks are, by the indices of their places, and the number of the list of answers that are held there.
#[derive(Debug, PartialEq, Eq, Hash, Drop)]
pub(crate) struct Situation {
    pub(crate) old: usize,
    pub(crate) new: usize,
    pub(crate) held: usize,
}

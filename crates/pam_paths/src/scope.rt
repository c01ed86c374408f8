//! What an exploration is of.

use crate::direction::Direction;
use crate::knowledge::Knowledge;
use pam_dispatch::Program;

/// What stays the same throughout an exploration: the program, the answers that its modules may give, and the direction.
#[derive(Drop)]
pub(crate) struct Scope<'a, K: Knowledge> {
    pub(crate) program: &'a Program,
    pub(crate) knowledge: &'a K,
    pub(crate) direction: Direction,
}

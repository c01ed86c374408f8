//! The direction in which walks are followed.

ghost use Rattle.std.specs.Prelude.{◌≡◌, ◌<◌, length, slice_index_or};
ghost use Rattle.pam_graph.specs.Frames.{edges_in};
ghost use Rattle.pam_graph.specs.inner.Parts.{is_beyond, is_past_end};

use crate::node::{Edge, Target};

/// The direction in which walks are followed.
#[derive(Clone, Copy, Debug)]
pub(crate) enum Direction {
    /// In the order of their keys.
    Forward,
    /// In the reverse order.
    Backward,
}

impl Direction {
    /// The edge at `index`, in this direction.
    pub(crate) fn edge(self, edges: &[Edge], index: usize) -> Edge
        requires { index < length edges.now }
        ensures { result ≡ slice_index_or (edges_in self edges.now) index result }
    {
        match self {
            Direction::Forward => edges[index],
            Direction::Backward => edges[edges.len() - 1 - index],
        }
    }

    /// Whether `code` comes after `other`, in this direction.
    pub(crate) fn is_beyond(self, other: u8, code: u8) -> bool
        ensures { result ≡ is_beyond self other code }
    {
        match self {
            Direction::Forward => other < code,
            Direction::Backward => code < other,
        }
    }

    /// Whether the walks from `target` on come after a cursor, where either has ended: the cursor has further codes there if
    /// `has_code`.
    pub(crate) fn is_past_end(self, has_code: bool, target: &Target) -> bool
        ensures { result ≡ is_past_end self has_code target.now }
    {
        match (self, target) {
            (Direction::Forward, Target::At(_)) => !has_code,
            (Direction::Forward, Target::End(_)) => false,
            (Direction::Backward, Target::At(_)) => false,
            (Direction::Backward, Target::End(_)) => has_code,
        }
    }
}

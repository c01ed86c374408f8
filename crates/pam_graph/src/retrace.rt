//! The frames from which the walks past a cursor follow.

ghost use Rattle.std.specs.Prelude.{◌≡◌, ℕ, ◌∷◌, ◌++◌, if◌then◌else◌, [], IfSome, List, None, Some, false, length};
ghost use Rattle.pam_graph.specs.Frames.{ahead, along, coming, under};
ghost use Rattle.pam_graph.specs.inner.Frames.{AreFrames, IsExploring};
ghost use Rattle.pam_graph.specs.Order.{AreAbove, AreNodes, IsAbove, IsStart, LeastRise, numbers_of};
ghost use Rattle.pam_graph.specs.inner.Parts.{IsTurn, is_past_end, part, part_along};
ghost use Rattle.pam_graph.specs.declared.node.Target.TheVariants.{At};

use crate::direction::Direction;
use crate::frames::{Frame, Frames, Search, Way};
use crate::node::{Edge, Target};
use crate::tally::met_after;
use pam_codes::CodeSet;
use pam_paths::least_number;

/// Where a cursor turns off among the edges of a node.
#[derive(Clone, Copy, Debug)]
pub(crate) struct Turn {
    /// The edge whose least code is that of the cursor.
    pub(crate) edge: Option<Edge>,
    /// The number of edges, in the direction of the walks, up to that edge; without it, of those before the code.
    pub(crate) next: usize,
}

impl Direction {
    /// Where a cursor with this code turns off among `edges`.
    fn turn(self, edges: &[Edge], code: u8) -> Turn
        requires { LeastRise 0 31 edges.now }
        ensures turn { IsTurn self edges.now code result }
        ensures above { (numbers : List ℕ) (low : ℕ) → AreAbove numbers low edges.now → IfSome result.edge (λ e. IsAbove numbers low e.target) }
    {
        for index in 0..edges.len() {
            let edge = self.edge(edges, index);
            let number = least_number(edge.class);
            if number == code {
                return Turn {
                    edge: Some(edge),
                    next: index + 1,
                };
            }
            if self.is_beyond(code, number) {
                return Turn {
                    edge: None,
                    next: index,
                };
            }
        }
        Turn {
            edge: None,
            next: edges.len(),
        }
    }
}

impl Search<'_> {
    /// Follows a code of a cursor at the node with this index, and pushes the frame of that node. Returns the way on, if an
    /// edge has the code.
    fn retrace_code(&self, index: usize, is_met: bool, code: u8, frames: &mut Frames) -> Option<Way>
        requires order { AreNodes [] self.now.nodes.now }
        requires frames { AreFrames self.now.nodes.now 0 frames.old.items }
        requires above { IsAbove (numbers_of self.now.nodes.now) (length frames.old.items) (At index) }
        ensures frames { AreFrames self.now.nodes.now 0 frames.new.items }
        ensures above { IfSome result (λ way. IsAbove (numbers_of self.now.nodes.now) (length frames.new.items) way.target) }
        ensures walks { (codes : List ℕ) → under frames.old.items (part self.now.direction (code ∷ codes)
            (along self.now.direction self.now.goal.now self.now.nodes.now (record { target = At index; is_met = is_met })))
            ++ ahead self.now.direction self.now.goal.now self.now.nodes.now frames.old.items
            ≡ under frames.new.items (part_along self.now.direction self.now.goal.now self.now.nodes.now codes result)
            ++ ahead self.now.direction self.now.goal.now self.now.nodes.now frames.new.items }
    {
        let node = &self.nodes[index];
        let turn = self.direction.turn(&node.edges, code);
        let frame = Frame {
            node: index,
            module_number: node.module_number,
            next: turn.next,
            is_met,
            class: CodeSet::empty(),
        };
        let edge = turn.edge;
        match edge {
            None => {
                frames.push(frame);
                None
            }
            Some(edge) => {
                frames.push(Frame {
                    class: edge.class,
                    ..frame
                });
                Some(Way {
                    target: edge.target,
                    is_met: met_after(self.goal, is_met, node.module_number, &edge),
                })
            }
        }
    }

    /// The way, if the walks on it come after a cursor, where either has ended.
    fn way_past(&self, has_code: bool, way: Way) -> Option<Way>
        ensures { result ≡ (if is_past_end self.now.direction has_code way.target then Some way else None) }
    {
        if self.direction.is_past_end(has_code, &way.target) {
            return Some(way);
        }
        None
    }

    /// Pushes the frames of the nodes along the codes of a cursor, as far as there are edges of these codes. Returns the way
    /// from there on, if the walks on it come after the cursor.
    pub(crate) fn retrace(&self, start: Target, codes: &[u8], frames: &mut Frames) -> Option<Way>
        requires order { AreNodes [] self.now.nodes.now }
        requires start { IsStart self.now.nodes.now start }
        requires none { frames.old.items ≡ [] }
        ensures exploring { IsExploring self.now.nodes.now result frames.new.items }
        ensures walks { coming self.now.direction self.now.goal.now self.now.nodes.now result frames.new.items
            ≡ part self.now.direction codes.now
            (along self.now.direction self.now.goal.now self.now.nodes.now (record { target = start; is_met = false })) }
    {
        let mut way = Way {
            target: start,
            is_met: false,
        };
        for code in codes {
            let Target::At(index) = way.target else {
                return self.way_past(true, way);
            };
            let Some(next) = self.retrace_code(index as usize, way.is_met, *code, frames) else {
                return None;
            };
            way = next;
        }
        self.way_past(false, way)
    }
}

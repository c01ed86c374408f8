//! The frames of a walk: the nodes on it, with the edges that are left at each.

ghost use Rattle.std.specs.Prelude.{◌≡◌, ◌≢◌, ◌-◌, ◌<◌, ◌∷◌, ◌++◌, [], false, IfNone, IfSome, List, Some, ℕ, drop, length, map, take};
ghost use Rattle.pam_conf.specs.declared.stack.TheConstants.{MAX_MODULES};
ghost use Rattle.pam_graph.specs.Frames.{ahead, along, edges_in, under, wanted_by};
ghost use Rattle.pam_graph.specs.inner.Frames.{AreFrames, IsSearch, walk_to};
ghost use Rattle.pam_graph.specs.Order.{AreAbove, IsAbove, numbers_of};
ghost use Rattle.pam_graph.specs.Tallies.{wanted_of};
ghost use Rattle.pam_graph.specs.inner.Tallies.{tally_of};
ghost use Rattle.pam_graph.specs.Walks.{walks_to};
ghost use Rattle.pam_graph.specs.inner.Within.{AreWithin, IsWithin, height};
ghost use Rattle.pam_graph.specs.declared.node.Target.TheVariants.{At};
ghost use Rattle.pam_paths.specs.Computed.{after_step};
ghost use Rattle.pam_paths.specs.Paths.{PathValue};

use crate::direction::Direction;
use crate::goal::Goal;
use crate::node::{Edge, Node, Target};
use crate::tally::{Tally, count_to, has_walks, met_after};
use arrayvec::ArrayVec;
use pam_codes::{Code, CodeSet};
use pam_dispatch::MAX_MODULES;

/// The frames of a walk, outermost first.
pub(crate) type Frames = ArrayVec<Frame, MAX_MODULES>;

/// A node on a walk.
#[derive(Clone, Copy, Debug)]
pub(crate) struct Frame {
    /// The index of the node.
    pub(crate) node: usize,
    pub(crate) module_number: usize,
    /// The number of its edges, in the direction of the walks, up to the one that is followed.
    pub(crate) next: usize,
    /// Whether the goal was met before its module was asked.
    pub(crate) is_met: bool,
    /// The class of the edge that is followed.
    pub(crate) class: CodeSet,
}

impl Default for Frame {
    fn default() -> Frame {
        Frame {
            node: 0,
            module_number: 0,
            next: 0,
            is_met: false,
            class: CodeSet::empty(),
        }
    }
}

impl Frame {
    /// The frame with the edge followed that was found.
    fn following(self, found: &Found) -> Frame
        ensures { result ≡ record self { next = found.now.next; class = found.now.class } }
    {
        Frame {
            next: found.next,
            class: found.class,
            ..self
        }
    }
}

/// Where a walk goes on, and whether the goal was met before.
#[derive(Clone, Copy, Debug)]
pub(crate) struct Way {
    pub(crate) target: Target,
    pub(crate) is_met: bool,
}

/// What walks are followed, in which direction.
#[derive(Clone, Copy)]
pub(crate) struct Search<'a> {
    pub(crate) direction: Direction,
    pub(crate) goal: &'a Goal,
    pub(crate) nodes: &'a [Node],
    pub(crate) tallies: &'a [Tally],
}

/// An edge by which a wanted walk begins, and the number of edges up to it.
#[derive(Clone, Copy, Debug)]
pub(crate) struct Found {
    pub(crate) class: CodeSet,
    pub(crate) target: Target,
    /// Whether the goal was met before, or by the step along the edge.
    pub(crate) is_met: bool,
    pub(crate) next: usize,
}

impl Search<'_> {
    /// The first of `edges`, from the edge at `next` on, by which a wanted walk begins. They are edges of a node of the module with
    /// this number, before which the goal was met if `is_met`.
    fn edge_from(&self, is_met: bool, number: usize, edges: &[Edge], next: usize) -> Option<Found>
        requires { AreWithin (length self.now.tallies.now) edges.now }
        ensures none { (known : List (List PathValue)) → self.now.tallies.now ≡ map (tally_of self.now.goal.now) known
            → IfNone result (wanted_by self.now.goal.now is_met known number (drop next (edges_in self.now.direction edges.now)) ≡ []) }
        ensures some { (known : List (List PathValue)) → self.now.tallies.now ≡ map (tally_of self.now.goal.now) known
            → IfSome result (λ f. wanted_by self.now.goal.now is_met known number (drop next (edges_in self.now.direction edges.now))
            ≡ map (after_step (record { module_number = number; class = f.class })) (wanted_of self.now.goal.now f.is_met (walks_to known f.target))
            ++ wanted_by self.now.goal.now is_met known number (drop f.next (edges_in self.now.direction edges.now))) }
        ensures wanted { (known : List (List PathValue)) → self.now.tallies.now ≡ map (tally_of self.now.goal.now) known
            → IfSome result (λ f. wanted_of self.now.goal.now f.is_met (walks_to known f.target) ≢ []) }
        ensures above { (numbers : List ℕ) (low : ℕ) → AreAbove numbers low edges.now → IfSome result (λ f. IsAbove numbers low f.target) }
    {
        for index in next..edges.len() {
            let edge = self.direction.edge(edges, index);
            let is_met_after = met_after(self.goal, is_met, number, &edge);
            if has_walks(count_to(self.goal, is_met_after, self.tallies, &edge.target)) {
                return Some(Found {
                    class: edge.class,
                    target: edge.target,
                    is_met: is_met_after,
                    next: index + 1,
                });
            }
        }
        None
    }

    /// The way, if there is one and a wanted walk goes on it.
    pub(crate) fn begin(&self, pending: Option<Way>) -> Option<Way>
        requires search { IsSearch self.now }
        requires within { IfSome pending (λ way. IsWithin (length self.now.nodes.now) way.target) }
        ensures none { IfNone result (IfSome pending (λ way. along self.now.direction self.now.goal.now self.now.nodes.now way ≡ [])) }
        ensures way { IfSome result (λ way. pending ≡ Some way) }
        ensures wanted { IfSome result (λ way. along self.now.direction self.now.goal.now self.now.nodes.now way ≢ []) }
    {
        let Some(way) = pending else {
            return None;
        };
        let target = way.target;
        if has_walks(count_to(self.goal, way.is_met, self.tallies, &target)) {
            return Some(way);
        }
        None
    }

    /// Pops frames up to the innermost one with a further edge by which a wanted walk begins, and follows that edge; `None` if
    /// no frame has one.
    pub(crate) fn advance(&self, frames: &mut Frames) -> Option<Way>
        requires search { IsSearch self.now }
        requires frames { AreFrames self.now.nodes.now 0 frames.old.items }
        ensures none { IfNone result (ahead self.now.direction self.now.goal.now self.now.nodes.now frames.old.items ≡ []) }
        ensures emptied { IfNone result (frames.new.items ≡ []) }
        ensures frames { AreFrames self.now.nodes.now 0 frames.new.items }
        ensures walks { IfSome result (λ way. ahead self.now.direction self.now.goal.now self.now.nodes.now frames.old.items
            ≡ under frames.new.items (along self.now.direction self.now.goal.now self.now.nodes.now way)
            ++ ahead self.now.direction self.now.goal.now self.now.nodes.now frames.new.items) }
        ensures wanted { IfSome result (λ way. along self.now.direction self.now.goal.now self.now.nodes.now way ≢ []) }
        ensures above { IfSome result (λ way. IsAbove (numbers_of self.now.nodes.now) (length frames.new.items) way.target) }
        ensures earlier { take (length frames.new.items - 1) frames.new.items ≡ take (length frames.new.items - 1) frames.old.items }
    {
        while let Some(frame) = frames.pop() {
            let node = &self.nodes[frame.node];
            if let Some(found) = self.edge_from(
                frame.is_met,
                frame.module_number,
                &node.edges,
                frame.next,
            ) {
                frames.push(frame.following(&found));
                return Some(Way {
                    target: found.target,
                    is_met: found.is_met,
                });
            }
        }
        None
    }

    /// Follows the first edge of a node by which a wanted walk begins.
    fn enter(&self, index: usize, is_met: bool, frames: &mut Frames) -> Way
        requires search { IsSearch self.now }
        requires frames { AreFrames self.now.nodes.now 0 frames.old.items }
        requires wanted { along self.now.direction self.now.goal.now self.now.nodes.now (record { target = At index; is_met = is_met }) ≢ [] }
        requires above { IsAbove (numbers_of self.now.nodes.now) (length frames.old.items) (At index) }
        ensures frames { AreFrames self.now.nodes.now 0 frames.new.items }
        ensures walks { under frames.old.items (along self.now.direction self.now.goal.now self.now.nodes.now (record { target = At index; is_met = is_met }))
            ++ ahead self.now.direction self.now.goal.now self.now.nodes.now frames.old.items
            ≡ under frames.new.items (along self.now.direction self.now.goal.now self.now.nodes.now result)
            ++ ahead self.now.direction self.now.goal.now self.now.nodes.now frames.new.items }
        ensures wanted { along self.now.direction self.now.goal.now self.now.nodes.now result ≢ [] }
        ensures above { IsAbove (numbers_of self.now.nodes.now) (length frames.new.items) result.target }
        ensures lower { height result.target < height (At index) }
        ensures earlier { take (length frames.old.items) frames.new.items ≡ frames.old.items }
    {
        let node = &self.nodes[index];
        let Some(found) = self.edge_from(is_met, node.module_number, &node.edges, 0) else {
            unreachable!()
        };
        frames.push(Frame {
            node: index,
            module_number: node.module_number,
            next: found.next,
            is_met,
            class: found.class,
        });
        Way {
            target: found.target,
            is_met: found.is_met,
        }
    }

    /// Follows, from `way` on, the first edge of each node by which a wanted walk begins, up to an end. Returns the decision.
    pub(crate) fn descend(&self, way: Way, frames: &mut Frames) -> Code
        requires search { IsSearch self.now }
        requires frames { AreFrames self.now.nodes.now 0 frames.old.items }
        requires wanted { along self.now.direction self.now.goal.now self.now.nodes.now way ≢ [] }
        requires above { IsAbove (numbers_of self.now.nodes.now) (length frames.old.items) way.target }
        ensures frames { AreFrames self.now.nodes.now 0 frames.new.items }
        ensures walk { under frames.old.items (along self.now.direction self.now.goal.now self.now.nodes.now way)
            ++ ahead self.now.direction self.now.goal.now self.now.nodes.now frames.old.items
            ≡ walk_to frames.new.items result ∷ ahead self.now.direction self.now.goal.now self.now.nodes.now frames.new.items }
        ensures earlier { take (length frames.old.items) frames.new.items ≡ frames.old.items }
    {
        let mut target = way.target;
        let mut is_met = way.is_met;
        loop {
            match target {
                Target::End(decision) => return decision,
                Target::At(index) => {
                    let next = self.enter(index as usize, is_met, frames);
                    target = next.target;
                    is_met = next.is_met;
                }
            }
        }
    }
}

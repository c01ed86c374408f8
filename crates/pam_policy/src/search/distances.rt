//! How many modules a run asks at least from each node of a graph on.

ghost use Rattle.std.specs.Prelude.{◌≡◌, ◌≤◌, ◌∷◌, [], IfOk, List, length};
ghost use Rattle.pam_graph.specs.Order.{AreNodes};
ghost use Rattle.pam_graph.specs.Walks.{walks_at, walks_of, walks_to};
ghost use Rattle.pam_graph.specs.inner.Within.{AreWithin, IsWithin};
ghost use Rattle.pam_paths.specs.Known.{may_answer};
ghost use Rattle.pam_paths.specs.Paths.{PathValue};
ghost use Rattle.pam_policy.specs.search.inner.Distances.{AreDistances};
ghost use Rattle.pam_policy.specs.search.inner.Monitor.{first_state};
ghost use Rattle.pam_policy.specs.search.inner.Searches.{IsLeastAfter, IsLeastBy, IsLeastFrom, Knows};

use crate::search::monitor::STATES;
use crate::search::query::Query;
use pam_codes::Code;
use pam_graph::{Edge, Node, Target};
use pam_paths::{Knowledge, Known};
use std::alloc::{AllocError, Global};

/// The distance of a node from which no run is as it is wanted.
pub(crate) const FAR: u16 = u16::MAX;

/// The distances of a node for each state.
pub(crate) type Distances = [u16; STATES];

/// A search of the runs that do what a query asks for, as far as a knowledge allows them.
#[derive(Clone, Copy)]
pub(crate) struct Search<'a> {
    pub(crate) known: &'a Known,
    pub(crate) query: &'a Query,
    /// The distances of nodes, each after those to which its edges lead.
    pub(crate) far: &'a [Distances],
}

impl Search<'_> {
    /// From `target` on, in a state.
    pub(crate) fn distance_to(&self, target: &Target, state: u8) -> u16
        requires target { IsWithin (length self.now.far.now) target.now }
        requires state { state ≤ first_state self.now.query.now }
        ensures { (known : List (List PathValue)) → Knows self.now known → IsLeastFrom self.now (walks_to known target.now) state result }
    {
        match target {
            Target::At(index) => {
                // A query says with its first state that it has no more states than a node has distances.
                let _last = self.query.first_state();
                self.far[*index as usize][usize::from(state)]
            }
            Target::End(decision) => if self.query.is_good(state, *decision) {
                0
            } else {
                FAR
            },
        }
    }

    /// From `target` on, after an answer of the module with this number in a state.
    fn distance_after(&self, target: &Target, number: usize, code: Code, state: u8) -> u16
        requires target { IsWithin (length self.now.far.now) target.now }
        requires state { state ≤ first_state self.now.query.now }
        ensures { (known : List (List PathValue)) → Knows self.now known
            → IsLeastAfter self.now (walks_to known target.now) number code state result }
    {
        match self.query.after(number, code, state) {
            Some(next) => self.distance_to(target, next),
            None => FAR,
        }
    }

    /// After an answer of the class of `edge`, at a node of the module with this number.
    fn distance_by(&self, number: usize, edge: &Edge, state: u8) -> u16
        requires target { IsWithin (length self.now.far.now) edge.now.target }
        requires state { state ≤ first_state self.now.query.now }
        ensures { (known : List (List PathValue)) → Knows self.now known → IsLeastBy self.now known number state edge.now result }
    {
        let mut least = FAR;
        let mut left = edge.class.intersection(self.known.allowed(number));
        while let Some(code) = left.take_least() {
            least = least.min(self.distance_after(&edge.target, number, code, state));
        }
        least
    }

    /// From `node` on, in a state.
    fn distance_from(&self, node: &Node, state: u8) -> u16
        requires edges { AreWithin (length self.now.far.now) node.now.edges.items }
        requires state { state ≤ first_state self.now.query.now }
        ensures { (known : List (List PathValue)) → Knows self.now known → IsLeastFrom self.now (walks_at known node.now) state result }
    {
        let mut least = FAR;
        for edge in &node.edges {
            least = least.min(self.distance_by(node.module_number, edge, state));
        }
        least.saturating_add(1)
    }

    /// From `node` on, in each state.
    fn distances_from(&self, node: &Node) -> Distances
        requires edges { AreWithin (length self.now.far.now) node.now.edges.items }
        ensures { (known : List (List PathValue)) → Knows self.now known
            → AreDistances (may_answer self.now.known.now) self.now.query.now (walks_at known node.now ∷ []) (result ∷ []) }
    {
        let mut distances = [FAR; STATES];
        let states = self.query.first_state() + 1;
        for state in 0..states {
            distances[usize::from(state)] = self.distance_from(node, state);
        }
        distances
    }
}

/// The distances of each of these nodes.
pub(crate) fn distances(
    alloc: Global,
    nodes: &[Node],
    known: &Known,
    query: &Query,
) -> Result<Vec<Distances>, AllocError>
    requires { AreNodes [] nodes.now }
    ensures len { IfOk result (λ far. length far.items ≡ length nodes.now) }
    ensures far { IfOk result (λ far. AreDistances (may_answer known.now) query.now (walks_of nodes.now) far.items) }
{
    let mut far = Vec::with_capacity(alloc, nodes.len())?;
    for node in nodes {
        let search = Search {
            known,
            query,
            far: &far,
        };
        let distances = search.distances_from(node);
        far.push(distances)?;
    }
    Ok(far)
}

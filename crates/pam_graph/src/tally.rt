//! The number of walks that meet a goal.

ghost use Rattle.std.specs.Prelude.{◌≡◌, ◌||◌, [], IfOk, Some, fold, length};
ghost use Rattle.std.specs.List.{list_any};
ghost use Rattle.pam_graph.specs.Goals.{fit, meeting, meets};
ghost use Rattle.pam_graph.specs.Order.{AreNodes};
ghost use Rattle.pam_graph.specs.inner.Tallies.{count_to, has_walks, met_at_end, met_by, plus, step_by, sum_from, tallies_of, tally_by};
ghost use Rattle.pam_graph.specs.Walks.{walks};
ghost use Rattle.pam_graph.specs.inner.Within.{AreWithin, IsWithin};

use crate::goal::Goal;
use crate::graph::Graph;
use crate::node::{Edge, Node, Target};
use pam_codes::Code;
use std::alloc::{AllocError, Global};

/// The numbers of the walks from a node on: of all, and of those that meet the goal. `None` is a number that does not fit.
#[derive(Clone, Copy, Debug)]
pub(crate) struct Tally {
    pub(crate) all: Option<u128>,
    pub(crate) met: Option<u128>,
}

/// The sum of two numbers, if both are known and it fits.
pub(crate) fn plus(one: Option<u128>, other: Option<u128>) -> Option<u128>
    ensures { result ≡ plus one other }
{
    match one {
        Some(a) => match other {
            Some(b) => a.checked_add(b),
            None => None,
        },
        None => None,
    }
}

/// The sum of some numbers, if all are known and it fits.
pub(crate) fn sum_of(numbers: &[Option<u128>]) -> Option<u128>
    ensures { result ≡ fold plus (Some 0) numbers.now }
{
    let mut sum = Some(0);
    for number in numbers {
        sum = plus(sum, *number);
    }
    sum
}

/// Whether the goal is met by a step along `edge`, from a node of the module with this number.
fn met_by(goal: &Goal, module_number: usize, edge: &Edge) -> bool
    ensures { result ≡ met_by goal.now (step_by module_number edge.now) }
{
    match goal {
        Goal::Any => false,
        Goal::Decides(_) => false,
        Goal::Asks(wanted) => module_number == *wanted,
        Goal::PastEnd(past_ends) => past_ends.have_one(module_number, edge.class),
    }
}

/// Whether the goal is met after that step, if it was met before where `is_met`.
pub(crate) fn met_after(goal: &Goal, is_met: bool, module_number: usize, edge: &Edge) -> bool
    ensures { result ≡ (is_met || met_by goal.now (step_by module_number edge.now)) }
{
    is_met || met_by(goal, module_number, edge)
}

/// Whether it is met at the end of a run with this decision, if it was not met before.
fn met_at_end(goal: &Goal, decision: Code) -> bool
    ensures { result ≡ met_at_end goal.now decision }
{
    match goal {
        Goal::Any => true,
        Goal::Decides(codes) => codes.contains(decision),
        Goal::Asks(_) => false,
        Goal::PastEnd(_) => false,
    }
}

/// The number of the wanted walks from `target` on.
pub(crate) fn count_to(
    goal: &Goal,
    is_met: bool,
    tallies: &[Tally],
    target: &Target,
) -> Option<u128>
    requires { IsWithin (length tallies.now) target.now }
    ensures { result ≡ count_to goal.now is_met tallies.now target.now }
{
    match target {
        Target::At(index) => if is_met {
            tallies[*index as usize].all
        } else {
            tallies[*index as usize].met
        },
        Target::End(decision) => if is_met || met_at_end(goal, *decision) {
            Some(1)
        } else {
            Some(0)
        },
    }
}

/// Whether there are walks, from their number.
pub(crate) fn has_walks(number: Option<u128>) -> bool
    ensures { result ≡ has_walks number }
{
    match number {
        Some(count) => count > 0,
        None => true,
    }
}

/// The number of the wanted walks that begin with one of `edges`, of a node of the module with this number.
fn count_by(
    goal: &Goal,
    is_met: bool,
    number: usize,
    tallies: &[Tally],
    edges: &[Edge],
) -> Option<u128>
    requires { AreWithin (length tallies.now) edges.now }
    ensures { result ≡ sum_from goal.now is_met number tallies.now (Some 0) edges.now }
{
    let mut count = Some(0);
    for edge in edges {
        let is_met_after = met_after(goal, is_met, number, edge);
        count = plus(count, count_to(goal, is_met_after, tallies, &edge.target));
    }
    count
}

/// The numbers of the walks from `node` on.
fn tally_by(goal: &Goal, tallies: &[Tally], node: &Node) -> Tally
    requires { AreWithin (length tallies.now) node.now.edges.items }
    ensures { result ≡ tally_by goal.now tallies.now node.now }
{
    let number = node.module_number;
    Tally {
        all: count_by(goal, true, number, tallies, &node.edges),
        met: count_by(goal, false, number, tallies, &node.edges),
    }
}

/// The numbers of the walks from each node on.
pub(crate) fn tallies(alloc: Global, goal: &Goal, nodes: &[Node]) -> Result<Vec<Tally>, AllocError>
    requires { AreNodes [] nodes.now }
    ensures { IfOk result (λ tallies. tallies.items ≡ tallies_of goal.now nodes.now) }
{
    let mut tallies = Vec::new(alloc);
    for node in nodes {
        let tally = tally_by(goal, &tallies, node);
        tallies.push(tally)?;
    }
    Ok(tallies)
}

impl Graph {
    /// The number of walks that meet `goal`; `None` if it is 2^128 or more.
    pub fn count(&self, alloc: Global, goal: &Goal) -> Result<Option<u128>, AllocError>
        ensures { IfOk result (λ count. count ≡ fit (length (meeting goal.now (walks self.now)))) }
    {
        let tallies = tallies(alloc, goal, &self.nodes)?;
        Ok(count_to(goal, false, &tallies, &self.start))
    }

    /// Whether a walk meets `goal`.
    pub fn is_met(&self, alloc: Global, goal: &Goal) -> Result<bool, AllocError>
        ensures { IfOk result (λ is. is ≡ list_any (meets goal.now) (walks self.now)) }
    {
        Ok(has_walks(self.count(alloc, goal)?))
    }
}

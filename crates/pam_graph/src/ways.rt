//! The number of walks that come to each decision, counted from the start on: in how many ways runs come to each node.

ghost use Rattle.std.specs.Prelude.{◌≡◌, ◌*◌, ◌+◌, [], Bool, IfOk, List, Some, ℕ, length, replicate};
ghost use Rattle.std.specs.List.{flat_map};
ghost use Rattle.pam_codes.specs.declared.code.TheConstants.{CODES};
ghost use Rattle.pam_graph.specs.Goals.{fit};
ghost use Rattle.pam_graph.specs.Order.{AreNodes, IsStart};
ghost use Rattle.pam_graph.specs.Walks.{walks_by, walks_of, walks_to};
ghost use Rattle.pam_graph.specs.inner.Accounts.{Accounts, AreCounts, deciders};
ghost use Rattle.pam_graph.specs.inner.Within.{AreWithin, IsWithin};
ghost use Rattle.pam_paths.specs.Paths.{PathValue};

use crate::node::{Edge, Node, Target};
use crate::tally::plus;
use pam_codes::CODES;
use std::alloc::{AllocError, Global};

/// Adds `number` to the ways to `target`.
fn come_to(
    number: Option<u128>,
    target: &Target,
    ends: &mut Vec<Option<u128>>,
    ways: &mut Vec<Option<u128>>,
)
    requires few { length ends.old.items ≡ CODES }
    requires within { IsWithin (length ways.old.items) target.now }
    ensures few { length ends.new.items ≡ CODES }
    ensures long { length ways.new.items ≡ length ways.old.items }
    ensures accounts { (all : List PathValue) (known : List (List PathValue)) (n : ℕ) (left : (ℕ → Bool) → ℕ) → number ≡ fit n
        → Accounts all known ends.old.items ways.old.items (λ test. n * deciders test (walks_to known target.now) + left test)
        → Accounts all known ends.new.items ways.new.items left }
{
    match target {
        Target::At(index) => {
            let index = *index as usize;
            let sum = plus(ways[index], number);
            ways[index] = sum;
        }
        Target::End(decision) => {
            let index = usize::from(decision.number());
            let sum = plus(ends[index], number);
            ends[index] = sum;
        }
    }
}

/// Adds `number` to the ways to the target of each edge.
fn go_on_by(
    number: Option<u128>,
    edges: &[Edge],
    ends: &mut Vec<Option<u128>>,
    ways: &mut Vec<Option<u128>>,
)
    requires few { length ends.old.items ≡ CODES }
    requires within { AreWithin (length ways.old.items) edges.now }
    ensures few { length ends.new.items ≡ CODES }
    ensures long { length ways.new.items ≡ length ways.old.items }
    ensures accounts { (all : List PathValue) (known : List (List PathValue)) (n m : ℕ) → number ≡ fit n
        → Accounts all known ends.old.items ways.old.items (λ test. n * deciders test (flat_map (walks_by known m) edges.now))
        → Accounts all known ends.new.items ways.new.items (λ test. 0) }
{
    for edge in edges {
        come_to(number, &edge.target, ends, ways);
    }
}

/// A table of `count` numbers, which are 0.
fn no_ways(alloc: Global, count: usize) -> Result<Vec<Option<u128>>, AllocError>
    ensures { IfOk result (λ table. table.items ≡ replicate count (Some 0)) }
{
    let mut table = Vec::with_capacity(alloc, count)?;
    for index in 0..count {
        table.push(Some(0))?;
    }
    Ok(table)
}

/// The numbers of the walks that decide each code.
pub(crate) fn counts_of(
    alloc: Global,
    nodes: &[Node],
    start: &Target,
) -> Result<Vec<Option<u128>>, AllocError>
    requires order { AreNodes [] nodes.now }
    requires start { IsStart nodes.now start.now }
    ensures { IfOk result (λ counts. AreCounts counts.items (walks_to (walks_of nodes.now) start.now)) }
{
    let mut ends = no_ways(alloc, CODES)?;
    let mut ways = no_ways(alloc, nodes.len())?;
    come_to(Some(1), start, &mut ends, &mut ways);
    while let Some(number) = ways.pop() {
        let node = &nodes[ways.len()];
        go_on_by(number, &node.edges, &mut ends, &mut ways);
    }
    Ok(ends)
}

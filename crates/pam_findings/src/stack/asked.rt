//! Which modules are asked.

ghost use Rattle.std.specs.Prelude.{◌≡◌, ℕ, ◌≤◌, [], IfErr, IfOk, filter, not};
ghost use Rattle.std.specs.List.{range_with_len};
ghost use Rattle.pam_conf.specs.declared.stack.TheConstants.{MAX_MODULES};
ghost use Rattle.pam_conf.specs.Stack.{Items, module_count};
ghost use Rattle.pam_graph.specs.declared.graph.TheConstants.{MAX_NODES};
ghost use Rattle.pam_graph.specs.Order.{AreNodes};
ghost use Rattle.pam_graph.specs.Reached.{IsReason};
ghost use Rattle.pam_graph.specs.Walks.{walks};
ghost use Rattle.pam_paths.specs.Known.{may_answer};
ghost use Rattle.pam_paths.specs.Listing.{IsListing};
ghost use Rattle.pam_paths.specs.Paths.{path_through};
ghost use Rattle.pam_findings.specs.stack.inner.Counting.{AreCounting};
ghost use Rattle.pam_findings.specs.stack.inner.Marks.{AreMarks, IsProgramOf, has_number, mark_of};
ghost use Rattle.pam_findings.specs.stack.Soundness.{SaysNobody};

use crate::stack::counting::counting;
use crate::stack::marks::{Marks, is_marked, mark};
use crate::stack::way_in::success;
use pam_dispatch::{MAX_MODULES, Program};
use pam_graph::{Graph, GraphError, Node};
use pam_paths::Known;
use std::alloc::{AllocError, Global};

/// What the runs of a stack come to.
#[derive(Drop)]
pub(crate) struct Reached {
    /// The graph of the runs.
    pub(crate) graph: Graph,
    /// Whether no run decides success.
    pub(crate) lets_nobody_in: bool,
    /// The modules that some run asks.
    pub(crate) asked: Marks,
    /// The modules whose success counts, of those that may answer it.
    pub(crate) counting: Marks,
}

/// Marks the modules that the nodes of a graph ask.
fn marks_of(nodes: &[Node]) -> Marks
    requires { AreNodes [] nodes.now }
    ensures { (n : ℕ) → 1 ≤ n → mark_of result n ≡ has_number n nodes.now }
{
    let mut marks = [false; MAX_MODULES];
    for node in nodes {
        mark(&mut marks, node.module_number);
    }
    marks
}

impl Reached {
    /// What the runs that a knowledge allows come to.
    pub(crate) fn of(alloc: Global, program: &Program, known: &Known) -> Result<Reached, GraphError>
        ensures nobody { (items : Items) → IsProgramOf program.now items → IfOk result (λ r. SaysNobody (may_answer known.now) items r.lets_nobody_in) }
        ensures asked { (items : Items) → IsProgramOf program.now items → IfOk result (λ r. AreMarks (may_answer known.now) items r.asked) }
        ensures counting { (items : Items) → IsProgramOf program.now items → IfOk result (λ r. AreCounting (may_answer known.now) items r.counting) }
        ensures graph { (items : Items) → IsProgramOf program.now items →
            IfOk result (λ r. IsListing (may_answer known.now) (module_count items) (path_through items) (walks r.graph)) }
        ensures reason { IfErr result (IsReason MAX_NODES (may_answer known.now) program.now) }
    {
        // A program says with the number of its modules that they are asked in order.
        let _modules = program.modules();
        let graph = Graph::of(alloc, program, known)?;
        let lets_in = graph.is_met(alloc, &success())?;
        let asked = marks_of(graph.nodes());
        let counting = counting(alloc, &graph)?;
        Ok(Reached {
            graph,
            lets_nobody_in: !lets_in,
            asked,
            counting,
        })
    }
}

/// The numbers of the modules that are not marked, of the modules 1 to `modules`, rising.
pub(crate) fn unmarked(
    alloc: Global,
    marks: &Marks,
    modules: usize,
) -> Result<Vec<usize>, AllocError>
    requires { modules ≤ MAX_MODULES }
    ensures { IfOk result (λ numbers. numbers.items ≡ filter (λ number. not (mark_of marks.now number)) (range_with_len 1 modules)) }
{
    let mut numbers = Vec::new(alloc);
    for index in 0..modules {
        let number = index + 1;
        if !is_marked(marks, number) {
            numbers.push(number)?;
        }
    }
    Ok(numbers)
}

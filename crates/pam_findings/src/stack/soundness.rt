//! What a stack does to everybody.

ghost use Rattle.std.specs.Prelude.{IfErr, IfOk};
ghost use Rattle.pam_conf.specs.Stack.{module_count};
ghost use Rattle.pam_graph.specs.Walks.{walks};
ghost use Rattle.pam_paths.specs.Known.{may_answer};
ghost use Rattle.pam_paths.specs.Listing.{IsListing};
ghost use Rattle.pam_paths.specs.Paths.{path_through};
ghost use Rattle.pam_findings.specs.stack.Asked.{AreExactly, IsNeverAsked, JumpsPastEnd};
ghost use Rattle.pam_findings.specs.stack.Counting.{NeverCounts};
ghost use Rattle.pam_findings.specs.stack.inner.Counting.{AreCounting};
ghost use Rattle.pam_findings.specs.stack.inner.Marks.{AreMarks};
ghost use Rattle.pam_findings.specs.stack.Soundness.{IsReasonFor, SaysNobody, SaysWayIn};

use crate::stack::asked::{Reached, unmarked};
use crate::stack::counting::never_counting;
use crate::stack::past_end::passing;
use crate::stack::way_in::first_way_in;
use pam_conf::Stack;
use pam_dispatch::Program;
use pam_graph::{Graph, GraphError};
use pam_paths::{Known, Path};
use std::alloc::Global;

/// What a stack does to everybody, whatever its modules answer.
#[derive(Drop)]
pub struct Soundness {
    /// The graph of its runs.
    pub graph: Graph,
    /// Whether it never decides success.
    pub lets_nobody_in: bool,
    /// The first path that decides success although the modules that check who logs in fail.
    pub lets_anybody_in: Option<Path>,
    /// The numbers of the modules that are never asked, rising.
    pub never_asked: Vec<usize>,
    /// The numbers of the modules that can jump past the end of their list, rising.
    pub jumps_past_end: Vec<usize>,
    /// The numbers of the modules that may succeed, but in no run that decides success, rising.
    pub never_counts: Vec<usize>,
}

/// What the graphs of a stack's runs tell of it.
#[derive(Drop)]
struct Searched {
    reached: Reached,
    lets_anybody_in: Option<Path>,
}

impl Searched {
    fn of(
        alloc: Global,
        stack: &Stack,
        free: &Known,
        failing: &Known,
    ) -> Result<Searched, GraphError>
        ensures nobody { IfOk result (λ t. SaysNobody (may_answer free.now) stack.now t.reached.lets_nobody_in) }
        ensures anybody { IfOk result (λ t. SaysWayIn (may_answer failing.now) stack.now t.lets_anybody_in) }
        ensures asked { IfOk result (λ t. AreMarks (may_answer free.now) stack.now t.reached.asked) }
        ensures counting { IfOk result (λ t. AreCounting (may_answer free.now) stack.now t.reached.counting) }
        ensures graph { IfOk result (λ t. IsListing (may_answer free.now) (module_count stack.now) (path_through stack.now) (walks t.reached.graph)) }
        ensures reason { IfErr result (IsReasonFor (may_answer free.now) (may_answer failing.now) stack.now) }
    {
        let program = Program::of(alloc, stack)?;
        let reached = Reached::of(alloc, &program, free)?;
        let lets_anybody_in = first_way_in(alloc, &program, failing)?;
        Ok(Searched {
            reached,
            lets_anybody_in,
        })
    }
}

impl Soundness {
    /// What a stack does to everybody whose modules answer what `free` allows, and to everybody whose checks fail, where they
    /// answer what `failing` allows. Returns `TooManyNodes` if its runs come to more places than `pam_graph::MAX_NODES`, and
    /// `Memory` if allocation fails.
    pub fn of(
        alloc: Global,
        stack: &Stack,
        free: &Known,
        failing: &Known,
    ) -> Result<Soundness, GraphError>
        ensures nobody { IfOk result (λ s. SaysNobody (may_answer free.now) stack.now s.lets_nobody_in) }
        ensures anybody { IfOk result (λ s. SaysWayIn (may_answer failing.now) stack.now s.lets_anybody_in) }
        ensures never_asked { IfOk result (λ s. AreExactly (IsNeverAsked (may_answer free.now) stack.now) s.never_asked.items) }
        ensures jumps { IfOk result (λ s. AreExactly (JumpsPastEnd (may_answer free.now) stack.now) s.jumps_past_end.items) }
        ensures never_counts { IfOk result (λ s. AreExactly (NeverCounts (may_answer free.now) stack.now) s.never_counts.items) }
        ensures graph { IfOk result (λ s. IsListing (may_answer free.now) (module_count stack.now) (path_through stack.now) (walks s.graph)) }
        ensures reason { IfErr result (IsReasonFor (may_answer free.now) (may_answer failing.now) stack.now) }
    {
        let searched = Searched::of(alloc, stack, free, failing)?;
        let never_asked = unmarked(alloc, &searched.reached.asked, stack.modules())?;
        let jumps_past_end = passing(alloc, stack, free, &searched.reached.asked)?;
        let never_counts = never_counting(
            alloc,
            stack,
            free,
            &searched.reached.asked,
            &searched.reached.counting,
        )?;
        Ok(Soundness {
            graph: searched.reached.graph,
            lets_nobody_in: searched.reached.lets_nobody_in,
            lets_anybody_in: searched.lets_anybody_in,
            never_asked,
            jumps_past_end,
            never_counts,
        })
    }
}

//! The `outcomes` command: in how many ways a stack comes to each decision, and the first of them.

ghost use Rattle.std.specs.Prelude.{◌≡◌, ◌++◌, ◌<◌, IfOk, OnOk, map};
ghost use Rattle.pam_codes.specs.declared.code.TheConstants.{CODES};
ghost use Rattle.pam_graph.specs.Walks.{walks};
ghost use Rattle.pam_paths.specs.Known.{may_answer};
ghost use Rattle.pam_report.specs.Finds.{Finds};
ghost use Rattle.pam_report.specs.inner.Known.{FindsOf, WantsForRuns, stack_from};
ghost use Rattle.pam_report.specs.inner.Memory.{WantsWork};
ghost use Rattle.pam_report.specs.inner.OutcomeViews.{AreOutcomes, FindsOutcomes, as_list};
ghost use Rattle.pam_report.specs.Outcomes.{IsOutcomes, IsOutcomesOf, outcome_among};
ghost use Rattle.pam_report.specs.ReplyViews.{outcome_view};
ghost use Rattle.pam_report.specs.Services.{IfServices, has_service};

use super::known_stack::{KnownStack, Sources, StackRequest, known_stack};
use super::replies::Reply;
use crate::fault::Fault;
use crate::services::require;
use pam_codes::{CODES, Code};
use pam_conf::{Kind, Stack};
use pam_dispatch::Program;
use pam_graph::{Decisions, Graph, GraphError};
use pam_paths::{Known, Path};
use std::alloc::{AllocError, Global};

/// A decision, the number of paths that end in it, and the first of these. A number of 2^128 or more is `None`.
#[derive(Drop)]
pub struct Outcome {
    pub decision: Code,
    pub count: Option<u128>,
    pub first: Path,
}

/// The decisions that a stack can come to, in the order of codes, and the number of all its paths.
#[derive(Drop)]
pub struct Outcomes {
    pub found: Vec<Outcome>,
    pub total: Option<u128>,
}

/// The outcomes of the stack of a service.
#[derive(Drop)]
pub struct OutcomesReply<'a> {
    pub service: &'a str,
    pub kind: Kind,
    pub stack: Stack,
    pub outcomes: Outcomes,
}

/// Returns the outcome of the walks that end in a decision, if there are any.
fn outcome_of(decisions: &Decisions<'_>, decision: Code) -> Option<Outcome>
    ensures { as_list outcome_view result ≡ outcome_among decisions.now decision }
{
    let Some(first) = decisions.first(decision) else {
        return None;
    };
    let count = decisions.count(decision);
    Some(Outcome {
        decision,
        count,
        first,
    })
}

/// Adds the outcome of the walks that end in a decision, if there are any.
fn push_outcome(
    decisions: &Decisions<'_>,
    decision: Code,
    found: &mut Vec<Outcome>,
) -> Result<(), AllocError>
    ensures { OnOk result (map outcome_view found.new.items ≡ map outcome_view found.old.items ++ outcome_among decisions.now decision) }
{
    if let Some(outcome) = outcome_of(decisions, decision) {
        found.push(outcome)?;
    }
    Ok(())
}

/// Returns the code of this number.
fn code_numbered(number: usize) -> Code
    requires { number < CODES }
    ensures { result ≡ number }
{
    Code::new(number as u8).unwrap()
}

/// Returns the outcomes of the walks of a graph.
fn outcomes_of(alloc: Global, graph: &Graph) -> Result<Outcomes, AllocError>
    ensures { IfOk result (λ o. AreOutcomes o (walks graph.now)) }
{
    let decisions = graph.decisions(alloc)?;
    let mut found = Vec::new(alloc);
    for number in 0..CODES {
        push_outcome(&decisions, code_numbered(number), &mut found)?;
    }
    let total = decisions.total();
    Ok(Outcomes { found, total })
}

/// Returns the outcomes of a stack, if its modules return the codes that are known. Returns `TooManyStates` if the graph of
/// the run would have too many nodes.
fn stack_outcomes(alloc: Global, stack: &Stack, known: &Known) -> Result<Outcomes, Fault>
    ensures { FindsOutcomes (may_answer known.now) stack.now result }
{
    let program = match Program::of(alloc, stack) {
        Ok(program) => program,
        Err(_) => return Err(Fault::Memory),
    };
    let graph = match Graph::of(alloc, &program, known) {
        Ok(graph) => graph,
        Err(GraphError::Memory) => return Err(Fault::Memory),
        Err(GraphError::TooManyNodes) => return Err(Fault::TooManyStates),
    };
    match outcomes_of(alloc, &graph) {
        Ok(outcomes) => Ok(outcomes),
        Err(_) => Err(Fault::Memory),
    }
}

/// Returns the reply of `outcomes` for a known stack.
fn answer_known<'a>(
    alloc: Global,
    request: &StackRequest<'a>,
    found: KnownStack,
) -> Result<Reply<'a>, Fault>
    ensures answer { FindsOf (IsOutcomesOf request.now.service.now request.now.kind) found result }
    ensures wants { WantsWork result }
{
    match stack_outcomes(alloc, &found.stack, &found.known) {
        Ok(outcomes) => Ok(Reply::Outcomes(OutcomesReply {
            service: request.service,
            kind: request.kind,
            stack: found.stack,
            outcomes,
        })),
        Err(fault) => Err(fault),
    }
}

/// Returns the outcomes of the stack that is asked for.
fn answer_service<'a>(
    sources: &Sources<'_, '_>,
    request: &StackRequest<'a>,
) -> Result<Reply<'a>, Fault>
    ensures answer { Finds result (IsOutcomes request.now.service.now request.now.kind (stack_from sources.now request.now)) }
    ensures wants { WantsForRuns sources.now result }
{
    match known_stack(sources, request) {
        Ok(found) => answer_known(sources.alloc, request, found),
        Err(fault) => Err(fault),
    }
}

/// Returns the outcomes of the stack that is asked for, whose service has to be one of the configuration.
// Not inlined, so that a command uses no stack for the values of the others.
#[inline(never)]
pub(super) fn answer_outcomes<'a>(
    sources: &Sources<'_, '_>,
    request: &StackRequest<'a>,
) -> Result<Reply<'a>, Fault>
    ensures answer { Finds result (IfServices (has_service sources.now.files.now request.now.service.now)
        (IsOutcomes request.now.service.now request.now.kind (stack_from sources.now request.now))) }
    ensures wants { WantsForRuns sources.now result }
{
    match require(sources.alloc, sources.files, request.service) {
        Ok(()) => answer_service(sources, request),
        Err(fault) => Err(fault),
    }
}

//! The `graph` command: the graph of all runs of a stack.

ghost use Rattle.std.specs.Prelude.{◌≡◌};
ghost use Rattle.pam_paths.specs.Known.{may_answer};
ghost use Rattle.pam_report.specs.Finds.{Finds};
ghost use Rattle.pam_report.specs.Graph.{IsGraphReply, IsGraphReplyOf, has_too_many};
ghost use Rattle.pam_report.specs.inner.GraphViews.{FindsGraph};
ghost use Rattle.pam_report.specs.inner.Known.{FindsOf, WantsForRuns, stack_from};
ghost use Rattle.pam_report.specs.inner.Memory.{WantsWork};
ghost use Rattle.pam_report.specs.Services.{IfServices, has_service};

use super::known_stack::{KnownStack, Sources, StackRequest, known_stack};
use super::replies::Reply;
use crate::fault::Fault;
use crate::services::require;
use pam_conf::{Kind, Stack};
use pam_dispatch::Program;
use pam_graph::{Graph, GraphError};
use pam_paths::Known;
use pam_words::GraphFormat;
use std::alloc::Global;

/// The graph of all runs of the stack of a service, and the language in which it is to be drawn.
#[derive(Drop)]
pub struct GraphReply<'a> {
    pub service: &'a str,
    pub kind: Kind,
    pub stack: Stack,
    pub format: GraphFormat,
    pub graph: Graph,
}

/// A stack that is to be drawn, and in which language.
#[derive(Clone, Copy)]
pub(super) struct DrawingRequest<'a> {
    pub stack: StackRequest<'a>,
    pub format: GraphFormat,
}

/// The most nodes of a graph that is drawn as a picture.
pub const MAX_PICTURE_NODES: usize = 400;

/// Whether a graph has too many nodes to be drawn in a format.
fn is_too_large(format: GraphFormat, graph: &Graph) -> bool
    ensures { result ≡ has_too_many format graph.now }
{
    match format {
        GraphFormat::Dot | GraphFormat::Mermaid => false,
        GraphFormat::Svg => graph.nodes().len() > MAX_PICTURE_NODES,
    }
}

/// Returns the graph of the runs of a stack, if its modules return the codes that are known. Returns `TooManyStates` if it
/// would have too many nodes.
fn graph_of(alloc: Global, stack: &Stack, known: &Known) -> Result<Graph, Fault>
    ensures { FindsGraph (may_answer known.now) stack.now result }
{
    let program = match Program::of(alloc, stack) {
        Ok(program) => program,
        Err(_) => return Err(Fault::Memory),
    };
    match Graph::of(alloc, &program, known) {
        Ok(graph) => Ok(graph),
        Err(GraphError::Memory) => Err(Fault::Memory),
        Err(GraphError::TooManyNodes) => Err(Fault::TooManyStates),
    }
}

/// Returns the reply of `graph` for a known stack, unless its graph is too large to be drawn in the format.
fn answer_known<'a>(
    alloc: Global,
    request: &DrawingRequest<'a>,
    found: KnownStack,
) -> Result<Reply<'a>, Fault>
    ensures answer { FindsOf (IsGraphReplyOf request.now.format request.now.stack.service.now request.now.stack.kind) found result }
    ensures wants { WantsWork result }
{
    let graph = match graph_of(alloc, &found.stack, &found.known) {
        Ok(graph) => graph,
        Err(fault) => return Err(fault),
    };
    if is_too_large(request.format, &graph) {
        return Err(Fault::TooManyStates);
    }
    Ok(Reply::Graph(GraphReply {
        service: request.stack.service,
        kind: request.stack.kind,
        stack: found.stack,
        format: request.format,
        graph,
    }))
}

/// Returns the graph of the stack that is asked for.
fn answer_service<'a>(
    sources: &Sources<'_, '_>,
    request: &DrawingRequest<'a>,
) -> Result<Reply<'a>, Fault>
    ensures answer { let asked = request.now.stack in
        Finds result (IsGraphReply request.now.format asked.service.now asked.kind (stack_from sources.now asked)) }
    ensures wants { WantsForRuns sources.now result }
{
    match known_stack(sources, &request.stack) {
        Ok(found) => answer_known(sources.alloc, request, found),
        Err(fault) => Err(fault),
    }
}

/// Returns the graph of the stack that is asked for, whose service has to be one of the configuration.
// Not inlined, so that a command uses no stack for the values of the others.
#[inline(never)]
pub(super) fn answer_graph<'a>(
    sources: &Sources<'_, '_>,
    request: &DrawingRequest<'a>,
) -> Result<Reply<'a>, Fault>
    ensures answer { let asked = request.now.stack in
        Finds result (IfServices (has_service sources.now.files.now asked.service.now)
        (IsGraphReply request.now.format asked.service.now asked.kind (stack_from sources.now asked))) }
    ensures wants { WantsForRuns sources.now result }
{
    match require(sources.alloc, sources.files, request.stack.service) {
        Ok(()) => answer_service(sources, request),
        Err(fault) => Err(fault),
    }
}

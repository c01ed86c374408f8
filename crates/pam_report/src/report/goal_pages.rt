//! Pages of the paths that meet a goal: the walks of the graph of the runs that do.

ghost use Rattle.std.specs.Prelude.{IfErr, IfOk, codes, nat_lt};
ghost use Rattle.pam_conf.specs.Stack.{Items, module_count};
ghost use Rattle.pam_dispatch.specs.Flat.{modules_of};
ghost use Rattle.pam_graph.specs.Goals.{meeting};
ghost use Rattle.pam_graph.specs.Walks.{walks as walks_of};
ghost use Rattle.pam_paths.specs.Known.{may_answer};
ghost use Rattle.pam_paths.specs.Listing.{IsListingAfter, IsListingBefore};
ghost use Rattle.pam_paths.specs.Pages.{after, before};
ghost use Rattle.pam_paths.specs.Paths.{path_through};
ghost use Rattle.pam_report.specs.inner.Known.{FindsOf};
ghost use Rattle.pam_report.specs.inner.Memory.{WantsWork};
ghost use Rattle.pam_report.specs.PageView.{Renders};
ghost use Rattle.pam_report.specs.inner.PageView.{IsRefused, IsSide, ListsPaths, ListsWalks, page_view};
ghost use Rattle.pam_report.specs.Paths.{IsAskingPage, IsMeetingPage, IsProgramOf};
ghost use Rattle.pam_words.specs.declared.wanted.PagePart.TheVariants.{After, Before, Whole};

use super::known_stack::KnownStack;
use super::paths::{PageRequest, Paging, page_by};
use super::renderer::PageRenderer;
use super::replies::Reply;
use crate::fault::Fault;
use pam_dispatch::Program;
use pam_graph::{Goal, Graph, GraphError};
use pam_page::Listing;
use pam_paths::{Cursor, Explorer};
use pam_words::PagePart;
use std::alloc::Global;

/// The graph of the runs of a stack, and the goal that its walks are to meet.
#[derive(Drop)]
pub(super) struct GoalGraph {
    pub goal: Goal,
    pub graph: Graph,
}

/// The walks that meet a goal, and what renders a page of them.
#[derive(Drop)]
struct WalksPage<'a, R> {
    alloc: Global,
    walks: &'a GoalGraph,
    renderer: &'a R,
}

/// Returns the cursor that a text names, if a path of the stack has it.
// Never inlined, as the next one: the explorer, which only judges the cursor, is gone before walks are made.
#[inline(never)]
fn cursor_after(paging: &Paging<'_>, text: &str) -> Result<Cursor, Fault>
    ensures ok { IfOk result (λ cursor. (items : Items) → IsProgramOf paging.now.program.now items
        → let allows = may_answer paging.now.known.now in
        IsSide (IsListingAfter allows (modules_of paging.now.program.now) (path_through items)) allows items (After text.entry) cursor) }
    ensures err { IfErr result (λ fault. IsRefused paging.now (After text.entry) fault) }
{
    let cursor = match Cursor::read(text.as_bytes()) {
        Ok(cursor) => cursor,
        Err(error) => return Err(Fault::Cursor(error)),
    };
    match Explorer::after(paging.program, paging.known, &cursor) {
        Ok(_) => Ok(cursor),
        Err(error) => Err(Fault::Cursor(error)),
    }
}

/// The same, of the paths before it.
#[inline(never)]
fn cursor_before(paging: &Paging<'_>, text: &str) -> Result<Cursor, Fault>
    ensures ok { IfOk result (λ cursor. (items : Items) → IsProgramOf paging.now.program.now items
        → let allows = may_answer paging.now.known.now in
        IsSide (IsListingBefore allows (modules_of paging.now.program.now) (path_through items)) allows items (Before text.entry) cursor) }
    ensures err { IfErr result (λ fault. IsRefused paging.now (Before text.entry) fault) }
{
    let cursor = match Cursor::read(text.as_bytes()) {
        Ok(cursor) => cursor,
        Err(error) => return Err(Fault::Cursor(error)),
    };
    match Explorer::before(paging.program, paging.known, &cursor) {
        Ok(_) => Ok(cursor),
        Err(error) => Err(Fault::Cursor(error)),
    }
}

/// Renders the walks that meet a goal.
#[inline(never)]
fn render_all_walks<T, R: PageRenderer<T>>(
    page: &WalksPage<'_, R>,
    target: &mut T,
) -> Result<(), Fault>
    ensures { let graph = page.now.walks.now in Renders (R.renders page.now.renderer.now) target.old target.new result
        (ListsPaths (meeting graph.goal (walks_of graph.graph)) (codes "after")) }
{
    match page.walks.graph.walks(page.alloc, page.walks.goal) {
        Ok(walks) => page
            .renderer
            .render(&mut Listing::WalksForward(walks), target),
        Err(_) => Err(Fault::Memory),
    }
}

/// Renders the walks after a cursor that meet a goal.
#[inline(never)]
fn render_walks_after<T, R: PageRenderer<T>>(
    page: &WalksPage<'_, R>,
    cursor: &Cursor,
    target: &mut T,
) -> Result<(), Fault>
    ensures { let graph = page.now.walks.now in Renders (R.renders page.now.renderer.now) target.old target.new result
        (ListsPaths (meeting graph.goal (after cursor.now (walks_of graph.graph))) (codes "after")) }
{
    match page
        .walks
        .graph
        .walks_after(page.alloc, page.walks.goal, cursor)
    {
        Ok(walks) => page
            .renderer
            .render(&mut Listing::WalksForward(walks), target),
        Err(_) => Err(Fault::Memory),
    }
}

/// Renders the walks before a cursor that meet a goal, the last one first.
#[inline(never)]
fn render_walks_before<T, R: PageRenderer<T>>(
    page: &WalksPage<'_, R>,
    cursor: &Cursor,
    target: &mut T,
) -> Result<(), Fault>
    ensures { let graph = page.now.walks.now in Renders (R.renders page.now.renderer.now) target.old target.new result
        (ListsPaths (meeting graph.goal (before cursor.now (walks_of graph.graph))) (codes "before")) }
{
    match page
        .walks
        .graph
        .walks_before(page.alloc, page.walks.goal, cursor)
    {
        Ok(walks) => page
            .renderer
            .render(&mut Listing::WalksBackward(walks), target),
        Err(_) => Err(Fault::Memory),
    }
}

/// Renders the walks of a part that meet a goal.
pub(super) fn render_walks<T, R: PageRenderer<T>>(
    paging: &Paging<'_>,
    walks: &GoalGraph,
    part: PagePart<'_>,
    renderer: &R,
    target: &mut T,
) -> Result<(), Fault>
    ensures { Renders (R.renders renderer.now) target.old target.new result
        (ListsWalks paging.now walks.now.graph walks.now.goal part.entry) }
{
    let page = WalksPage {
        alloc: paging.alloc,
        walks,
        renderer,
    };
    match part {
        PagePart::Whole => render_all_walks(&page, target),
        PagePart::After(text) => match cursor_after(paging, text) {
            Ok(cursor) => render_walks_after(&page, &cursor, target),
            Err(fault) => Err(fault),
        },
        PagePart::Before(text) => match cursor_before(paging, text) {
            Ok(cursor) => render_walks_before(&page, &cursor, target),
            Err(fault) => Err(fault),
        },
    }
}

/// Returns the reply with a page of the paths that meet a goal.
pub(super) fn answer_goal<'a>(
    alloc: Global,
    request: &PageRequest<'a>,
    found: KnownStack,
    program: Program,
    goal: Goal,
) -> Result<Reply<'a>, Fault>
    requires { IsProgramOf program found.stack }
    ensures answer { FindsOf (IsMeetingPage goal (page_view request.now)) found result }
    ensures wants { WantsWork result }
{
    match Graph::of(alloc, &program, &found.known) {
        Ok(graph) => Ok(page_by(request, found, program, Some(GoalGraph { goal, graph }))),
        Err(GraphError::Memory) => Err(Fault::Memory),
        Err(GraphError::TooManyNodes) => Err(Fault::TooManyStates),
    }
}

/// Returns the reply with a page of the paths that ask a module.
pub(super) fn answer_asking<'a>(
    alloc: Global,
    request: &PageRequest<'a>,
    found: KnownStack,
    program: Program,
    number: u32,
) -> Result<Reply<'a>, Fault>
    requires { IsProgramOf program found.stack }
    ensures answer { FindsOf (IsAskingPage (nat_lt (module_count found.stack) number) number (page_view request.now)) found result }
    ensures wants { WantsWork result }
{
    let module_number = number as usize;
    if program.modules() < module_number {
        return Err(Fault::NoSuchModule);
    }
    answer_goal(alloc, request, found, program, Goal::Asks(module_number))
}

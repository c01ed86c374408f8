//! The `paths` command: a page of the paths through a stack.

ghost use Rattle.std.specs.Prelude.{◌≡◌, ◌≤◌, max};
ghost use Rattle.pam_paths.specs.Known.{may_answer};
ghost use Rattle.pam_report.specs.Finds.{Finds};
ghost use Rattle.pam_report.specs.inner.Known.{FindsOf, WantsForRuns, stack_from};
ghost use Rattle.pam_report.specs.inner.Memory.{WantsWork};
ghost use Rattle.pam_report.specs.PageView.{FindsPage, Renders, goal_of, graph_of, page_value};
ghost use Rattle.pam_report.specs.inner.PageView.{ListsPart, page_view};
ghost use Rattle.pam_report.specs.Paths.{IsPage, IsPageOf, IsProgramOf, page_of};
ghost use Rattle.pam_report.specs.Reply.{Page};
ghost use Rattle.pam_report.specs.ReplyViews.{reply_view};
ghost use Rattle.pam_words.specs.declared.wanted.PagePart.TheVariants.{After, Before, Whole};

use super::goal_pages::{GoalGraph, answer_asking, answer_goal, render_walks};
use super::known_stack::{KnownStack, Sources, StackRequest, known_stack};
use super::renderer::PageRenderer;
use super::replies::Reply;
use crate::fault::Fault;
use pam_conf::{Kind, Stack};
use pam_dispatch::Program;
use pam_graph::Goal;
use pam_page::Listing;
use pam_paths::{Cursor, Explorer, Known};
use pam_words::{PagePart, PathFilter};
use std::alloc::Global;

/// A page that is asked for: the stack, the most paths, the part of the listing, and the filter.
#[derive(Clone, Copy)]
pub(super) struct PageRequest<'a> {
    pub stack: StackRequest<'a>,
    pub limit: u32,
    pub part: PagePart<'a>,
    pub filter: PathFilter,
}

/// What the paths of a page are explored by.
#[derive(Clone, Copy)]
pub(super) struct Paging<'a> {
    pub alloc: Global,
    pub program: &'a Program,
    pub known: &'a Known,
}

/// A page of the paths through a stack, which `render` opens.
#[derive(Drop)]
pub struct PathsPage<'a> {
    service: &'a str,
    kind: Kind,
    limit: u32,
    part: PagePart<'a>,
    found: KnownStack,
    program: Program,
    /// `None` if every path meets the goal.
    walks: Option<GoalGraph>,
}

impl<'a> PathsPage<'a> {
    /// The service, as it was given.
    pub fn service(&self) -> &'a str
        ensures { result.now ≡ (page_value self.now).service }
    {
        self.service
    }

    /// The kind of the stack.
    pub fn kind(&self) -> Kind
        ensures { result ≡ (page_value self.now).kind }
    {
        self.kind
    }

    /// The stack whose paths are listed.
    pub fn stack(&self) -> &Stack
        ensures { result.now ≡ (page_value self.now).items }
    {
        &self.found.stack
    }

    /// Returns the most paths that the page may have. It has room for at least one.
    pub fn limit(&self) -> u32
        ensures most { result ≡ max (page_value self.now).limit 1 }
        ensures some { 1 ≤ result }
    {
        self.limit.max(1)
    }

    /// Opens the listing from which the page is taken, the first of its paths up to the limit, and lets the renderer write it.
    /// Returns `Cursor` if no path of the stack has the cursor, and `Memory` if an allocation of the listing fails; then
    /// nothing is written.
    // The listing, of 31 kB, stays in the frame in which it is opened: to return it takes room for it in each caller too.
    pub fn render<T, R: PageRenderer<T>>(
        &self,
        alloc: Global,
        renderer: &R,
        target: &mut T,
    ) -> Result<(), Fault>
        ensures { Renders (R.renders renderer.now) target.old target.new result (FindsPage (page_value self.now)) }
    {
        let paging = Paging {
            alloc,
            program: &self.program,
            known: &self.found.known,
        };
        match &self.walks {
            None => render_part(&paging, self.part, renderer, target),
            Some(walks) => render_walks(&paging, walks, self.part, renderer, target),
        }
    }
}

/// Renders all paths.
// Not inlined, like the next two, so that the stack holds the explorer of one of them at a time.
#[inline(never)]
fn render_all<T, R: PageRenderer<T>>(
    paging: &Paging<'_>,
    renderer: &R,
    target: &mut T,
) -> Result<(), Fault>
    ensures { Renders (R.renders renderer.now) target.old target.new result (ListsPart paging.now Whole) }
{
    let explorer = Explorer::start(paging.program, paging.known);
    renderer.render(&mut Listing::Forward(explorer), target)
}

/// Renders the paths after a cursor.
#[inline(never)]
fn render_after<T, R: PageRenderer<T>>(
    paging: &Paging<'_>,
    text: &str,
    renderer: &R,
    target: &mut T,
) -> Result<(), Fault>
    ensures { Renders (R.renders renderer.now) target.old target.new result (ListsPart paging.now (After text.entry)) }
{
    let cursor = match Cursor::read(text.as_bytes()) {
        Ok(cursor) => cursor,
        Err(error) => return Err(Fault::Cursor(error)),
    };
    match Explorer::after(paging.program, paging.known, &cursor) {
        Ok(explorer) => renderer.render(&mut Listing::Forward(explorer), target),
        Err(error) => Err(Fault::Cursor(error)),
    }
}

/// Renders the paths before a cursor, the last one first.
#[inline(never)]
fn render_before<T, R: PageRenderer<T>>(
    paging: &Paging<'_>,
    text: &str,
    renderer: &R,
    target: &mut T,
) -> Result<(), Fault>
    ensures { Renders (R.renders renderer.now) target.old target.new result (ListsPart paging.now (Before text.entry)) }
{
    let cursor = match Cursor::read(text.as_bytes()) {
        Ok(cursor) => cursor,
        Err(error) => return Err(Fault::Cursor(error)),
    };
    match Explorer::before(paging.program, paging.known, &cursor) {
        Ok(before) => renderer.render(&mut Listing::Backward(before), target),
        Err(error) => Err(Fault::Cursor(error)),
    }
}

/// Renders the paths of a part.
fn render_part<T, R: PageRenderer<T>>(
    paging: &Paging<'_>,
    part: PagePart<'_>,
    renderer: &R,
    target: &mut T,
) -> Result<(), Fault>
    ensures { Renders (R.renders renderer.now) target.old target.new result (ListsPart paging.now part.entry) }
{
    match part {
        PagePart::Whole => render_all(paging, renderer, target),
        PagePart::After(text) => render_after(paging, text, renderer, target),
        PagePart::Before(text) => render_before(paging, text, renderer, target),
    }
}

/// Returns the reply with a page of the paths that the filter lets through.
fn answer_filtered<'a>(
    alloc: Global,
    request: &PageRequest<'a>,
    found: KnownStack,
    program: Program,
) -> Result<Reply<'a>, Fault>
    requires { IsProgramOf program found.stack }
    ensures answer { FindsOf (IsPageOf (page_view request.now)) found result }
    ensures wants { WantsWork result }
{
    match request.filter {
        PathFilter::All => Ok(page_by(request, found, program, None)),
        PathFilter::Decides(decisions) => {
            answer_goal(alloc, request, found, program, Goal::Decides(decisions))
        }
        PathFilter::Asks(number) => answer_asking(alloc, request, found, program, number),
    }
}

/// Returns the reply with the page that is taken from these walks, or from all paths.
pub(super) fn page_by<'a>(
    request: &PageRequest<'a>,
    found: KnownStack,
    program: Program,
    walks: Option<GoalGraph>,
) -> Reply<'a>
    ensures { reply_view result
        ≡ Page (page_of (page_view request.now) found.stack program (may_answer found.known) (graph_of walks) (goal_of walks)) }
{
    Reply::Paths(PathsPage {
        service: request.stack.service,
        kind: request.stack.kind,
        limit: request.limit,
        part: request.part,
        found,
        program,
        walks,
    })
}

/// Returns the reply of `paths` for a known stack.
fn answer_known<'a>(
    alloc: Global,
    request: &PageRequest<'a>,
    found: KnownStack,
) -> Result<Reply<'a>, Fault>
    ensures answer { FindsOf (IsPageOf (page_view request.now)) found result }
    ensures wants { WantsWork result }
{
    match Program::of(alloc, &found.stack) {
        Ok(program) => answer_filtered(alloc, request, found, program),
        Err(_) => Err(Fault::Memory),
    }
}

/// Returns the page of the stack that is asked for.
// Not inlined, so that a command uses no stack for the values of the others.
#[inline(never)]
pub(super) fn answer_paths<'a>(
    sources: &Sources<'_, '_>,
    request: &PageRequest<'a>,
) -> Result<Reply<'a>, Fault>
    ensures answer { Finds result (IsPage (page_view request.now) (stack_from sources.now request.now.stack)) }
    ensures wants { WantsForRuns sources.now result }
{
    match known_stack(sources, &request.stack) {
        Ok(found) => answer_known(sources.alloc, request, found),
        Err(fault) => Err(fault),
    }
}

//! The brackets over the columns of substacks.

ghost use Rattle.std.specs.Prelude.{◌≡◌, ◌+◌, ◌-◌, ◌++◌, ◌≤◌, IfOk, OnOk, map};
ghost use Rattle.pam_conf.specs.ItemsOf.{items_of};
ghost use Rattle.pam_conf.specs.Stack.{module_count};
ghost use Rattle.pam_conf.specs.declared.stack.TheConstants.{MAX_MODULES};
ghost use Rattle.pam_drawing.specs.picture.Columns.{reach_of, span_after, spans_after};
ghost use Rattle.pam_drawing.specs.picture.inner.Spaced.{ends_of, reach_in};

use super::routes::Measures;
use super::shapes::Bracket;
use pam_conf::Item;
use std::alloc::{AllocError, Global};

/// The height of a bracket.
pub(super) const BRACKET: usize = 12;

/// The space from a bracket to the left of its first column, and to the right edge of its last one.
const LEFT: usize = 8;

const RIGHT: usize = 14;

/// The modules of a substack, by the numbers of its first and last, and how many substacks it is in.
#[derive(Clone, Copy, Debug)]
pub(super) struct Span {
    first: usize,
    last: usize,
    depth: usize,
}

/// Adds a substack whose modules come after as many others, if it has one.
fn add_span(
    spans: &mut Vec<Span>,
    before: usize,
    last: usize,
    depth: usize,
) -> Result<(), AllocError>
    requires { last ≤ MAX_MODULES }
    ensures { OnOk result (map ends_of spans.new.items ≡ map ends_of spans.old.items ++ span_after before (last - before)) }
{
    if last > before {
        let first = before + 1;
        spans.push(Span { first, last, depth })?;
    }
    Ok(())
}

/// Adds the substacks of a list of items, those with no module left out. Returns how many modules come before what is after
/// the list.
fn add_spans(
    spans: &mut Vec<Span>,
    items: &[Item],
    before: usize,
    depth: usize,
) -> Result<usize, AllocError>
    requires { before + module_count (items_of items.now) ≤ MAX_MODULES }
    ensures passed { IfOk result (λ passed. passed ≡ before + module_count (items_of items.now)) }
    ensures spans { OnOk result (map ends_of spans.new.items ≡ map ends_of spans.old.items ++ spans_after before (items_of items.now)) }
{
    let mut passed = before;
    for item in items {
        match item {
            Item::Module(_) => passed += 1,
            Item::Sub(sub) => {
                let last = add_spans(spans, &sub.items, passed, depth.saturating_add(1))?;
                add_span(spans, passed, last, depth)?;
                passed = last;
            }
        }
    }
    Ok(passed)
}

/// Returns the substacks of a stack.
pub(super) fn spans_of(alloc: Global, items: &[Item]) -> Result<Vec<Span>, AllocError>
    requires { module_count (items_of items.now) ≤ MAX_MODULES }
    ensures { IfOk result (λ spans. map ends_of spans.items ≡ spans_after 0 (items_of items.now)) }
{
    let mut spans = Vec::new(alloc);
    add_spans(&mut spans, items, 0, 0)?;
    Ok(spans)
}

/// Returns how many brackets are over one another.
pub(super) fn depth_of(spans: &[Span]) -> usize {
    let mut most = 0;
    for span in spans {
        most = span.depth.saturating_add(1).max(most);
    }
    most
}

/// Returns the brackets, of which the outermost are at `top`.
pub(super) fn brackets_of(
    alloc: Global,
    measures: &Measures<'_>,
    spans: &[Span],
    top: usize,
) -> Result<Vec<Bracket>, AllocError>
    ensures { IfOk result (λ brackets. map reach_of brackets.items ≡ map (reach_in measures.now.spaces.now) (map ends_of spans.now)) }
{
    let mut brackets = Vec::new(alloc);
    for span in spans {
        let end = measures.at(span.last.saturating_add(1));
        brackets.push(Bracket {
            left: measures.at(span.first).saturating_sub(LEFT),
            right: end.saturating_sub(RIGHT),
            height: top.saturating_add(span.depth.saturating_mul(BRACKET)),
        })?;
    }
    Ok(brackets)
}

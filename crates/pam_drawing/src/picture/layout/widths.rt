//! The columns of a picture: where they are, and what is between them.

ghost use Rattle.std.specs.Prelude.{◌≡◌, ◌+◌, ◌<◌, ◌≤◌, ◌∷◌, ◌++◌, [], IfOk, length};
ghost use Rattle.std.specs.List.{AllPairs};
ghost use Rattle.pam_drawing.specs.picture.Columns.{IsLeftOf};

use super::aims::Grid;
use super::controls::longest_row;
use super::table::{number_at, sum};
use super::turns::Turns;
use crate::picture::heading::name_front;
use crate::picture::label::{is_else, is_named};
use crate::{ascii_byte, name_at, name_of};
use pam_codes::{CODES, Code, CodeSet, Out};
use pam_conf::Stack;
use pam_graph::Node;
use std::alloc::{AllocError, Global};
use std::io::sink;

/// The width of a character, as of the widest usual fonts.
pub(super) const CHARACTER: usize = 7;

/// The width of a character in bold.
const BOLD: usize = 8;

/// The width in which the edges of a node open to their rows.
const FAN: usize = 22;

/// The width of a curve.
pub(super) const CURVE: usize = 32;

/// How far a turn is after the one before it.
pub(super) const STEP: usize = 6;

/// The characters of `else`, and one.
const ELSE: usize = 5;

/// The characters of ` +K (M)`, with four digits, and some more.
const NOTED: usize = 12;

/// The space after a curve, and after a column's name.
const SPACE: usize = 14;

/// The space between a column, which is at `at`, and the next one.
#[derive(Clone, Copy, Debug)]
pub(super) struct Gutter {
    pub at: usize,
    /// Where the rows of edges begin.
    pub rows: usize,
    /// Where the first edge turns.
    pub turns: usize,
    /// Where the next column is.
    pub next: usize,
}

/// Returns the number of characters of a code's name.
pub(super) fn letters(code: Option<Code>) -> usize {
    match code {
        Some(code) => name_of(code).len(),
        None => 0,
    }
}

/// Returns the number of characters of the text of a class.
pub(super) fn letters_of_class(class: CodeSet) -> usize {
    let mut out = Out::new(sink());
    match class.write_text(&mut out) {
        Ok(()) => out.taken() as usize,
        Err(_) => 0,
    }
}

/// Returns the width of the label of an edge.
fn label_width(class: CodeSet) -> usize {
    if class.len() == CODES {
        return 0;
    }
    let characters = if is_else(class) {
        ELSE
    } else if is_named(class) {
        letters_of_class(class)
    } else {
        letters(class.least()).saturating_add(NOTED)
    };
    characters.saturating_mul(CHARACTER)
}

/// Returns the width of the labels of edges that leave a column.
fn labels_of_column(nodes: &[Node], column: usize) -> usize {
    let mut most = 0;
    for node in nodes {
        if node.module_number == column {
            for edge in &node.edges {
                most = label_width(edge.class).max(most);
            }
        }
    }
    most
}

/// Returns the width of a text in bold.
pub(super) fn bold_width(text: &[u8]) -> usize {
    let mut width: usize = 0;
    for byte in text {
        width = width.saturating_add(ascii_byte(*byte).len().saturating_mul(BOLD));
    }
    width
}

/// Returns the width of the name of a module.
fn name_width(name: &[u8]) -> usize {
    bold_width(name_front(name)).saturating_add(BOLD.saturating_mul(2))
}

/// Returns the width of what is written over a column.
fn heading_width(stack: &Stack, controls: &[Vec<u8>], number: usize) -> usize {
    let name = name_width(name_at(stack, number));
    match controls.get(number.saturating_sub(1)) {
        Some(control) => longest_row(control).saturating_mul(CHARACTER).max(name),
        None => name,
    }
}

/// What is between the columns.
#[derive(Clone, Copy)]
pub(super) struct Columns<'a> {
    pub grid: &'a Grid,
    pub turns: &'a Turns,
    pub nodes: &'a [Node],
}

impl Columns<'_> {
    /// Returns the width in which edges turn after a column, and come down to the next one.
    fn curves_after(&self, number: usize) -> usize
        ensures { 14 ≤ result }
    {
        let staggered = number_at(&self.turns.most, number);
        if staggered == 0 && !self.grid.has_landing(number.saturating_add(1)) {
            return SPACE;
        }
        staggered
            .saturating_sub(1)
            .saturating_mul(STEP)
            .saturating_add(CURVE)
            .saturating_add(SPACE)
    }

    /// Returns the space after a column that is at `at`, under a heading of this width.
    fn gutter_after(&self, number: usize, at: usize, heading: usize) -> Result<Gutter, AllocError>
        ensures { IfOk result (λ gutter. IsLeftOf at gutter.next) }
    {
        let labels = labels_of_column(self.nodes, number);
        let curves = self.curves_after(number);
        let edges = FAN.saturating_add(labels).saturating_add(curves);
        let next = sum(at, edges.max(heading.saturating_add(SPACE)))?;
        Ok(Gutter {
            at,
            rows: at.saturating_add(FAN),
            turns: next.saturating_sub(curves),
            next,
        })
    }
}

/// Where the columns of the modules are, in order, and the one of the ends, with the spaces between them.
#[derive(Drop)]
pub(super) struct Spaces {
    pub columns: Vec<usize>,
    pub end: usize,
    pub gutters: Vec<Gutter>,
}

/// Returns where the columns are, from a point on.
pub(super) fn all_spaces(
    alloc: Global,
    columns: &Columns<'_>,
    stack: &Stack,
    controls: &[Vec<u8>],
    first: usize,
) -> Result<Spaces, AllocError>
    requires { 1 ≤ columns.now.grid.now.last }
    ensures count { IfOk result (λ spaces. length spaces.columns.items + 1 ≡ columns.now.grid.now.last) }
    ensures order { IfOk result (λ spaces. AllPairs IsLeftOf (spaces.columns.items ++ spaces.end ∷ [])) }
{
    let mut gutters = Vec::new(alloc);
    let mut starts = Vec::new(alloc);
    let mut end = first;
    for number in 1..columns.grid.last {
        let heading = heading_width(stack, controls, number);
        let gutter = columns.gutter_after(number, end, heading)?;
        starts.push(end)?;
        gutters.push(gutter)?;
        end = gutter.next;
    }
    Ok(Spaces {
        columns: starts,
        end,
        gutters,
    })
}

/// Returns the space after a column; for one that there is not, one without width at `first`.
pub(super) fn gutter_after(gutters: &[Gutter], column: usize, first: usize) -> Gutter {
    match gutters.get(column.saturating_sub(1)) {
        Some(gutter) => *gutter,
        None => Gutter {
            at: first,
            rows: first,
            turns: first,
            next: first,
        },
    }
}

/// Returns the width of the names of lanes.
pub(super) fn lanes_width(grid: &Grid) -> usize {
    // The length of "positive" and "negative", the longest names of impressions.
    let mut most: usize = 8;
    for state in &grid.lanes.states {
        most = name_of(state.status).len().max(most);
    }
    most.saturating_mul(BOLD)
}

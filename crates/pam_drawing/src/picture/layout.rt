//! Where the shapes of a picture are.

ghost use Rattle.std.specs.Prelude.{◌≡◌, ◌<◌, IfOk, map};
ghost use Rattle.std.specs.List.{range_with_len};
ghost use Rattle.pam_codes.specs.declared.code.TheConstants.{CODES};
ghost use Rattle.pam_drawing.specs.picture.Lanes.{HasLanes};
ghost use Rattle.pam_drawing.specs.picture.Layouts.{HasPlaces};
ghost use Rattle.pam_drawing.specs.picture.Notes.{HasNotes};
ghost use Rattle.pam_drawing.specs.picture.inner.Laned.{AreLaid, end_in, lane_at, point_of_end};
ghost use Rattle.pam_drawing.specs.picture.inner.Spaced.{HasPlacesIn, ends_of};
ghost use Rattle.pam_drawing.specs.picture.Notes.{noted_classes};

mod aims;
mod brackets;
mod controls;
mod heights;
mod lanes;
mod notes;
mod ports;
mod routes;
pub(crate) mod shapes;
mod table;
mod turns;
mod widths;

use crate::drawn_ends;
use aims::Grid;
use brackets::{BRACKET, Span, brackets_of, depth_of, spans_of};
use controls::{ROW_OF_HEADING, controls_of, most_rows};
use heights::{Heights, all_heights, middle_of};
use notes::{LINE, all_notes, noted_classes};
use pam_codes::{CODES, Code, CodeSet};
use pam_conf::Stack;
use pam_graph::Graph;
use ports::all_ports;
use routes::Measures;
use shapes::{Bracket, EndPlace, Lane, Note, Place, Point};
use std::alloc::{AllocError, Global};
use table::{copied, number_at};
use turns::all_turns;
use widths::{CHARACTER, Columns, all_spaces, bold_width, lanes_width, letters, letters_of_class};

/// The height of the outermost brackets.
const BRACKETS: usize = 42;

/// The height of the first row over the columns, where there are no brackets.
const HEADINGS: usize = 54;

/// The height of the number, the name and one row over a column.
const NAMES: usize = 34;

/// The space before the lanes.
const ABOVE: usize = 11;

/// The space at the edges of a picture.
const MARGIN: usize = 16;

/// The space between the names of lanes and the first column.
const BEFORE: usize = 24;

/// The width of a character of a decision, and of the rest of its box.
const LETTER: usize = 8;

const BOX: usize = 24;

/// The space before the box of an end.
const ARROW: usize = 12;

/// The characters before the codes of a note: a number of up to three digits, brackets and a blank.
const NUMBER: usize = 6;

/// The least width of a picture, for the line below it.
const MIN_WIDTH: usize = 620;

/// Where the shapes of a picture are, in pixels.
#[derive(Drop)]
pub struct Layout {
    pub width: usize,
    pub height: usize,
    /// The height of the first row over the columns.
    pub headings: usize,
    /// The height of the rows over the columns.
    pub rows: usize,
    /// The length of the line of a column, from below its rows on.
    pub guide: usize,
    /// Where the column of each module is, in order.
    pub columns: Vec<usize>,
    /// The control of each module, in order, as it is written.
    pub controls: Vec<Vec<u8>>,
    pub brackets: Vec<Bracket>,
    pub lanes: Vec<Lane>,
    /// Of the nodes, in their order.
    pub places: Vec<Place>,
    /// By code.
    pub ends: Vec<EndPlace>,
    /// The height of the first line below the picture.
    pub foot: usize,
    pub notes: Vec<Note>,
}

fn lanes_of(alloc: Global, heights: &[Heights]) -> Result<Vec<Lane>, AllocError>
    ensures { IfOk result (λ lanes. lanes.items ≡ map lane_at heights.now) }
{
    let mut lanes = Vec::new(alloc);
    for height in heights {
        lanes.push(height.lane)?;
    }
    Ok(lanes)
}

/// Returns the place of the end with a decision, by its number.
fn end_place(measures: &Measures<'_>, number: usize) -> EndPlace
    requires { number < CODES }
    ensures { point_of_end result ≡ end_in measures.now.spaces.now.end measures.now.heights.now measures.now.grid.now.lanes.of_ends.items number }
{
    let lane = number_at(&measures.grid.lanes.of_ends, number);
    EndPlace {
        point: Point {
            x: measures.spaces.end,
            y: middle_of(measures.heights, lane),
        },
        width: letters(Code::new(number as u8))
            .saturating_mul(LETTER)
            .saturating_add(BOX),
    }
}

fn ends_of(alloc: Global, measures: &Measures<'_>) -> Result<Vec<EndPlace>, AllocError>
    ensures { IfOk result (λ ends. map point_of_end ends.items
        ≡ map (end_in measures.now.spaces.now.end measures.now.heights.now measures.now.grid.now.lanes.of_ends.items) (range_with_len 0 CODES)) }
{
    let mut ends = Vec::new(alloc);
    for number in 0..CODES {
        ends.push(end_place(measures, number))?;
    }
    Ok(ends)
}

/// Returns where the widest of the drawn ends has its right edge.
fn right_of(ends: &[EndPlace], drawn: CodeSet) -> usize {
    let mut right = 0;
    for number in 0..CODES as u8 {
        if let (Some(decision), Some(end)) = (Code::new(number), ends.get(usize::from(number))) {
            if drawn.contains(decision) {
                right = end.point.x.saturating_add(end.width).max(right);
            }
        }
    }
    right.saturating_add(ARROW)
}

/// Returns the width of the longest note.
fn notes_width(classes: &[CodeSet]) -> usize {
    let mut most = 0;
    for class in classes {
        most = letters_of_class(*class).saturating_add(NUMBER).max(most);
    }
    most.saturating_mul(CHARACTER)
}

/// Returns the width of a picture with these ends and notes, which is at least `least`.
fn width_of(graph: &Graph, ends: &[EndPlace], noted: &[CodeSet], least: usize) -> usize {
    right_of(ends, drawn_ends(graph))
        .max(notes_width(noted).saturating_add(MARGIN))
        .saturating_add(MARGIN)
        .max(least)
}

/// Returns the least width of a picture with a title, which is written whole.
fn least_width(title: &[u8]) -> usize {
    bold_width(title)
        .saturating_add(MARGIN.saturating_mul(2))
        .max(MIN_WIDTH)
}

/// How wide a picture is at least, where the headings begin, and where the lanes begin and end.
#[derive(Clone, Copy)]
struct Area {
    width: usize,
    headings: usize,
    top: usize,
    bottom: usize,
}

/// Returns where the headings are, below brackets as many as are over one another.
fn headings_below(spans: &[Span]) -> usize {
    HEADINGS.saturating_add(depth_of(spans).saturating_mul(BRACKET))
}

/// Returns where the lanes begin, below headings with this many rows.
fn lanes_below(headings: usize, rows: usize) -> usize {
    headings
        .saturating_add(NAMES)
        .saturating_add(rows.saturating_mul(ROW_OF_HEADING))
        .saturating_add(ABOVE)
}

/// Returns the area of a picture with this title, these brackets and this many rows of headings. Its lanes have no height yet.
fn area_above(title: &[u8], spans: &[Span], rows: usize) -> Area {
    let headings = headings_below(spans);
    let top = lanes_below(headings, rows);
    Area {
        width: least_width(title),
        headings,
        top,
        bottom: top,
    }
}

fn layout_by(
    alloc: Global,
    graph: &Graph,
    measures: &Measures<'_>,
    area: Area,
    spans: &[Span],
    controls: Vec<Vec<u8>>,
) -> Result<Layout, AllocError>
    requires noted { measures.now.noted.now ≡ noted_classes graph.now.nodes }
    requires laid { AreLaid graph.now measures.now.grid.now.lanes measures.now.all.now measures.now.heights.now }
    ensures places { IfOk result (λ layout. (layout.controls ≡ controls) × HasPlaces graph.now layout) }
    ensures columns { IfOk result (HasPlacesIn measures.now.spaces.now graph.now (map ends_of spans.now)) }
    ensures notes { IfOk result (HasNotes graph.now.nodes) }
    ensures lanes { IfOk result (HasLanes graph.now) }
{
    let columns = copied(alloc, &measures.spaces.columns)?;
    let brackets = brackets_of(alloc, measures, spans, BRACKETS)?;
    let lanes = lanes_of(alloc, measures.heights)?;
    let places = measures.places(alloc, graph.nodes())?;
    let ends = ends_of(alloc, measures)?;
    let foot = area.bottom.saturating_add(LINE);
    let rows = area.top.saturating_sub(area.headings).saturating_sub(ABOVE);
    let notes = all_notes(alloc, measures.noted, foot.saturating_add(LINE))?;
    let lines = notes.len().saturating_add(1).saturating_mul(LINE);
    Ok(Layout {
        width: width_of(graph, &ends, measures.noted, area.width),
        height: foot.saturating_add(lines),
        headings: area.headings,
        rows,
        guide: area
            .bottom
            .saturating_sub(area.headings)
            .saturating_sub(rows),
        columns,
        controls,
        brackets,
        lanes,
        places,
        ends,
        foot,
        notes,
    })
}

impl Layout {
    ghost use Rattle.std.specs.Prelude.{IfOk};
    ghost use Rattle.pam_drawing.specs.picture.Layouts.{IsLayoutOf};

    /// Returns the layout of the picture of a graph of the runs of a stack, with a place for each module, node, edge and decision, and
    /// room for the title.
    pub fn of(
        alloc: Global,
        stack: &Stack,
        graph: &Graph,
        title: &[u8],
    ) -> Result<Layout, AllocError>
        ensures { IfOk result (IsLayoutOf stack.now graph.now) }
    {
        let controls = controls_of(alloc, stack)?;
        let spans = spans_of(alloc, stack.items())?;
        let grid = Grid::of(alloc, graph, stack.modules())?;
        let nodes = graph.nodes();
        let all = all_ports(alloc, &grid, nodes)?;
        let mut area = area_above(title, &spans, most_rows(&controls, nodes));
        let (heights, bottom) = all_heights(alloc, &grid, &all, area.top)?;
        area.bottom = bottom;
        let turns = all_turns(alloc, &heights, nodes, &all, grid.last)?;
        let first = MARGIN
            .saturating_add(lanes_width(&grid))
            .saturating_add(BEFORE);
        let columns = Columns {
            grid: &grid,
            turns: &turns,
            nodes,
        };
        let spaces = all_spaces(alloc, &columns, stack, &controls, first)?;
        let noted = noted_classes(alloc, nodes)?;
        let measures = Measures {
            grid: &grid,
            all: &all,
            heights: &heights,
            turns: &turns,
            spaces: &spaces,
            first,
            noted: &noted,
        };
        let layout = layout_by(alloc, graph, &measures, area, &spans, controls)?;
        Ok(layout)
    }
}

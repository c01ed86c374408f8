//! The turns of edges between two columns, one after the other, so that they can be told apart.

use super::heights::{Heights, height_of, row_of};
use super::ports::Ports;
use super::table::Table;
use pam_codes::CODES;
use pam_graph::Node;
use std::alloc::{AllocError, Global};

/// An edge that may turn: the height of its row, and that to which it goes.
#[derive(Clone, Copy, Debug)]
struct Slope {
    node: usize,
    edge: usize,
    row: usize,
    goal: usize,
}

impl Slope {
    fn falls(self) -> bool {
        self.goal > self.row
    }

    fn rises(self) -> bool {
        self.goal < self.row
    }

    /// Whether this edge turns before another one of its column: of those that fall the lowest first, of those that rise the highest.
    fn turns_before(self, other: Slope) -> bool {
        (self.falls() && other.falls() && self.row > other.row)
            || (self.rises() && other.rises() && self.row < other.row)
    }
}

fn add_slopes(
    slopes: &mut Vec<Slope>,
    heights: &[Heights],
    node: usize,
    ports: &Ports,
) -> Result<(), AllocError> {
    for (edge, port) in ports.ports.iter().enumerate() {
        let row = row_of(heights, ports, *port);
        let goal = height_of(heights, port.aim);
        slopes.push(Slope {
            node,
            edge,
            row,
            goal,
        })?;
    }
    Ok(())
}

/// Returns the edges that leave a column.
fn slopes_of(
    alloc: Global,
    heights: &[Heights],
    nodes: &[Node],
    all: &[Ports],
    column: usize,
) -> Result<Vec<Slope>, AllocError> {
    let mut slopes = Vec::new(alloc);
    for (index, (node, ports)) in nodes.iter().zip(all).enumerate() {
        if node.module_number == column {
            add_slopes(&mut slopes, heights, index, ports)?;
        }
    }
    Ok(slopes)
}

/// Returns how many edges turn before one.
fn turns_before(slopes: &[Slope], slope: Slope) -> usize {
    let mut count: usize = 0;
    for other in slopes {
        if other.turns_before(slope) {
            count = count.saturating_add(1);
        }
    }
    count
}

/// The turns of all edges.
#[derive(Drop)]
pub(super) struct Turns {
    /// How many edges turn before one, by its node and its position there.
    pub before: Table,
    /// The most that turn one after the other, by column.
    pub most: Vec<usize>,
}

/// Sets the turns of the edges that leave a column, and returns how many there are.
fn set_turns(before: &mut Table, slopes: &[Slope]) -> usize {
    let mut most = 0;
    for slope in slopes {
        let turns = turns_before(slopes, *slope);
        before.set(slope.node, slope.edge, turns);
        if slope.falls() || slope.rises() {
            most = turns.saturating_add(1).max(most);
        }
    }
    most
}

/// Returns the turns of the edges of all nodes, in columns before the one of the ends.
pub(super) fn all_turns(
    alloc: Global,
    heights: &[Heights],
    nodes: &[Node],
    all: &[Ports],
    last: usize,
) -> Result<Turns, AllocError> {
    let mut before = Table::new(alloc, nodes.len(), CODES)?;
    let mut most = Vec::new(alloc);
    for column in 0..last {
        let slopes = slopes_of(alloc, heights, nodes, all, column)?;
        most.push(set_turns(&mut before, &slopes))?;
    }
    Ok(Turns { before, most })
}

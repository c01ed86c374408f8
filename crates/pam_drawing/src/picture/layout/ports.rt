//! The rows in which edges leave their nodes: in the order of the heights to which they lead, so that none crosses another.

ghost use Rattle.std.specs.Prelude.{◌≡◌, IfOk, length, map};
ghost use Rattle.std.specs.List.{range_with_len};
ghost use Rattle.pam_drawing.specs.picture.inner.Laned.{lane_of, number_at};

use super::aims::{Aim, Grid};
use super::table::number_at;
use pam_graph::{Edge, Node};
use std::alloc::{AllocError, Global};

/// The edge of a node: where it leads, and how many of the node's edges leave above it.
#[derive(Clone, Copy, Debug)]
pub(super) struct Port {
    pub aim: Aim,
    pub rank: usize,
}

/// The edges of a node.
#[derive(Drop)]
pub(super) struct Ports {
    pub lane: usize,
    /// How many edges leave above the node's own height.
    pub raised: usize,
    pub ports: Vec<Port>,
}

/// Whether an edge leads to a higher point than another one; of two to one height, that to the farther column.
fn is_above(aim: Aim, other: Aim) -> bool {
    if aim.lane != other.lane {
        return aim.lane < other.lane;
    }
    if aim.track != other.track {
        return aim.track > other.track;
    }
    aim.column > other.column
}

/// Returns how many edges leave above one.
fn rank_of(aims: &[Aim], index: usize, aim: Aim) -> usize {
    let mut rank: usize = 0;
    for (other, above) in aims.iter().enumerate() {
        if is_above(*above, aim) || (other < index && !is_above(aim, *above)) {
            rank = rank.saturating_add(1);
        }
    }
    rank
}

/// Whether an edge leads to a point above the middle of a lane.
fn rises(aim: Aim, lane: usize) -> bool {
    aim.lane < lane || (aim.lane == lane && aim.track > 0)
}

fn risen(aims: &[Aim], lane: usize) -> usize {
    let mut count: usize = 0;
    for aim in aims {
        if rises(*aim, lane) {
            count = count.saturating_add(1);
        }
    }
    count
}

/// Whether some edge goes straight on.
fn goes_straight(aims: &[Aim], lane: usize) -> bool {
    for aim in aims {
        if aim.lane == lane && aim.track == 0 {
            return true;
        }
    }
    false
}

/// Returns the number of codes in the class of the edge with a rank.
fn codes_at(ports: &[Port], edges: &[Edge], rank: usize) -> usize {
    for (port, edge) in ports.iter().zip(edges) {
        if port.rank == rank {
            return edge.class.len();
        }
    }
    0
}

/// Returns how many edges leave above the height of their node. One that goes straight on has this height; else the larger
/// class of the last that rises and the first that falls.
fn raised(aims: &[Aim], ports: &[Port], edges: &[Edge], lane: usize) -> usize {
    let risen = risen(aims, lane);
    if risen == 0 || goes_straight(aims, lane) {
        return risen;
    }
    let last = risen.saturating_sub(1);
    if codes_at(ports, edges, last) >= codes_at(ports, edges, risen) {
        last
    } else {
        risen
    }
}

fn aims_of(
    alloc: Global,
    grid: &Grid,
    nodes: &[Node],
    node: &Node,
) -> Result<Vec<Aim>, AllocError> {
    let mut aims = Vec::new(alloc);
    for edge in &node.edges {
        aims.push(grid.aim(nodes, node.module_number, edge.target))?;
    }
    Ok(aims)
}

fn ranked(alloc: Global, aims: &[Aim]) -> Result<Vec<Port>, AllocError> {
    let mut ports = Vec::new(alloc);
    for (index, aim) in aims.iter().enumerate() {
        let rank = rank_of(aims, index, *aim);
        ports.push(Port { aim: *aim, rank })?;
    }
    Ok(ports)
}

fn ports_of(
    alloc: Global,
    grid: &Grid,
    nodes: &[Node],
    index: usize,
    node: &Node,
) -> Result<Ports, AllocError>
    ensures { IfOk result (λ ports. lane_of ports ≡ number_at grid.now.lanes.of_nodes.items index) }
{
    let lane = number_at(&grid.lanes.of_nodes, index);
    let aims = aims_of(alloc, grid, nodes, node)?;
    let ports = ranked(alloc, &aims)?;
    let raised = raised(&aims, &ports, &node.edges, lane);
    Ok(Ports {
        lane,
        raised,
        ports,
    })
}

/// Returns the ports of all nodes.
pub(super) fn all_ports(
    alloc: Global,
    grid: &Grid,
    nodes: &[Node],
) -> Result<Vec<Ports>, AllocError>
    ensures { IfOk result (λ all. map lane_of all.items ≡ map (number_at grid.now.lanes.of_nodes.items) (range_with_len 0 (length nodes.now))) }
{
    let mut all = Vec::new(alloc);
    for (index, node) in nodes.iter().enumerate() {
        all.push(ports_of(alloc, grid, nodes, index, node)?)?;
    }
    Ok(all)
}

//! The heights of lanes, tracks and rows.

ghost use Rattle.std.specs.Prelude.{◌≡◌, IfOk, if◌then◌else◌, length, map, None, Some};
ghost use Rattle.std.specs.List.{AllPairs, list_any, range_with_len};
ghost use Rattle.pam_drawing.specs.picture.inner.Laned.{IsHigher, leaves, middle_in, state_at, state_in};

use super::aims::{Aim, Grid};
use super::ports::{Port, Ports};
use super::shapes::Lane;
use super::table::sum;
use pam_dispatch::State;
use std::alloc::{AllocError, Global};

/// The height of a row of edges, or of a track.
pub(super) const ROW: usize = 18;

/// The least part of a lane above the first row, and below the last.
const MARGIN: usize = 18;

/// The height of the name of a lane below its middle.
const NAME: usize = 18;

/// The height of a lane, and of the rows over its middle.
#[derive(Clone, Copy, Debug)]
pub(super) struct Heights {
    pub lane: Lane,
    /// How many rows of edges are over the middle, below the tracks.
    pub raised: usize,
}

/// Returns the height of some rows.
fn rows(count: usize) -> usize {
    count.saturating_mul(ROW)
}

/// Returns how many rows the edges of nodes in a lane take above and below its middle.
fn rows_of_lane(all: &[Ports], lane: usize) -> (usize, usize) {
    let mut above = 0;
    let mut below = 0;
    for ports in all {
        if ports.lane == lane {
            let others = ports.ports.len().saturating_sub(1);
            above = ports.raised.max(above);
            below = others.saturating_sub(ports.raised).max(below);
        }
    }
    (above, below)
}

/// Whether a node is in a lane.
fn has_node(all: &[Ports], lane: usize) -> bool
    ensures { result ≡ list_any (leaves lane) all.now }
{
    for ports in all {
        if ports.lane == lane {
            return true;
        }
    }
    false
}

/// Returns a state, if a node is in the lane for it.
fn state_if_used(all: &[Ports], lane: usize, state: State) -> Option<State>
    ensures { result ≡ (if list_any (leaves lane) all.now then Some state else None) }
{
    if has_node(all, lane) {
        Some(state)
    } else {
        None
    }
}

/// Returns the lanes, from a height on, and the height at which they end.
pub(super) fn all_heights(
    alloc: Global,
    grid: &Grid,
    all: &[Ports],
    first: usize,
) -> Result<(Vec<Heights>, usize), AllocError>
    ensures states { IfOk result (λ found. map state_at found.0.items
        ≡ map (state_in all.now grid.now.lanes.states.items) (range_with_len 0 (length grid.now.lanes.states.items))) }
    ensures order { IfOk result (λ found. AllPairs IsHigher found.0.items) }
{
    let mut heights = Vec::new(alloc);
    let mut top = first;
    for (lane, state) in grid.lanes.states.iter().enumerate() {
        let (above, below) = rows_of_lane(all, lane);
        let over = rows(grid.tracks_over(lane).saturating_add(above)).saturating_add(MARGIN);
        let middle = sum(top, over)?;
        let lane = Lane {
            state: state_if_used(all, lane, *state),
            top,
            middle,
        };
        heights.push(Heights {
            lane,
            raised: above,
        })?;
        top = sum(middle, rows(below).max(NAME).saturating_add(MARGIN))?;
    }
    Ok((heights, top))
}

fn lane_at(heights: &[Heights], lane: usize) -> (usize, usize)
    ensures { result.0 ≡ middle_in heights.now lane }
{
    match heights.get(lane) {
        Some(found) => (found.lane.middle, found.raised),
        None => (0, 0),
    }
}

/// Returns the height of the nodes in a lane.
pub(super) fn middle_of(heights: &[Heights], lane: usize) -> usize
    ensures { result ≡ middle_in heights.now lane }
{
    lane_at(heights, lane).0
}

/// Returns the height of the track by which an edge comes; that of its target if it needs none.
pub(super) fn height_of(heights: &[Heights], aim: Aim) -> usize {
    let (middle, raised) = lane_at(heights, aim.lane);
    if aim.track == 0 {
        return middle;
    }
    middle.saturating_sub(rows(aim.track.saturating_add(raised)))
}

/// Returns the height of the row in which an edge leaves its node.
pub(super) fn row_of(heights: &[Heights], ports: &Ports, port: Port) -> usize {
    middle_of(heights, ports.lane)
        .saturating_add(rows(port.rank))
        .saturating_sub(rows(ports.raised))
}

/// Returns the height of the row in which an edge leaves its node, and where it leads, by its node's index and its own.
pub(super) fn leaving(
    all: &[Ports],
    heights: &[Heights],
    index: usize,
    position: usize,
) -> (usize, Aim) {
    let nowhere = Aim {
        lane: 0,
        column: 0,
        track: 0,
    };
    let Some(ports) = all.get(index) else {
        return (0, nowhere);
    };
    match ports.ports.get(position) {
        Some(port) => (row_of(heights, ports, *port), port.aim),
        None => (0, nowhere),
    }
}

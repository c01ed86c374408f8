//! Where the edges lead, and which of them have to pass over nodes.

use super::lanes::Lanes;
use super::table::{Table, number_at};
use crate::drawn_ends;
use pam_codes::{CODES, Code};
use pam_graph::{Edge, Graph, Node, Target};
use std::alloc::{AllocError, Global};

/// Where an edge leads.
#[derive(Clone, Copy, Debug)]
pub(super) struct Aim {
    pub lane: usize,
    pub column: usize,
    /// The track over the middle of the lane by which it comes, from 1; 0 if no node is in between.
    pub track: usize,
}

/// The lanes and columns of a graph, with the tracks on which edges pass over nodes.
#[derive(Drop)]
pub(super) struct Grid {
    pub lanes: Lanes,
    /// The column of the ends.
    pub last: usize,
    /// 1 where a node or an end is, by lane and column.
    taken: Table,
    /// By lane and column of the target.
    tracks: Table,
}

impl Grid {
    ghost use Rattle.std.specs.Prelude.{◌≡◌, ◌+◌, ◌≤◌, IfOk};
    ghost use Rattle.pam_conf.specs.declared.stack.TheConstants.{MAX_MODULES};
    ghost use Rattle.pam_drawing.specs.picture.inner.Laned.{AreLanesOf};

    /// Returns the lane and column of a target, with no track.
    fn spot(&self, nodes: &[Node], target: Target) -> Aim {
        match target {
            Target::At(index) => Aim {
                lane: number_at(&self.lanes.of_nodes, index as usize),
                column: match nodes.get(index as usize) {
                    Some(node) => node.module_number,
                    None => 0,
                },
                track: 0,
            },
            Target::End(decision) => Aim {
                lane: number_at(&self.lanes.of_ends, usize::from(decision.number())),
                column: self.last,
                track: 0,
            },
        }
    }

    /// Whether a node is in the lane of a target, before it and after a column.
    fn is_blocked(&self, column: usize, spot: Aim) -> bool {
        for between in column.saturating_add(1)..spot.column {
            if self.taken.get(spot.lane, between) > 0 {
                return true;
            }
        }
        false
    }

    /// Returns where an edge leads from a column.
    pub fn aim(&self, nodes: &[Node], column: usize, target: Target) -> Aim {
        let spot = self.spot(nodes, target);
        if self.is_blocked(column, spot) {
            return Aim {
                track: self.tracks.get(spot.lane, spot.column),
                ..spot
            };
        }
        spot
    }

    /// Marks where the nodes and ends are.
    fn mark_all(&mut self, graph: &Graph)
        ensures { (self.new.lanes ≡ self.old.lanes) × (self.new.last ≡ self.old.last) }
    {
        for (index, node) in graph.nodes().iter().enumerate() {
            let lane = number_at(&self.lanes.of_nodes, index);
            self.taken.set(lane, node.module_number, 1);
        }
        let ends = drawn_ends(graph);
        for number in 0..CODES as u8 {
            if let Some(decision) = Code::new(number) {
                if ends.contains(decision) {
                    let lane = number_at(&self.lanes.of_ends, usize::from(number));
                    self.taken.set(lane, self.last, 1);
                }
            }
        }
    }

    /// Notes the first column that an edge passes over, if a node is in its way.
    fn note_passed(&self, passed: &mut Table, nodes: &[Node], column: usize, edge: &Edge) {
        let spot = self.spot(nodes, edge.target);
        if !self.is_blocked(column, spot) {
            return;
        }
        let first = column.saturating_add(1);
        let known = passed.get(spot.lane, spot.column);
        if known == 0 || first < known {
            passed.set(spot.lane, spot.column, first);
        }
    }

    /// Notes for each target the first column that some edge to it passes over.
    fn note_all(&self, passed: &mut Table, nodes: &[Node]) {
        for node in nodes {
            for edge in &node.edges {
                self.note_passed(passed, nodes, node.module_number, edge);
            }
        }
    }

    /// Gives the targets in a lane the lowest tracks that are free where edges to them pass.
    fn lay_tracks(&mut self, passed: &Table, lane: usize)
        ensures { (self.new.lanes ≡ self.old.lanes) × (self.new.last ≡ self.old.last) }
    {
        for column in 0..self.last.saturating_add(1) {
            let first = passed.get(lane, column);
            if first > 0 {
                let track = free_track(&self.tracks, lane, first, column);
                self.tracks.set(lane, column, track);
            }
        }
    }

    /// Returns how many tracks a lane has.
    pub fn tracks_over(&self, lane: usize) -> usize {
        let mut most = 0;
        for column in 0..self.last.saturating_add(1) {
            most = self.tracks.get(lane, column).max(most);
        }
        most
    }

    /// Whether an edge comes down from a track to some lane in a column.
    pub fn has_landing(&self, column: usize) -> bool {
        for lane in 0..self.lanes.states.len() {
            if self.tracks.get(lane, column) > 0 {
                return true;
            }
        }
        false
    }

    /// Returns the grid of the graph of a stack with this many modules.
    pub fn of(alloc: Global, graph: &Graph, modules: usize) -> Result<Grid, AllocError>
        requires { modules ≤ MAX_MODULES }
        ensures lanes { IfOk result (λ grid. AreLanesOf graph.now grid.lanes) }
        ensures last { IfOk result (λ grid. grid.last ≡ modules + 1) }
    {
        let lanes = Lanes::of(alloc, graph)?;
        let rows = lanes.states.len();
        let last = modules.saturating_add(1);
        let columns = last.saturating_add(1);
        let taken = Table::new(alloc, rows, columns)?;
        let tracks = Table::new(alloc, rows, columns)?;
        let mut grid = Grid {
            lanes,
            last,
            taken,
            tracks,
        };
        grid.mark_all(graph);
        let mut passed = Table::new(alloc, rows, columns)?;
        grid.note_all(&mut passed, graph.nodes());
        for lane in 0..rows {
            grid.lay_tracks(&passed, lane);
        }
        Ok(grid)
    }
}

/// Whether a track is used in a lane at a column or after it, by edges to targets before `end`.
fn is_used(tracks: &Table, lane: usize, first: usize, end: usize, track: usize) -> bool {
    for column in first.saturating_add(1)..end {
        if tracks.get(lane, column) == track {
            return true;
        }
    }
    false
}

/// Returns the lowest track that is not used in these columns of a lane.
fn free_track(tracks: &Table, lane: usize, first: usize, end: usize) -> usize {
    for track in 1..end {
        if !is_used(tracks, lane, first, end, track) {
            return track;
        }
    }
    end
}

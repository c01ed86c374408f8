//! The ways of edges.

use super::aims::{Aim, Grid};
use super::heights::{Heights, height_of, leaving, middle_of};
use super::notes::number_of;
use super::ports::Ports;
use super::shapes::{Bend, Place, Point, Route};
use super::table::number_at;
use super::turns::Turns;
use super::widths::{CURVE, Gutter, STEP, Spaces, gutter_after};
use pam_codes::CodeSet;
use pam_graph::{Edge, Node};
use std::alloc::{AllocError, Global};

/// What the routes are made from.
#[derive(Clone, Copy)]
pub(super) struct Measures<'a> {
    pub grid: &'a Grid,
    pub all: &'a [Ports],
    pub heights: &'a [Heights],
    pub turns: &'a Turns,
    pub spaces: &'a Spaces,
    /// Where the first column is.
    pub first: usize,
    /// The classes that have notes.
    pub noted: &'a [CodeSet],
}

fn bend(from: usize, to: usize, height: usize) -> Bend {
    Bend {
        from,
        middle: from.saturating_add(to) / 2,
        to,
        height,
    }
}

impl Measures<'_> {
    ghost use Rattle.std.specs.Prelude.{◌≡◌, IfOk, map};
    ghost use Rattle.pam_drawing.specs.picture.Layouts.{edges_of, routes_of};
    ghost use Rattle.std.specs.Prelude.{length};
    ghost use Rattle.std.specs.List.{range_with_len};
    ghost use Rattle.pam_drawing.specs.picture.inner.Laned.{height_in, height_of};
    ghost use Rattle.pam_drawing.specs.picture.inner.Spaced.{module_of, place_in, x_of};
    ghost use Rattle.pam_drawing.specs.picture.Notes.{number_from};
    ghost use Rattle.pam_drawing.specs.picture.inner.Noted.{notes_of, numbers_in};

    fn gutter(&self, column: usize) -> Gutter {
        gutter_after(&self.spaces.gutters, column, self.first)
    }

    /// Returns where the column of a module is; past the modules that of the ends.
    pub fn at(&self, column: usize) -> usize
        ensures { result ≡ place_in self.now.spaces.now column }
    {
        match self.spaces.columns.get(column.saturating_sub(1)) {
            Some(place) => *place,
            None => self.spaces.end,
        }
    }

    /// Returns the way of an edge from a column, which turns after as many others.
    fn route(&self, column: usize, row: usize, aim: Aim, before: usize, note: usize) -> Route
        ensures { result.note ≡ note }
    {
        let gutter = self.gutter(column);
        let end = self.at(aim.column);
        let turns = gutter.turns.saturating_add(before.saturating_mul(STEP));
        let turned = turns.saturating_add(CURVE).min(end);
        let last = self.gutter(aim.column.saturating_sub(1));
        let landing = last.turns.max(turned).min(end);
        let landed = landing.saturating_add(CURVE).min(end);
        Route {
            fan: bend(gutter.at, gutter.rows, row),
            turn: bend(turns, turned, height_of(self.heights, aim)),
            landing: bend(landing, landed, middle_of(self.heights, aim.lane)),
            note,
        }
    }

    /// Returns the way of the edge of a node at a position.
    fn route_of(&self, index: usize, node: &Node, position: usize, edge: &Edge) -> Route
        ensures { result.note ≡ number_from 1 self.now.noted.now edge.now.class }
    {
        let before = self.turns.before.get(index, position);
        let note = number_of(self.noted, edge.class);
        let (row, aim) = leaving(self.all, self.heights, index, position);
        self.route(node.module_number, row, aim, before, note)
    }

    fn place(&self, alloc: Global, index: usize, node: &Node) -> Result<Place, AllocError>
        ensures routes { IfOk result (λ place. routes_of place ≡ edges_of node.now) }
        ensures notes { IfOk result (λ place. notes_of place ≡ numbers_in self.now.noted.now node.now) }
        ensures column { IfOk result (λ place. x_of place ≡ place_in self.now.spaces.now node.now.module_number) }
        ensures height { IfOk result (λ place. height_of place ≡ height_in self.now.heights.now self.now.grid.now.lanes.of_nodes.items index) }
    {
        let mut routes = Vec::new(alloc);
        for (position, edge) in node.edges.iter().enumerate() {
            routes.push(self.route_of(index, node, position, edge))?;
        }
        let point = Point {
            x: self.at(node.module_number),
            y: middle_of(self.heights, number_at(&self.grid.lanes.of_nodes, index)),
        };
        Ok(Place { point, routes })
    }

    /// Returns where the nodes are, with the ways of their edges.
    pub fn places(&self, alloc: Global, nodes: &[Node]) -> Result<Vec<Place>, AllocError>
        ensures routes { IfOk result (λ places. map routes_of places.items ≡ map edges_of nodes.now) }
        ensures notes { IfOk result (λ places. map notes_of places.items ≡ map (numbers_in self.now.noted.now) nodes.now) }
        ensures columns { IfOk result (λ places. map x_of places.items ≡ map (place_in self.now.spaces.now) (map module_of nodes.now)) }
        ensures heights { IfOk result (λ places. map height_of places.items
            ≡ map (height_in self.now.heights.now self.now.grid.now.lanes.of_nodes.items) (range_with_len 0 (length nodes.now))) }
    {
        let mut places = Vec::new(alloc);
        for (index, node) in nodes.iter().enumerate() {
            places.push(self.place(alloc, index, node)?)?;
        }
        Ok(places)
    }
}

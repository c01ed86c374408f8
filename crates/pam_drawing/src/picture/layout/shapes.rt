//! Where the shapes of a picture are, in pixels from its upper left corner.

use pam_codes::CodeSet;
use pam_dispatch::State;

/// A point.
#[derive(Clone, Copy, Debug, PartialEq, Eq)]
pub struct Point {
    pub x: usize,
    pub y: usize,
}

/// A bend of a line, which comes from the left: it keeps its height up to `from`, and is at the new height from `to` on.
#[derive(Clone, Copy, Debug, PartialEq, Eq)]
pub struct Bend {
    pub from: usize,
    pub middle: usize,
    pub to: usize,
    pub height: usize,
}

/// The way of an edge from its node to its target.
#[derive(Clone, Copy, Debug, PartialEq, Eq)]
pub struct Route {
    /// From the node to a row of its own.
    pub fan: Bend,
    /// From the row to the height of the target, or over what is in between.
    pub turn: Bend,
    /// To the height of the target.
    pub landing: Bend,
    /// The number of the note with its answers; 0 if its label has them.
    pub note: usize,
}

/// Where a node is, and its edges.
#[derive(Drop)]
pub struct Place {
    pub point: Point,
    /// Of its edges, in their order.
    pub routes: Vec<Route>,
}

/// The part of a picture with all nodes in a state, from its upper edge on. One without nodes is for an end, and has no state.
#[derive(Clone, Copy, Debug)]
pub struct Lane {
    pub state: Option<State>,
    pub top: usize,
    /// The height of its nodes.
    pub middle: usize,
}

/// A bracket over the columns of a substack.
#[derive(Clone, Copy, Debug, PartialEq, Eq)]
pub struct Bracket {
    pub left: usize,
    pub right: usize,
    pub height: usize,
}

/// Where an end is, and the width of its box.
#[derive(Clone, Copy, Debug, PartialEq, Eq)]
pub struct EndPlace {
    pub point: Point,
    pub width: usize,
}

/// A class that is shown below the picture, with its number, and the height of its line.
#[derive(Clone, Copy, Debug, PartialEq, Eq)]
pub struct Note {
    pub number: usize,
    pub class: CodeSet,
    pub height: usize,
}

//! Where the shapes are, by what they show.

ghost use Rattle.std.specs.Prelude.{◌≡◌};
ghost use Rattle.pam_drawing.specs.picture.Places.{column_at, control_at, end_at, no_route, origin, point_at, point_of, route_at};

use crate::picture::layout::Layout;
use crate::picture::layout::shapes::{Bend, EndPlace, Point, Route};
use pam_codes::Code;
use pam_graph::Target;

fn origin() -> Point
    ensures { result ≡ origin }
{
    Point { x: 0, y: 0 }
}

fn no_route() -> Route
    ensures { result ≡ no_route }
{
    let bend = Bend {
        from: 0,
        middle: 0,
        to: 0,
        height: 0,
    };
    Route {
        fan: bend,
        turn: bend,
        landing: bend,
        note: 0,
    }
}

/// Returns the way of an edge of a node.
pub(crate) fn route_at(layout: &Layout, index: usize, edge: usize) -> Route
    ensures { result ≡ route_at layout.now index edge }
{
    let Some(place) = layout.places.get(index) else {
        return no_route();
    };
    match place.routes.get(edge) {
        Some(route) => *route,
        None => no_route(),
    }
}

/// Returns where a node is.
pub(crate) fn point_at(layout: &Layout, index: usize) -> Point
    ensures { result ≡ point_at layout.now index }
{
    match layout.places.get(index) {
        Some(place) => place.point,
        None => origin(),
    }
}

/// Returns where an end is.
pub(crate) fn end_at(layout: &Layout, decision: Code) -> EndPlace
    ensures { result ≡ end_at layout.now decision }
{
    match layout.ends.get(usize::from(decision.number())) {
        Some(end) => *end,
        None => EndPlace {
            point: origin(),
            width: 0,
        },
    }
}

/// Returns where a target is.
pub(crate) fn point_of(layout: &Layout, target: Target) -> Point
    ensures { result ≡ point_of layout.now target }
{
    match target {
        Target::At(index) => point_at(layout, index as usize),
        Target::End(decision) => end_at(layout, decision).point,
    }
}

/// Returns where the column after this many columns is.
pub(crate) fn column_at(layout: &Layout, index: usize) -> usize
    ensures { result ≡ column_at layout.now index }
{
    match layout.columns.get(index) {
        Some(column) => *column,
        None => 0,
    }
}

/// Returns the control of the module after this many modules.
pub(crate) fn control_at(layout: &Layout, index: usize) -> &[u8]
    ensures { result.now ≡ control_at layout.now index }
{
    match layout.controls.get(index) {
        Some(control) => control.as_slice(),
        None => b"",
    }
}

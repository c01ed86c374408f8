//! Pictures of the graph of a stack's runs, in SVG.
//!
//! First a `Layout` says where each shape is, and then `write_svg` writes the picture.
#![tactic(auto)]

mod edge;
mod heading;
mod label;
pub mod laws;
mod layout;
mod mark;
mod node;
mod place;
mod rows;
mod stop;
mod svg;

pub use layout::Layout;
pub use layout::shapes::{Bend, Bracket, EndPlace, Lane, Note, Place, Point, Route};
pub use svg::write_svg;

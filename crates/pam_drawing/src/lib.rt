//! Drawings of the graph of a stack's runs, for Graphviz and for Mermaid.
#![tactic(auto)]

mod drawing;
mod edge;
mod format;
mod label;
pub mod laws;
mod node;
pub mod picture;
mod xml;

pub use drawing::{write_dot, write_mermaid};
pub use edge::{drawn_ends, put_target};
pub use label::ascii_byte;
pub use node::{impression_name, name_at, name_of};
pub use xml::{put_escaped, put_escaped_byte};

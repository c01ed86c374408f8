//! The graph of all runs of a stack: the paths that the answers of its modules can take, with what they share stored once.
#![tactic(auto)]

mod building;
mod caches;
mod decisions;
mod direction;
mod error;
mod frames;
mod goal;
mod graph;
mod last_nodes;
pub mod laws;
mod node;
mod past_ends;
mod retrace;
mod tally;
mod walks;
mod ways;

pub use decisions::Decisions;
pub use error::GraphError;
pub use goal::Goal;
pub use graph::{Graph, MAX_NODES};
pub use node::{Edge, Node, Target};
pub use past_ends::{PastEnds, is_past_end};
pub use walks::Walks;

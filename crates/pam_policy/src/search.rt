//! The runs of a stack in which certain events happen: whether there is one, and which asks the fewest modules.

mod distances;
pub mod laws;
mod marks;
mod monitor;
mod query;
mod run;
mod searching;
#[cfg(test)]
mod tests;
mod walking;

pub use marks::Marks;
pub use query::{MAX_TOGETHER, Query};
pub use run::{Run, Step};
pub use searching::search;
pub(crate) use walking::rank;

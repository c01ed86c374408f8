//! Checks as text with excerpts: below each finding the line of its file, with carets below the word that is meant.
#![tactic(auto)]

mod cells;
mod document;
mod excerpt;
pub mod laws;
mod window;
mod witness;

pub use document::write_full;
pub(crate) use window::{bytes_after, first_bytes};

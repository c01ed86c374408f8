//! Checks as patches: a unified diff of each file in which a word has one certain mending.
#![tactic(auto)]

mod document;
mod hunk;
pub mod laws;
mod mended;
mod mending;
mod reading;

pub use document::write_patch;

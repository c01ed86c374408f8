//! Accept files: the findings that are meant to be, each with its number and its place.
#![tactic(auto)]

mod error;
mod file;
mod keys;
mod lines;
mod words;

pub use error::AcceptError;
pub use file::AcceptFile;
pub use lines::AcceptLine;

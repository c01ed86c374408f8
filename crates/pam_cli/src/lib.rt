//! A run of `pamcheck`: reads the words and the files that they name, answers, and reports faults.
#![tactic(auto)]

mod host;
pub mod laws;
mod program;
mod reading;
mod system;

pub use host::{Host, front_of};
pub use program::{refuse, refuse_without_memory, run};
pub use system::{Found, Held, Place, System};

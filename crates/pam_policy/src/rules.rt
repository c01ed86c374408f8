//! The rules of a policy at a stack: whether a rule holds there, and the run that shows it.

mod choosing;
mod error;
mod idle;
mod judging;
pub mod laws;
mod looking;
mod marking;
mod part;
mod site;
#[cfg(test)]
mod tests;
mod verdict;

pub use error::JudgeError;
pub use idle::{can_end, can_happen};
pub use judging::judge;
pub use site::Site;
pub use verdict::Verdict;

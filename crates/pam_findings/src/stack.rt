//! What a stack does to everybody, whatever its modules answer: whether it lets nobody in, or anybody; which of its modules are
//! never asked, which can jump past the end of their list, and of which success never counts; and which are asked after which.
#![tactic(auto)]

mod asked;
mod counting;
pub mod laws;
mod leading;
mod marks;
mod past_end;
mod soundness;
mod way_in;

pub(crate) use leading::{Sought, leads};
pub(crate) use marks::{Marks, mark};
pub use soundness::Soundness;

//! What is wrong with a host, its stacks, the words of its lines, and its tables; and the file of the findings that are accepted.
#![tactic(auto)]

pub mod accepted;
pub mod host;
pub mod misspelled;
pub mod stack;
pub mod tables;

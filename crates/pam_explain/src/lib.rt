//! What each fault and each finding means: a table with a row for each number. A row stands once, as a constant in the file of its
//! family. Its number, name and level come from it wherever they are printed, and contracts cite it by its name.
#![tactic(auto)]

pub mod arguments;
mod explanation;
pub mod hosts;
pub mod laws;
pub mod links;
pub mod modules;
pub mod named;
pub mod old_tables;
pub mod own_files;
pub mod paths;
pub mod policies;
pub mod released;
pub mod rules;
mod shared;
pub mod stacks;
mod table;
pub mod tables;
pub mod words;

pub use explanation::{Explanation, Level};
pub use table::{ExplanationsIter, explain, explanations};

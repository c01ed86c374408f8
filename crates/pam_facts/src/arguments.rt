//! What modules make of the arguments of their rules: a table of the program has the arguments of 115 modules.
#![tactic(auto)]

mod calls;
mod conditions;
mod cuts;
mod index;
mod lacks;
pub mod laws;
mod modules;
mod row;
mod table;
mod values;
mod verdict;
mod writing;

pub use calls::{known_of, lack_in};
pub use index::Arguments;
pub use lacks::{Lack, lack_of};
pub use modules::Module;
pub use values::Wanted;
pub use verdict::{Reaction, Verdict};
pub(crate) use writing::write_arguments;

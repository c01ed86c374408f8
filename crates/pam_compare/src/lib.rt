//! Compares two stacks whose modules are matched: what the new one decides otherwise than the old one, whatever their modules
//! answer. Matched modules answer alike. Says whether two stacks have the same items.
#![tactic(auto)]

mod change;
mod comparing;
mod digest;
mod expanding;
mod held;
mod held_lists;
pub mod laws;
mod matching;
mod naming;
mod node;
mod nodes;
mod ranks;
mod same;
mod situation;
mod turn;
mod usual;
mod witness;

pub use change::Change;
pub use comparing::{Changes, Comparison, MAX_SITUATIONS, compare};
pub use digest::Digest;
pub use matching::{Matching, are_same_texts};
pub use same::are_same_stacks;
pub use witness::Witness;

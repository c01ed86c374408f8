//! Pages of the paths through a stack, written as text: a line for each path, and a last line.
//! A line copies the text of the steps it shares with the line before it.
#![tactic(auto)]

mod buffer;
mod classes;
mod code_texts;
mod copied;
pub mod laws;
mod listing;
mod page;
mod tail_texts;
mod texts;
mod written;

pub use listing::Listing;
pub use page::put_page;
pub use texts::LineTexts;

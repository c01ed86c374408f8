//! The words of a configuration that findings are about: where each stands, and the nearest right word for one that is wrong.
#![tactic(auto)]

mod about;
mod actions;
mod certain;
mod cursor;
mod findings;
pub mod laws;
mod offsets;
mod open;
mod pairs;
mod path;
mod pieces;
mod reader;
mod right_words;
mod spot;
mod word;

pub use certain::name_part;
pub use cursor::{Cursor, after_feeds};
pub use findings::misspelled_words;
pub use offsets::line_len;
pub use right_words::MAX_NAMES;
pub use spot::{Spot, line_feeds};
pub use word::Misspelled;

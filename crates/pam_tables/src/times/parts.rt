//! The parts of a time table, as `TimeTable` reads them: for crates that look at what a table says.

pub use crate::times::entry::TimeEntry;
pub use crate::times::logic::is_token_byte;
pub use crate::times::reading::{Fields, cut_fields};

//! Lists every path through a stack that the answers of its modules can follow, in order. A listing continues from any
//! of its paths, in both directions, and is computed one path at a time.
#![tactic(auto)]

mod before;
mod bounded_list;
mod class_cache;
mod classes;
mod cursor;
mod digits;
mod direction;
mod explorer;
mod fork;
mod frames;
mod knowledge;
pub mod laws;
mod path;
mod path_parts;
mod progress;
mod retrace;
mod scope;
mod tail_steps;

pub use before::Before;
pub use class_cache::ClassCache;
pub use cursor::{Cursor, CursorError, least_number};
pub use explorer::Explorer;
pub use fork::{Choice, Fork};
pub use knowledge::{Free, Knowledge, Known};
pub use path::{Path, PathStep};

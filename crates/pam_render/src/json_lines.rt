//! JSON Lines: objects that are written a line each, member by member, with no memory but that of the writer.
#![tactic(auto)]

mod array;
pub mod laws;
mod text;
mod value;

pub use array::{Elements, put_array, put_more, put_single, put_strings};
pub use text::{Part, put_joined, put_quoted, put_readable};
pub(crate) use text::{put_chunks, put_escaped};
pub use value::{Member, Written, put_comma, put_line, put_object};

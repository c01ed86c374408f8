//! The codes that the modules of a stack may return for a login, as far as they are known.
//! Access and time tables give the codes of the modules that read them, a returns file the codes of others, and facts those of the rest.
#![tactic(auto)]

mod access;
mod answers;
mod error;
mod knowledge;
pub mod laws;
mod tables;

pub use access::{AccessDecision, decide_access};
pub use answers::{is_access_reader, is_time_reader, name_of_path};
pub use error::{KnownError, NumberedError};
pub use knowledge::known_answers;
pub use tables::{Tables, TimedTable};

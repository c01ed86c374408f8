//! What a host says of policies: its rules and their findings, and the walk over them line by line.

mod found;
mod host;
mod line;
mod told;
mod walk;
mod write;

pub use host::{kind_of_place, service_of_place};
pub use line::PolicyLine;
pub use told::{PolicyHost, ToldFinding, ToldRule};
pub use walk::PolicyLines;
pub use write::write_policy;

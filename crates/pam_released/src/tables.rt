//! How released Linux-PAM, 1.5.2 and 1.7.0, reads the tables of pam_access(8) and pam_time(8), where that is not what
//! access.conf(5) and time.conf(5) say.
#![tactic(auto)]

mod access;
mod difference;
mod finding;
mod last_line;
pub mod laws;
pub mod rows;
mod times;

pub use access::{access_findings, has_empty_separator};
pub use difference::TableDifference;
pub use finding::TableFinding;
pub use times::time_findings;

//! How released Linux-PAM, 1.5.2 and 1.7.0, reads a configuration file, and where that is not what the manual pages say.
#![tactic(auto)]

mod assembly;
mod control;
mod difference;
mod finding;
pub mod laws;
mod lines;
mod names;
mod reader;
mod reading;
mod release;
pub mod rows;
mod rules;
mod survey;
pub mod tables;
mod texts;

pub use difference::Difference;
pub use finding::Finding;
pub use reader::Reader;
pub use reading::{FailingRule, LineRule, NumberedReading, Reading, released_rules};
pub use release::Release;
pub use survey::findings;

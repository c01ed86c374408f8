//! Checks as SARIF 2.1.0, which code scanning reads: one JSON document with a result for each finding.
#![tactic(auto)]

mod document;
mod location;
mod results;
mod rules;

pub use document::write_sarif;
pub use location::put_uri;

//! Replies of `pam_report` as text, as text with excerpts of files, as JSON, as SARIF and as patches, and the sentences of what is found.
#![tactic(auto)]

pub mod full_text;
pub mod json_lines;
pub mod json_text;
pub mod parts;
pub mod patch_text;
pub mod sarif;
pub mod sentences;
pub mod text;

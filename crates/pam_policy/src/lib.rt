//! Policies: what an administrator demands of the stacks of a host, and whether it holds.
#![tactic(auto)]

pub mod host;
pub mod names;
pub mod needs;
pub mod rules;
pub mod search;
pub mod text;

//! What modules answer, as the command line says it.
#![tactic(auto)]

mod setting;

pub use setting::Setting;

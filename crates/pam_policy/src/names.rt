//! The words of a rule that name nothing of a host: services (P3), modules (P4) and arguments (P7).
#![tactic(auto)]

mod arguments;
mod calls;
mod host;
pub mod laws;
mod modules;
mod placed;
mod services;
#[cfg(test)]
mod tests;
mod word;
mod words;

pub use calls::calls_in;
pub use host::{Call, Host};
pub(crate) use services::each_of;
pub use word::{Argument, Misnamed, Word};
pub use words::misnamed;

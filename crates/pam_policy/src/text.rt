//! The text of a policy file: from its bytes to its rules, or its first fault.
#![tactic(auto)]

mod codes;
mod ending;
mod error;
mod event;
pub mod laws;
mod list;
mod number;
mod place;
mod policy;
mod rule;
mod sentence;
mod services;
mod test;
#[cfg(test)]
mod tests;
mod words;

pub use codes::Codes;
pub(crate) use codes::failures;
pub use ending::Ending;
pub use error::{PolicyError, PolicyFault};
pub use event::Event;
pub(crate) use event::{is_name, without_so};
pub use list::{Events, MAX_TOGETHER};
pub use policy::{MAX_POLICY_BYTES, MAX_RULES, Policy};
pub use rule::Rule;
pub use sentence::{Condition, Sentence};
pub use services::Services;
pub use test::{Comparison, Test, Wanted, argument_key};

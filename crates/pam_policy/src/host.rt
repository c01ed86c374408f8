//! The rules of a policy at the stacks of a host: what these together say of a rule, and its findings.

mod answers;
mod checkers;
mod classes;
mod error;
mod finding;
mod finding_stacks;
mod idle;
pub mod laws;
mod place;
mod report;
mod spoken;
mod spoken_places;
mod stacks;
mod standing;
#[cfg(test)]
mod tests;
mod told;

pub use error::StacksError;
pub use finding::Finding;
pub use idle::Idle;
pub use place::{Place, Stacks};
pub use report::{ClassReport, RuleReport};
pub use spoken_places::SpokenPlaces;
pub use stacks::{ClassStack, HostPlace, HostSources, HostStacks, KnownStack, StackClass, Visitor};
pub use standing::Standing;

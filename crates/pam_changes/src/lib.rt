//! What changes from one configuration to another: for each service and kind, how its stack decides otherwise, whatever its
//! modules answer.
#![tactic(auto)]

mod changes;
mod counts;
mod digest;
mod guards;
mod known;
pub mod laws;
mod modules;
mod pair;
mod services;
mod sides;
mod stacks;
mod steps;

pub use changes::HostChanges;
pub use counts::{Counts, Verdict};
pub use guards::{Guard, GuardChanges, GuardingModule};
pub use modules::{MatchedPair, ModuleChanges};
pub use pair::{Decisions, Shown, ShownChanges, StackPair};
pub use services::ComparedService;
pub use sides::{Side, Sides};
pub use stacks::{ComparedStack, StackChange};
pub use steps::AskedModule;

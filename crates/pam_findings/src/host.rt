//! A whole host: every service and kind of a configuration, and what is wrong with it. Each line with a fault is found once,
//! however many stacks meet it.
#![tactic(auto)]

mod alone;
mod arguments;
mod beside;
mod callers;
mod causes;
mod closed;
mod cut_off;
mod faillock;
mod folder;
mod inside;
mod judging;
mod known_modules;
pub mod laws;
mod level;
mod links;
mod met;
mod missing_files;
mod modules;
mod names;
mod other_answers;
mod own;
mod problem;
mod readers;
mod refusing;
mod report;
mod row;
mod separators;
mod stacks;
mod storing;
mod table;
mod taking;
mod targets;
mod tokens;
mod unasked;
mod uncounted;
mod vendor;
mod walk;
mod way_in;

pub use links::is_outside;
pub use met::Met;
pub use missing_files::{Absence, may_name_file};
pub use pam_explain::Level;
pub use problem::{ArgumentProblem, Place, Problem, Spot};
pub use refusing::Refuser;
pub use report::{Finding, HostReport, Installed};
pub use way_in::{Answered, WayIn};

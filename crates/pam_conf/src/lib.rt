//! Reads the rules of PAM configuration files: pam.conf(5). Resolves the stack of a service by following the includes
//! and substacks of its rules. Or surveys it: goes on after each fault, and reports all of them.
#![tactic(auto)]

mod by_kind;
mod call;
mod conf_error;
mod error;
mod fault_word;
mod faults;
mod files;
mod kept;
pub mod laws;
mod lines;
mod listed;
mod name_list;
mod progress;
mod resolution;
mod rule;
mod rule_files;
mod service_names;
mod services;
mod sound;
mod stack;
mod survey;
mod trail;
mod walk;
mod wanted;
mod words;

pub use conf_error::ConfError;
pub use error::{FaultKind, RuleFault};
pub use fault_word::word_at_fault;
pub use files::Files;
pub use lines::rules;
pub use listed::Listed;
pub use name_list::NameList;
pub use pam_text::MAX_FILE_BYTES;
pub use resolution::resolve;
pub use rule::{Body, Form, Kind, Rule};
pub use rule_files::RuleFiles;
pub use service_names::{has_capital, is_left_over, is_service};
pub use services::{checked_services, named_services, services_in};
pub use sound::is_sound;
pub use stack::{Item, MAX_MODULES, Module, Stack, Sub};
pub use survey::Survey;
pub use trail::MAX_OPEN_FILES;
pub use walk::{Location, MAX_FOLLOWS};
pub use words::{Words, text_of};

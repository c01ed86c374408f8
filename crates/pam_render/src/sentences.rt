//! What is said of the problems of a host and its tables: what is wrong, and how to mend it; and the rules that hold of a stack, in
//! words. Each text that shows them takes its sentences from here.
#![tactic(auto)]

mod faults;
pub mod laws;
mod modules;
mod needs;
mod phrase;
mod policy;
mod problems;
mod refusals;
mod shown;
mod tables;

pub(crate) use faults::naming_for;
pub use faults::{Naming, dead_naming, naming_of, plain_sentence};
pub use modules::{UNTOLD_MODULE, naming_of_module};
pub use needs::{events_in, put_needed_rule};
pub use phrase::{Phrase, Phrases, put_phrases};
pub use policy::put_policy_said;
pub use problems::{
    UNUSED, argument_naming, idle_naming, level_name, problem_sentence, put_said, put_unused_said,
};
pub use refusals::refusal_sentence;
pub(crate) use shown::{byte_at, hidden_text, is_hidden, put_byte, three_bytes, two_bytes};
pub use shown::{MAX_SHOWN, put_name, put_name_within};
pub use tables::{put_table_said, table_fault_sentence, time_fault_sentence};

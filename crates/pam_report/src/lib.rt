//! The commands of `pamcheck`: from a request and its inputs to the reply, which is a value, and the exit status.
//! A request that has no reply gets the line and the exit status of its first fault.
#![tactic(auto)]

mod candidates;
mod fault;
mod inputs;
pub mod laws;
mod left;
mod names;
mod passwd;
mod report;
mod services;
mod tables;

pub use fault::{
    Fault, PolicyFileError, fault_status, fault_text, input_sentence, input_status, input_text,
    mistaken_text, refusal_text, usage_status, usage_text,
};
pub use inputs::{
    AccessFiles, CheckInputs, InputError, Inputs, KnowledgeInputs, ReadFault, SideInputs,
    TableFile, TableFiles,
};
pub use names::{kind_name, stack_of};
pub use pam_findings::host::may_name_file;
pub use passwd::with_primary_members;
pub use report::{
    AccessReply, AskedModule, CheckReply, CompareReply, GraphReply, JudgedPolicy, NeedsReply,
    Outcome, Outcomes, OutcomesReply, PageRenderer, PathsPage, PolicyReply, ReleasedReply, Reply,
    RunReply, StackReply, Status, Trace, UnusedLine, path_at, policy_level, policy_name,
    policy_number, policy_row, reply_to, unused_row,
};
pub use tables::TablePaths;

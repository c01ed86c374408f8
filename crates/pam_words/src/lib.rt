//! The command line of `pamcheck`: its commands and options, as a `clap` command, and the requests read from them.
//! Wrong words are refused with a `Usage`.
#![tactic(auto)]

mod argument_rows;
mod arguments;
mod commands;
mod examples;
mod mistake;
mod number;
mod reading;
mod wanted;
mod words;

pub use mistake::Mistake;
pub use reading::mistakes::find_mistake;
pub use reading::request;
pub use wanted::{
    Answers, Candidate, CheckFiles, CompareFiles, ConfSource, GraphFormat, KnowledgeSource,
    LevelName, Login, Moment, OutputForm, PagePart, PathFilter, ReleaseName, Request, TableNames,
    Task, Usage,
};
pub use words::version;

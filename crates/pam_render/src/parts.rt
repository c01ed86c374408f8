//! Parts of replies that all forms of an answer show, and the walks over their lines.
#![tactic(auto)]

mod changes;
mod check;
mod compared;
mod files;
mod findings;
mod items;
mod module_paths;
mod policy;
mod ways;
mod writes;

pub use changes::{
    change_name, compared_count, configuration_name, file_of, file_of_rule, is_grave, line_of_rule,
    occurrence, service_at,
};
pub use check::{
    Counts, Names, counts_of, names_of, path_of, spot_of, stacks_of, text_at, told_line, word_at,
};
pub use compared::{
    CompareLine, CompareLines, Configuration, DifferingStack, Head, RefusedStack, Side, StackOfOne,
    write_compared,
};
pub use files::name_at;
pub(crate) use findings::put_rest;
pub use findings::{CheckLine, CheckLines, FoundProblem, write_check};
pub use items::{RulePlace, StackHead, StackLine, StackLines, write_stacks};
pub use module_paths::ModulePaths;
pub use policy::{
    PolicyHost, PolicyLine, PolicyLines, ToldFinding, ToldRule, kind_of_place, service_of_place,
    write_policy,
};
pub use ways::UNCOUNTED;
pub use writes::with_write_fault;

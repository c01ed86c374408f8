//! The text of answers: each reply of `pam_report` is written as text, and nowhere else.
#![tactic(auto)]

mod about;
mod check;
mod compare;
mod decide;
mod drawing;
mod explain;
mod form;
mod header;
mod needs;
mod outcomes;
mod paths;
mod policy;
mod printing;
mod released;
mod show;
mod tables;
mod word;

pub(crate) use form::AsText;
pub use printing::{answer, print};

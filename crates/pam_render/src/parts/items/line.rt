//! The lines of a stack.

use pam_conf::{Files, Kind, Module, Sub};

/// A stack: its service, its kind and the number of its modules.
#[derive(Clone, Copy)]
pub struct StackHead<'x> {
    pub service: &'x str,
    pub kind: Kind,
    pub modules: usize,
}

/// The place of a rule: the files, and how deep in substacks it is.
#[derive(Clone, Copy)]
pub struct RulePlace<'x> {
    pub files: &'x Files,
    pub level: usize,
}

/// A line of a stack.
#[derive(Clone, Copy)]
pub enum StackLine<'x> {
    /// The first line.
    Head(StackHead<'x>),
    /// A module.
    Module(RulePlace<'x>, &'x Module),
    /// The rule of a substack.
    Sub(RulePlace<'x>, &'x Sub),
}

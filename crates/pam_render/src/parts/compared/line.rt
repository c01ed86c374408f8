//! The lines of a comparison.

use pam_changes::{Counts, GuardingModule, MatchedPair, Shown, StackPair};
use pam_conf::{ConfError, Files, Kind, Stack};

/// The service and the kind of a stack.
#[derive(Clone, Copy)]
pub struct Head<'x> {
    pub service: &'x [u8],
    pub kind: Kind,
}

/// What a configuration says of a service: its files, as far as they are given, and its first fault, none if it accepts
/// the service.
#[derive(Clone, Copy)]
pub struct Side<'x> {
    pub files: Option<&'x Files>,
    pub fault: &'x Option<ConfError>,
}

/// A stack that some configuration refuses, and what each says of its service.
#[derive(Clone, Copy)]
pub struct RefusedStack<'x> {
    pub head: Head<'x>,
    pub old: Side<'x>,
    pub new: Side<'x>,
}

/// A stack that is not the same in both configurations, as the stack of a service.
#[derive(Clone, Copy)]
pub struct DifferingStack<'x> {
    pub head: Head<'x>,
    pub pair: &'x StackPair,
}

/// One of the two configurations.
#[derive(Clone, Copy, Debug, PartialEq, Eq)]
pub enum Configuration {
    Old,
    New,
}

/// The stack of a service in one of the configurations, with its files, as far as they are given.
#[derive(Clone, Copy)]
pub struct StackOfOne<'x> {
    pub head: Head<'x>,
    pub configuration: Configuration,
    pub files: Option<&'x Files>,
    pub stack: &'x Stack,
}

/// A line of a comparison.
#[derive(Clone, Copy)]
pub enum CompareLine<'x> {
    /// A service that the old configuration alone has.
    OnlyInOld(&'x [u8]),
    /// A service that the new configuration alone has.
    OnlyInNew(&'x [u8]),
    /// A stack that some configuration refuses.
    Refused(RefusedStack<'x>),
    /// A stack with the same items as one that was shown before.
    As { head: Head<'x>, first: Head<'x> },
    /// Matched modules with other arguments.
    Arguments(DifferingStack<'x>, MatchedPair),
    /// What changes, `admits`, `refuses` or `tells`, and the two decisions.
    Change(DifferingStack<'x>, &'static [u8], &'x Shown),
    /// The same decisions, and what changes in the modules.
    Same(DifferingStack<'x>),
    /// Stacks that can be in too many situations.
    NotKnown(Head<'x>),
    /// A module that this stack alone has, and that guards a login.
    Guard(StackOfOne<'x>, GuardingModule),
    /// The last line: the number of stacks, and what changes in how many.
    Last { stacks: usize, counts: Counts },
}

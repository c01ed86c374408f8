//! How many stacks change.

ghost use Rattle.std.specs.Prelude.{◌≡◌};
ghost use Rattle.std.specs.List.{count_by};
ghost use Rattle.pam_changes.specs.Counts.{count_of, counts_of, only_in_one, same_verdict, verdict_of, verdict_of_decisions};

use crate::changes::HostChanges;
use crate::pair::{Decisions, StackPair};
use crate::services::ComparedService;
use crate::stacks::{ComparedStack, StackChange};

/// The verdict on a stack.
#[derive(Clone, Copy, Debug, PartialEq, Eq)]
pub enum Verdict {
    /// Neither configuration has rules for it.
    NoStack,
    Equal,
    /// Other modules, or the same in another order, but the same decisions, whatever they answer.
    SameDecisions,
    Changed,
    NotKnown,
    /// A configuration refuses it.
    Refused,
}

/// How many stacks change, and how many services only one configuration has.
#[derive(Clone, Copy, Debug, PartialEq, Eq)]
pub struct Counts {
    pub equal: usize,
    pub same_decisions: usize,
    pub changed: usize,
    pub not_known: usize,
    pub refused: usize,
    pub only_in_old: usize,
    pub only_in_new: usize,
}

impl StackPair {
    /// What is said of two stacks that are not the same.
    pub fn verdict(&self) -> Verdict
        ensures { result ≡ verdict_of_decisions self.now.decisions }
    {
        match &self.decisions {
            Decisions::NotKnown => Verdict::NotKnown,
            Decisions::Known(changes) => {
                if changes.admits.is_some()
                    || changes.refuses.is_some()
                    || changes.tells.is_some()
                {
                    Verdict::Changed
                } else {
                    Verdict::SameDecisions
                }
            }
        }
    }
}

/// Whether two verdicts are equal.
fn is_same(one: Verdict, other: Verdict) -> bool
    ensures { result ≡ same_verdict one other }
{
    one == other
}

/// The number of services that only the old configuration has, if `in_old`; else the number that only the new one has.
fn only_in(services: &[ComparedService], in_old: bool) -> usize
    ensures { result ≡ count_by (only_in_one in_old) services.now }
{
    let mut count = 0;
    for service in services {
        if is_only_in(service, in_old) {
            count += 1;
        }
    }
    count
}

fn is_only_in(service: &ComparedService, in_old: bool) -> bool
    ensures { result ≡ only_in_one in_old service.now }
{
    if in_old {
        service.in_old && !service.in_new
    } else {
        service.in_new && !service.in_old
    }
}

impl HostChanges {
    /// What is said of a stack.
    pub fn verdict(&self, stack: &ComparedStack) -> Verdict
        ensures { result ≡ verdict_of self.now.pairs.items stack.now.change }
    {
        match stack.change {
            StackChange::NoStack => Verdict::NoStack,
            StackChange::Refused { .. } => Verdict::Refused,
            StackChange::Same => Verdict::Equal,
            StackChange::Differs(position) => {
                if position < self.pairs.len() {
                    self.pairs[position].verdict()
                } else {
                    Verdict::NotKnown
                }
            }
        }
    }

    /// The number of stacks of which this is said.
    fn count(&self, verdict: Verdict) -> usize
        ensures { result ≡ count_of self.now.pairs.items self.now.stacks.items verdict }
    {
        let mut count = 0;
        for stack in &self.stacks {
            if is_same(self.verdict(stack), verdict) {
                count += 1;
            }
        }
        count
    }

    /// How many stacks change, and how many services only one configuration has.
    pub fn counts(&self) -> Counts
        ensures { result ≡ counts_of self.now }
    {
        Counts {
            equal: self.count(Verdict::Equal),
            same_decisions: self.count(Verdict::SameDecisions),
            changed: self.count(Verdict::Changed),
            not_known: self.count(Verdict::NotKnown),
            refused: self.count(Verdict::Refused),
            only_in_old: only_in(&self.services, true),
            only_in_new: only_in(&self.services, false),
        }
    }
}

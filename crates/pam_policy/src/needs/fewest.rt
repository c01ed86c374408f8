//! The fewest of some events that are needed together, and groups of them.

ghost use Rattle.std.specs.Prelude.{◌≡◌, ◌∷◌, ◌++◌, [], ◌↔◌, IfOk, IsTrue, OnOk, if◌then◌else◌, map};
ghost use Rattle.pam_paths.specs.Known.{may_answer};
ghost use Rattle.pam_policy.specs.host.Stacks.{known_site};
ghost use Rattle.pam_policy.specs.needs.Choices.{AreNeeded};
ghost use Rattle.pam_policy.specs.needs.Fewest.{AreFewest};
ghost use Rattle.pam_policy.specs.needs.Suggestions.{suggestion_view};
ghost use Rattle.pam_policy.specs.needs.inner.Adding.{AddsGroups};
ghost use Rattle.pam_policy.specs.search.Witness.{IsGraphOf};

use crate::needs::event::StackEvent;
use crate::needs::suggestion::Suggestion;
use crate::rules::Site;
use std::alloc::{AllocError, Global};

/// Events that stay, and those that are left out.
#[derive(Drop)]
pub(crate) struct Fewest {
    pub(crate) kept: Vec<StackEvent>,
    pub(crate) left: Vec<StackEvent>,
}

impl Fewest {
    /// Adds an event above the others: to those that are left out, or to those that stay.
    fn add(&mut self, is_left: bool, event: StackEvent) -> Result<(), AllocError>
        ensures kept { OnOk result (self.new.kept.items ≡ (if is_left then self.old.kept.items else event ∷ self.old.kept.items)) }
        ensures left { OnOk result (self.new.left.items ≡ (if is_left then event ∷ self.old.left.items else self.old.left.items)) }
    {
        if is_left {
            self.left.insert(0, event)?;
        } else {
            self.kept.insert(0, event)?;
        }
        Ok(())
    }
}

/// Events, and then others.
fn both(
    alloc: Global,
    events: &[StackEvent],
    others: &[StackEvent],
) -> Result<Vec<StackEvent>, AllocError>
    ensures { IfOk result (λ both. both.items ≡ events.now ++ others.now) }
{
    let mut both = Vec::from_slice(alloc, events)?;
    both.extend_from_slice(others)?;
    Ok(both)
}

impl Site<'_, '_> {
    /// Whether events and others are needed together.
    pub(crate) fn are_both_needed(
        &self,
        alloc: Global,
        events: &[StackEvent],
        others: &[StackEvent],
    ) -> Result<bool, AllocError>
        ensures { IsGraphOf (may_answer self.now.known.now) self.now.stack.now self.now.graph.now
            → IfOk result (λ are. IsTrue are ↔ AreNeeded (known_site self.now) (events.now ++ others.now)) }
    {
        let both = both(alloc, events, others)?;
        self.are_needed(alloc, &both)
    }

    /// The fewest of some events that are needed together beside others. Takes the time of a rule for each of them.
    pub(crate) fn fewest(
        &self,
        alloc: Global,
        others: &[StackEvent],
        some: &[StackEvent],
    ) -> Result<Fewest, AllocError>
        ensures { IsGraphOf (may_answer self.now.known.now) self.now.stack.now self.now.graph.now
            → IfOk result (λ fewest. AreFewest (AreNeeded (known_site self.now)) others.now some.now fewest.kept.items fewest.left.items) }
    {
        let mut fewest = Fewest {
            kept: Vec::new(alloc),
            left: Vec::new(alloc),
        };
        let mut count = some.len();
        while count > 0 {
            count -= 1;
            let before = both(alloc, others, some.split_at(count).0)?;
            let is_left = self.are_both_needed(alloc, &before, &fewest.kept)?;
            fewest.add(is_left, some[count])?;
        }
        Ok(fewest)
    }

    /// Adds a rule for each group of these events that are needed together.
    pub(crate) fn add_groups(
        &self,
        alloc: Global,
        vouching: &[StackEvent],
        rules: &mut Vec<Suggestion>,
    ) -> Result<(), AllocError>
        ensures { IsGraphOf (may_answer self.now.known.now) self.now.stack.now self.now.graph.now
            → OnOk result (AddsGroups (known_site self.now) vouching.now (map suggestion_view rules.old.items) (map suggestion_view rules.new.items)) }
    {
        let mut rest = Vec::from_slice(alloc, vouching)?;
        // A group has an event, so there are no more groups than events.
        for _turn in 0..vouching.len() {
            let are_needed = self.are_needed(alloc, &rest)?;
            if !are_needed {
                return Ok(());
            }
            let fewest = self.fewest(alloc, &[], &rest)?;
            rules.push(Suggestion::Needs(fewest.kept))?;
            rest = fewest.left;
        }
        Ok(())
    }
}

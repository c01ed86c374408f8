//! Names that are needed beside those that say who logs in.

ghost use Rattle.std.specs.Prelude.{◌≡◌, ◌≤◌, ◌++◌, IfOk, OnOk, length, map, nat_lt, not, option_to_list};
ghost use Rattle.std.specs.List.{prefix_len};
ghost use Rattle.std.specs.Option.{option_map};
ghost use Rattle.pam_paths.specs.Known.{may_answer};
ghost use Rattle.pam_policy.specs.host.Stacks.{known_site};
ghost use Rattle.pam_policy.specs.needs.Suggestions.{Needs, suggestion_view};
ghost use Rattle.pam_policy.specs.needs.inner.Adding.{AddsGuards, SaysGuard};
ghost use Rattle.pam_policy.specs.search.Witness.{IsGraphOf};

use crate::needs::event::StackEvent;
use crate::needs::suggestion::Suggestion;
use crate::rules::Site;
use std::alloc::{AllocError, Global};
use std::slice;

/// The position of an event among others in the order of their modules.
fn place_of(event: StackEvent, others: &[StackEvent]) -> usize
    ensures value { result ≡ prefix_len (λ other. not (nat_lt event.module other.module)) others.now }
    ensures bound { result ≤ length others.now }
{
    others
        .iter()
        .take_while(|other| !(event.module < other.module))
        .count()
}

/// Adds the rule for a group, if there is one.
fn add_found(found: Option<Vec<StackEvent>>, rules: &mut Vec<Suggestion>) -> Result<(), AllocError>
    ensures { OnOk result (map suggestion_view rules.new.items
        ≡ map suggestion_view rules.old.items ++ map Needs (option_to_list (option_map (λ group. group.items) found))) }
{
    if let Some(group) = found {
        rules.push(Suggestion::Needs(group))?;
    }
    Ok(())
}

impl Site<'_, '_> {
    /// The fewest of those who say who logs in that are needed together with a name, and are not without it; and the name among them.
    fn guard(
        &self,
        alloc: Global,
        vouching: &[StackEvent],
        event: StackEvent,
    ) -> Result<Option<Vec<StackEvent>>, AllocError>
        ensures { IsGraphOf (may_answer self.now.known.now) self.now.stack.now self.now.graph.now
            → IfOk result (λ found. SaysGuard (known_site self.now) vouching.now event (option_map (λ group. group.items) found)) }
    {
        let alone = slice::from_ref(&event);
        let together = self.are_both_needed(alloc, alone, vouching)?;
        if !together {
            return Ok(None);
        }
        let fewest = self.fewest(alloc, alone, vouching)?;
        let without = self.are_needed(alloc, &fewest.kept)?;
        if without {
            return Ok(None);
        }
        let mut group = fewest.kept;
        let place = place_of(event, &group);
        group.insert(place, event)?;
        Ok(Some(group))
    }

    /// Adds a rule for each of these names that is needed so.
    pub(crate) fn add_guards(
        &self,
        alloc: Global,
        vouching: &[StackEvent],
        guarding: &[StackEvent],
        rules: &mut Vec<Suggestion>,
    ) -> Result<(), AllocError>
        ensures { IsGraphOf (may_answer self.now.known.now) self.now.stack.now self.now.graph.now
            → OnOk result (AddsGuards (known_site self.now) vouching.now guarding.now (map suggestion_view rules.old.items)
            (map suggestion_view rules.new.items)) }
    {
        for event in guarding {
            let found = self.guard(alloc, vouching, *event)?;
            add_found(found, rules)?;
        }
        Ok(())
    }
}

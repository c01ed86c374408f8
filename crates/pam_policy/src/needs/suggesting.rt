//! The rules that hold of a stack, in their order.

ghost use Rattle.std.specs.Prelude.{◌≡◌, ◌++◌, IfOk, OnOk, map};
ghost use Rattle.std.specs.Option.{option_map};
ghost use Rattle.pam_paths.specs.Known.{may_answer};
ghost use Rattle.pam_policy.specs.host.Stacks.{known_site};
ghost use Rattle.pam_policy.specs.needs.Suggestions.{AreSuggestions, SaysRules, rule_about, suggestion_view};
ghost use Rattle.pam_policy.specs.needs.inner.Adding.{AddsChosen};
ghost use Rattle.pam_policy.specs.search.Witness.{IsGraphOf};

use crate::needs::choices::Choice;
use crate::needs::event::StackEvent;
use crate::needs::events::events_of;
use crate::needs::suggestion::Suggestion;
use crate::rules::Site;
use std::alloc::{AllocError, Global};

/// The rule about an event that is chosen.
fn rule_about(alloc: Global, choice: Choice, event: StackEvent) -> Result<Suggestion, AllocError>
    ensures { IfOk result (λ rule. suggestion_view rule ≡ rule_about choice event) }
{
    match choice {
        Choice::Obeyed => Ok(Suggestion::Obeys(event)),
        Choice::AskedOnWayIn => Ok(Suggestion::NeedsAsked(event)),
        Choice::AlwaysAsked => Ok(Suggestion::AlwaysAsks(event)),
        Choice::Needed | Choice::Vouching | Choice::Guarding => {
            let one = vec![in alloc; event]?;
            Ok(Suggestion::Needs(one))
        }
    }
}

/// Adds a rule about each of these events.
fn add_each(
    alloc: Global,
    choice: Choice,
    chosen: &[StackEvent],
    rules: &mut Vec<Suggestion>,
) -> Result<(), AllocError>
    ensures { OnOk result (map suggestion_view rules.new.items ≡ map suggestion_view rules.old.items ++ map (rule_about choice) chosen.now) }
{
    for event in chosen {
        rules.push(rule_about(alloc, choice, *event)?)?;
    }
    Ok(())
}

impl Site<'_, '_> {
    /// Adds a rule about each of some events that is chosen.
    fn add_chosen(
        &self,
        alloc: Global,
        choice: Choice,
        events: &[StackEvent],
        rules: &mut Vec<Suggestion>,
    ) -> Result<(), AllocError>
        ensures { IsGraphOf (may_answer self.now.known.now) self.now.stack.now self.now.graph.now
            → OnOk result (AddsChosen (known_site self.now) choice events.now (map suggestion_view rules.old.items) (map suggestion_view rules.new.items)) }
    {
        let chosen = self.chosen(alloc, choice, events)?;
        add_each(alloc, choice, &chosen, rules)
    }

    /// The rules that hold of a stack.
    fn rules(&self, alloc: Global) -> Result<Vec<Suggestion>, AllocError>
        ensures { IsGraphOf (may_answer self.now.known.now) self.now.stack.now self.now.graph.now
            → IfOk result (λ rules. AreSuggestions (known_site self.now) (map suggestion_view rules.items)) }
    {
        let events = events_of(alloc, self.stack)?;
        let mut rules = Vec::new(alloc);
        self.add_chosen(alloc, Choice::Needed, &events, &mut rules)?;
        let vouching = self.chosen(alloc, Choice::Vouching, &events)?;
        self.add_groups(alloc, &vouching, &mut rules)?;
        let guarding = self.chosen(alloc, Choice::Guarding, &events)?;
        self.add_guards(alloc, &vouching, &guarding, &mut rules)?;
        self.add_chosen(alloc, Choice::Obeyed, &events, &mut rules)?;
        self.add_chosen(alloc, Choice::AskedOnWayIn, &events, &mut rules)?;
        self.add_chosen(alloc, Choice::AlwaysAsked, &events, &mut rules)?;
        Ok(rules)
    }
}

/// The rules that hold of a stack and say something of it, in their order; `None` if no answers let anybody in.
/// `site.graph` is that of the stack's runs under `site.known`.
///
/// Judges a few rules for each event; and one for each name that is left, for each group of names that are needed together and for
/// each name that is needed beside those that say who logs in. Each takes time linear in the graph.
pub fn suggestions(
    alloc: Global,
    site: &Site<'_, '_>,
) -> Result<Option<Vec<Suggestion>>, AllocError>
    ensures { IsGraphOf (may_answer site.now.known.now) site.now.stack.now site.now.graph.now
        → IfOk result (λ found. SaysRules (known_site site.now) (option_map (λ rules. map suggestion_view rules.items) found)) }
{
    let is_closed = site.has_no_way_in(alloc)?;
    if is_closed {
        return Ok(None);
    }
    let rules = site.rules(alloc)?;
    Ok(Some(rules))
}

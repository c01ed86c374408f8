//! Which events of a stack are chosen for which rules.

ghost use Rattle.std.specs.Prelude.{◌≡◌, ◌↔◌, ◌∷◌, ◌++◌, [], IfOk, IsTrue, OnOk, if◌then◌else◌};
ghost use Rattle.std.specs.List.{list_any};
ghost use Rattle.pam_paths.specs.Known.{may_answer};
ghost use Rattle.pam_policy.specs.declared.needs.choices.Choice.TheVariants.{AskedOnWayIn, Guarding};
ghost use Rattle.pam_policy.specs.host.Stacks.{known_site};
ghost use Rattle.pam_policy.specs.needs.Choices.{IsChosen, IsLeft, IsSaid, IsSaidFirst, is_auth, is_class_vouching, is_vouching, is_vouching_at};
ghost use Rattle.pam_policy.specs.needs.Events.{module_numbers};
ghost use Rattle.pam_policy.specs.needs.Fewest.{AreThose};
ghost use Rattle.pam_policy.specs.rules.Site.{site_view};
ghost use Rattle.pam_policy.specs.search.Witness.{IsGraphOf};

use crate::needs::event::StackEvent;
use crate::needs::events::is_said;
use crate::needs::sentences::Verb;
use crate::rules::Site;
use pam_conf::Kind;
use pam_facts::Class;
use std::alloc::{AllocError, Global};

/// What an event is chosen for.
#[derive(Clone, Copy, Debug, PartialEq, Eq)]
pub(crate) enum Choice {
    /// `needs E` holds.
    Needed,
    /// A name that is not needed by itself, and says who logs in. In other kinds than `auth` all names do.
    Vouching,
    /// Another such name, which is obeyed and can fail.
    Guarding,
    /// `obeys E` holds; it can fail, and do something else.
    Obeyed,
    /// `needs E=any` holds, and no rule says more of it.
    AskedOnWayIn,
    /// `always asks E` holds.
    AlwaysAsked,
}

fn is_class_vouching(class: Class) -> bool
    ensures { result ≡ is_class_vouching class }
{
    matches!(class, Class::Checks | Class::Ignores)
}

fn is_auth(kind: Kind) -> bool
    ensures { result ≡ is_auth kind }
{
    matches!(kind, Kind::Auth)
}

/// Adds an event, if it is chosen.
fn add_if(
    is_chosen: bool,
    event: StackEvent,
    chosen: &mut Vec<StackEvent>,
) -> Result<(), AllocError>
    ensures { OnOk result (chosen.new.items ≡ (if is_chosen then chosen.old.items ++ event ∷ [] else chosen.old.items)) }
{
    if is_chosen {
        chosen.push(event)?;
    }
    Ok(())
}

impl Site<'_, '_> {
    /// Whether a module has a name and says who logs in.
    fn is_any_vouching(&self, name: &[u8]) -> bool
        ensures { result ≡ list_any (is_vouching_at (site_view self.now) name.now) (module_numbers self.now.stack.now) }
    {
        (1..self.stack.modules() + 1).any(|number| self.is_vouching_at(name, number))
    }

    /// Whether the module with this number has a name and says who logs in.
    #[tactic(auto, unfolding(crate::specs::needs::Choices::is_vouching_at))]
    fn is_vouching_at(&self, name: &[u8], number: usize) -> bool
        ensures { result ≡ is_vouching_at (site_view self.now) name.now number }
    {
        match self.stack.module(number) {
            Some(module) => {
                is_said(name, &module.path)
                    && is_class_vouching(self.facts.of(&module.path, &module.arguments).class)
            }
            None => false,
        }
    }

    /// Whether the name of an event says who logs in.
    #[tactic(auto, unfolding(crate::specs::needs::Choices::is_vouching))]
    fn is_vouching(&self, event: StackEvent) -> bool
        ensures { result ≡ is_vouching (site_view self.now) event }
    {
        !is_auth(self.kind) || self.is_any_vouching(event.name(self.stack))
    }

    /// Whether a rule of a verb about an event is worth saying.
    fn is_said(&self, alloc: Global, verb: Verb, event: StackEvent) -> Result<bool, AllocError>
        ensures { IsGraphOf (may_answer self.now.known.now) self.now.stack.now self.now.graph.now
            → IfOk result (λ is. IsTrue is ↔ IsSaid (known_site self.now) verb event) }
    {
        match verb {
            Verb::Obeys => {
                let is_obeyed = self.is_obeyed(alloc, event)?;
                if !is_obeyed {
                    return Ok(false);
                }
                self.may_not_fail(alloc, event)
            }
            Verb::Needs => self.says(alloc, verb, event),
            Verb::NeedsAsked => self.says(alloc, verb, event),
            Verb::AlwaysAsks => self.says(alloc, verb, event),
        }
    }

    /// The same, with an argument only where it is not said of the name alone.
    fn is_said_first(
        &self,
        alloc: Global,
        verb: Verb,
        event: StackEvent,
    ) -> Result<bool, AllocError>
        ensures { IsGraphOf (may_answer self.now.known.now) self.now.stack.now self.now.graph.now
            → IfOk result (λ is. IsTrue is ↔ IsSaidFirst (known_site self.now) verb event) }
    {
        let is = self.is_said(alloc, verb, event)?;
        if !is {
            return Ok(false);
        }
        if event.argument.is_some() {
            let is_bare = self.is_said(alloc, verb, event.bare())?;
            return Ok(!is_bare);
        }
        Ok(true)
    }

    /// Whether an event is a name that is not needed by itself.
    fn is_left(&self, alloc: Global, event: StackEvent) -> Result<bool, AllocError>
        ensures { IsGraphOf (may_answer self.now.known.now) self.now.stack.now self.now.graph.now
            → IfOk result (λ is. IsTrue is ↔ IsLeft (known_site self.now) event) }
    {
        if event.argument.is_some() {
            return Ok(false);
        }
        let is_needed = self.says(alloc, Verb::Needs, event)?;
        Ok(!is_needed)
    }

    /// Whether such a name does not say who logs in, is obeyed and can fail.
    fn is_guarding(&self, alloc: Global, event: StackEvent) -> Result<bool, AllocError>
        ensures { IsGraphOf (may_answer self.now.known.now) self.now.stack.now self.now.graph.now
            → IfOk result (λ is. IsTrue is ↔ IsChosen (known_site self.now) Guarding event) }
    {
        if self.is_vouching(event) {
            return Ok(false);
        }
        let is_left = self.is_left(alloc, event)?;
        if !is_left {
            return Ok(false);
        }
        self.is_obeyed(alloc, event)
    }

    /// Whether an event is asked on each way in, and no other rule says so.
    fn is_asked_on_way_in(&self, alloc: Global, event: StackEvent) -> Result<bool, AllocError>
        ensures { IsGraphOf (may_answer self.now.known.now) self.now.stack.now self.now.graph.now
            → IfOk result (λ is. IsTrue is ↔ IsChosen (known_site self.now) AskedOnWayIn event) }
    {
        let is_asked = self.is_said_first(alloc, Verb::NeedsAsked, event)?;
        if !is_asked {
            return Ok(false);
        }
        let is_needed = self.is_said_first(alloc, Verb::Needs, event)?;
        if is_needed {
            return Ok(false);
        }
        let is_always = self.is_said_first(alloc, Verb::AlwaysAsks, event)?;
        Ok(!is_always)
    }

    /// Whether an event is chosen.
    fn is_chosen(
        &self,
        alloc: Global,
        choice: Choice,
        event: StackEvent,
    ) -> Result<bool, AllocError>
        ensures { IsGraphOf (may_answer self.now.known.now) self.now.stack.now self.now.graph.now
            → IfOk result (λ is. IsTrue is ↔ IsChosen (known_site self.now) choice event) }
    {
        match choice {
            Choice::Needed => self.is_said_first(alloc, Verb::Needs, event),
            Choice::Vouching => {
                if !self.is_vouching(event) {
                    return Ok(false);
                }
                self.is_left(alloc, event)
            }
            Choice::Guarding => self.is_guarding(alloc, event),
            Choice::Obeyed => self.is_said_first(alloc, Verb::Obeys, event),
            Choice::AskedOnWayIn => self.is_asked_on_way_in(alloc, event),
            Choice::AlwaysAsked => self.is_said_first(alloc, Verb::AlwaysAsks, event),
        }
    }

    /// Those of some events that are chosen.
    pub(crate) fn chosen(
        &self,
        alloc: Global,
        choice: Choice,
        events: &[StackEvent],
    ) -> Result<Vec<StackEvent>, AllocError>
        ensures { IsGraphOf (may_answer self.now.known.now) self.now.stack.now self.now.graph.now
            → IfOk result (λ chosen. AreThose (IsChosen (known_site self.now) choice) events.now chosen.items) }
    {
        let mut chosen = Vec::new(alloc);
        for event in events {
            let is_chosen = self.is_chosen(alloc, choice, *event)?;
            add_if(is_chosen, *event, &mut chosen)?;
        }
        Ok(chosen)
    }
}

//! The sentences of a policy about the events of a stack, and whether they hold.

ghost use Rattle.std.specs.Prelude.{◌≡◌, ◌↔◌, ◌∷◌, [], IfOk, IsTrue, None, map};
ghost use Rattle.pam_paths.specs.Known.{may_answer};
ghost use Rattle.pam_policy.specs.host.Stacks.{known_site};
ghost use Rattle.pam_policy.specs.needs.Choices.{AreNeeded, CanFail, Holds, MayAnswer, MayNotFail, NoWayIn, SaysOf, sentence_about};
ghost use Rattle.pam_policy.specs.declared.needs.sentences.Verb.TheVariants.{Obeys};
ghost use Rattle.pam_policy.specs.declared.text.codes.Codes.TheVariants.{LetsGoOn};
ghost use Rattle.pam_policy.specs.needs.Events.{event_text};
ghost use Rattle.pam_policy.specs.needs.inner.Adding.{IsNever, is_unbroken};
ghost use Rattle.pam_policy.specs.rules.Idle.{CanHappen};
ghost use Rattle.pam_policy.specs.rules.Site.{site_view};
ghost use Rattle.pam_policy.specs.search.Witness.{IsGraphOf};
ghost use Rattle.pam_policy.specs.text.Codes.{all_but, failures};
ghost use Rattle.pam_policy.specs.text.Events.{event_view};
ghost use Rattle.pam_policy.specs.text.Lists.{OneOf, events_view};
ghost use Rattle.pam_policy.specs.text.Sentences.{asked, needing, obeying, sentence_view};

use crate::needs::event::StackEvent;
use crate::rules::{Site, Verdict, can_happen, judge};
use crate::text::{Codes, Condition, Ending, Event, Events, Sentence, failures};
use pam_codes::CodeSet;
use pam_conf::Stack;
use pam_paths::Knowledge;
use std::alloc::{AllocError, Global};

/// The form of a sentence about one event.
#[derive(Clone, Copy, Debug, PartialEq, Eq)]
pub(crate) enum Verb {
    /// `needs E`
    Needs,
    /// `obeys E`
    Obeys,
    /// `needs E=any`
    NeedsAsked,
    /// `always asks E`
    AlwaysAsks,
}

/// `needs` these events.
fn needing(events: Events<'_>) -> Sentence<'_>
    ensures { sentence_view result ≡ needing (events_view events.entry) }
{
    Sentence::Never(Condition {
        ending: Ending::Succeeds,
        with: None,
        without: Some(events),
    })
}

/// `obeys` these events.
fn obeying(events: Events<'_>) -> Sentence<'_>
    ensures { sentence_view result ≡ obeying (events_view events.entry) }
{
    Sentence::Never(Condition {
        ending: Ending::Succeeds,
        with: Some(events.one_of()),
        without: None,
    })
}

/// `always asks` these events.
fn asking(events: Events<'_>) -> Sentence<'_>
    ensures { sentence_view result ≡ asked (events_view events.entry) None }
{
    Sentence::Never(Condition {
        ending: Ending::Ends,
        with: None,
        without: Some(events),
    })
}

/// The codes that are no failures.
fn other_codes() -> CodeSet
    ensures { result ≡ all_but failures }
{
    CodeSet::all().without(failures())
}

/// One event, by these codes.
fn one<'a>(
    alloc: Global,
    stack: &'a Stack,
    codes: Codes,
    event: StackEvent,
) -> Result<Events<'a>, AllocError>
    ensures { IfOk result (λ events. events_view events ≡ OneOf (event_text stack.now codes event ∷ [])) }
{
    let mut events = Vec::new(alloc);
    events.push(event.event(alloc, stack, codes)?)?;
    Ok(Events::Or(events))
}

/// The sentence of a verb about an event.
#[tactic(auto, unfolding(crate::specs::needs::Choices::sentence_about))]
fn sentence_about<'a>(
    alloc: Global,
    stack: &'a Stack,
    verb: Verb,
    event: StackEvent,
) -> Result<Sentence<'a>, AllocError>
    ensures { IfOk result (λ sentence. sentence_view sentence ≡ sentence_about stack.now verb event) }
{
    match verb {
        Verb::Needs => {
            let events = one(alloc, stack, Codes::LetsGoOn, event)?;
            Ok(needing(events))
        }
        Verb::Obeys => {
            let events = one(alloc, stack, Codes::Given(failures()), event)?;
            Ok(obeying(events))
        }
        Verb::NeedsAsked => {
            let events = one(alloc, stack, Codes::Given(CodeSet::all()), event)?;
            Ok(needing(events))
        }
        Verb::AlwaysAsks => {
            let events = one(alloc, stack, Codes::Given(CodeSet::all()), event)?;
            Ok(asking(events))
        }
    }
}

/// These events, of which one is to let go on.
fn any_of<'a>(
    alloc: Global,
    stack: &'a Stack,
    events: &[StackEvent],
) -> Result<Vec<Event<'a>>, AllocError>
    ensures { IfOk result (λ those. map event_view those.items ≡ map (event_text stack.now LetsGoOn) events.now) }
{
    let mut those = Vec::new(alloc);
    for event in events {
        those.push(event.event(alloc, stack, Codes::LetsGoOn)?)?;
    }
    Ok(those)
}

/// Whether no answers break a rule.
fn is_unbroken(verdict: &Verdict) -> bool
    ensures { result ≡ is_unbroken verdict.now }
{
    matches!(verdict, Verdict::Holds)
}

impl Site<'_, '_> {
    /// Whether nothing breaks a sentence of what is never to be.
    ///
    /// None of these sentences joins more than four events by `and` after `with`, so want of memory is the only reason not to judge it.
    fn holds(&self, alloc: Global, sentence: &Sentence<'_>) -> Result<bool, AllocError>
        ensures { IsNever (sentence_view sentence.now)
            → IsGraphOf (may_answer self.now.known.now) self.now.stack.now self.now.graph.now
            → IfOk result (λ holds. IsTrue holds ↔ Holds (known_site self.now) (sentence_view sentence.now)) }
    {
        match judge(alloc, self, sentence) {
            Ok(verdict) => Ok(is_unbroken(&verdict)),
            Err(_) => Err(AllocError),
        }
    }

    /// Whether the events of a sentence can happen.
    fn can_fail(&self, alloc: Global, sentence: &Sentence<'_>) -> Result<bool, AllocError>
        ensures { IsGraphOf (may_answer self.now.known.now) self.now.stack.now self.now.graph.now
            → IfOk result (λ can. IsTrue can ↔ CanHappen (may_answer self.now.known.now) (site_view self.now) (sentence_view sentence.now)) }
    {
        match can_happen(alloc, self, sentence) {
            Ok(can) => Ok(can),
            Err(_) => Err(AllocError),
        }
    }

    /// Whether a module of which an event speaks may give one of its answers, asked or not.
    fn may_answer(&self, event: &Event<'_>) -> bool
        ensures { IsTrue result ↔ MayAnswer (known_site self.now) (event_view event.now) }
    {
        for index in 0..self.stack.modules() {
            let codes = self.event_answers(event, false, index + 1);
            if codes.meets(self.known.allowed(index + 1)) {
                return true;
            }
        }
        false
    }

    /// Whether an event can do something else than fail.
    pub(crate) fn may_not_fail(&self, alloc: Global, event: StackEvent) -> Result<bool, AllocError>
        ensures { IfOk result (λ may. IsTrue may ↔ MayNotFail (known_site self.now) event) }
    {
        let other = event.event(alloc, self.stack, Codes::Given(other_codes()))?;
        Ok(self.may_answer(&other))
    }

    /// Whether the sentence of a verb about an event holds.
    pub(crate) fn says(
        &self,
        alloc: Global,
        verb: Verb,
        event: StackEvent,
    ) -> Result<bool, AllocError>
        ensures { IsGraphOf (may_answer self.now.known.now) self.now.stack.now self.now.graph.now
            → IfOk result (λ says. IsTrue says ↔ SaysOf (known_site self.now) verb event) }
    {
        let sentence = sentence_about(alloc, self.stack, verb, event)?;
        self.holds(alloc, &sentence)
    }

    /// Whether an event is obeyed and can fail.
    pub(crate) fn is_obeyed(&self, alloc: Global, event: StackEvent) -> Result<bool, AllocError>
        ensures { IsGraphOf (may_answer self.now.known.now) self.now.stack.now self.now.graph.now
            → IfOk result (λ is. IsTrue is ↔ (SaysOf (known_site self.now) Obeys event × CanFail (known_site self.now) event)) }
    {
        let sentence = sentence_about(alloc, self.stack, Verb::Obeys, event)?;
        let holds = self.holds(alloc, &sentence)?;
        if !holds {
            return Ok(false);
        }
        self.can_fail(alloc, &sentence)
    }

    /// Whether some events are needed together.
    pub(crate) fn are_needed(
        &self,
        alloc: Global,
        events: &[StackEvent],
    ) -> Result<bool, AllocError>
        ensures { IsGraphOf (may_answer self.now.known.now) self.now.stack.now self.now.graph.now
            → IfOk result (λ are. IsTrue are ↔ AreNeeded (known_site self.now) events.now) }
    {
        if events.is_empty() {
            return Ok(false);
        }
        let those = any_of(alloc, self.stack, events)?;
        self.holds(alloc, &needing(Events::Or(those)))
    }

    /// Whether no answers let anybody in.
    pub(crate) fn has_no_way_in(&self, alloc: Global) -> Result<bool, AllocError>
        ensures { IsGraphOf (may_answer self.now.known.now) self.now.stack.now self.now.graph.now
            → IfOk result (λ none. IsTrue none ↔ NoWayIn (known_site self.now)) }
    {
        let sentence = Sentence::Never(Condition {
            ending: Ending::Succeeds,
            with: None,
            without: None,
        });
        self.holds(alloc, &sentence)
    }
}

//! Lists of events.

ghost use Rattle.std.specs.Prelude.{◌≡◌, ◌∷◌, [], length, map, option_map};
ghost use Rattle.pam_policy.specs.text.Events.{event_view};
ghost use Rattle.pam_policy.specs.text.Lists.{events_in, events_of, events_view, goes_on, joint_before, joint_of, one_of};
ghost use Rattle.pam_policy.specs.text.inner.Error.{GivesPart};
ghost use Rattle.pam_policy.specs.text.inner.Lists.{next_event, next_joint};

use crate::text::error::PolicyFault;
use crate::text::event::Event;
use crate::text::place::{Joint, Place};
use crate::text::words::Words;
use std::alloc::Global;

/// The greatest number of events that are joined by `and` after `with`, `never asks` and `can ask`.
pub const MAX_TOGETHER: usize = 4;

/// Events of which one has to happen, or each. There is at least one.
#[derive(Drop)]
pub enum Events<'a> {
    Or(Vec<Event<'a>>),
    And(Vec<Event<'a>>),
}

/// The joint that a word is.
fn joint_of(word: &[u8]) -> Option<Joint>
    ensures { result ≡ joint_of word.now }
{
    if word == b"or".as_slice() {
        Some(Joint::Or)
    } else if word == b"and".as_slice() {
        Some(Joint::And)
    } else {
        None
    }
}

/// The joint that comes next, if one does.
fn next_joint(words: &Words<'_>) -> Option<Joint>
    ensures { result ≡ next_joint words.now }
{
    joint_of(words.peek()?)
}

/// The joint of a list whose first event is taken.
fn list_joint(words: &Words<'_>) -> Joint
    ensures { result ≡ joint_before words.now }
{
    match next_joint(words) {
        Some(joint) => joint,
        None => Joint::Or,
    }
}

/// Whether a list goes on after an event, where the next word is this joint, if it is one.
fn goes_on(place: Place, joint: Joint, next: Option<Joint>) -> Result<bool, PolicyFault>
    ensures { result ≡ goes_on place joint next }
{
    match next {
        None => Ok(false),
        Some(found) => {
            if found == joint && place.allows(joint) {
                Ok(true)
            } else {
                Err(PolicyFault::BadList)
            }
        }
    }
}

/// Takes a joint and an event, and adds the event. Returns `false` if the list is at its end.
#[tactic(auto, unfolding(crate::specs::text::inner::Lists::next_event))]
fn read_joined<'a>(
    alloc: Global,
    place: Place,
    joint: Joint,
    words: &mut Words<'a>,
    events: &mut Vec<Event<'a>>,
) -> Result<bool, PolicyFault>
    ensures { GivesPart (λ more. (more, (map event_view events.new.items, words.new))) result
        (next_event place joint (map event_view events.old.items) words.old) }
{
    if !goes_on(place, joint, next_joint(words))? {
        return Ok(false);
    }
    words.next()?;
    let event = Event::read(alloc, place.bare_codes(), words.next()?)?;
    if !place.has_room(joint, events.len()) {
        return Err(PolicyFault::BadList);
    }
    events.push(event)?;
    Ok(true)
}

impl<'a> Events<'a> {
    /// Takes a list.
    pub(crate) fn read(
        alloc: Global,
        place: Place,
        words: &mut Words<'a>,
    ) -> Result<Events<'a>, PolicyFault>
        ensures { GivesPart (λ events. (events_view events, words.new)) result (events_of place words.old) }
    {
        let word = words.next()?;
        let first = Event::read(alloc, place.bare_codes(), word)?;
        let joint = list_joint(words);
        let mut events = Vec::new(alloc);
        events.push(first)?;
        'joined: while read_joined(alloc, place, joint, words, &mut events)? {}
        match joint {
            Joint::Or => Ok(Events::Or(events)),
            Joint::And => Ok(Events::And(events)),
        }
    }

    /// The same events, of which one has to happen.
    pub(crate) fn one_of(self) -> Events<'a>
        ensures { events_view result ≡ one_of (events_view self.entry) }
    {
        match self {
            Events::Or(events) | Events::And(events) => Events::Or(events),
        }
    }

    /// The events, in the order of the words.
    pub fn events(&self) -> &[Event<'a>]
        ensures { map event_view result.now ≡ events_in (events_view self.now) }
    {
        match self {
            Events::Or(events) | Events::And(events) => events.as_slice(),
        }
    }
}

//! The events of a rule, in the order of its words.

ghost use Rattle.std.specs.Prelude.{◌≡◌, ◌++◌, IfOk, OnOk, map};
ghost use Rattle.std.specs.Option.{option_map};
ghost use Rattle.pam_policy.specs.names.Placed.{placed as placed_as, placed_events, placed_in, placed_view, speaks_of};
ghost use Rattle.pam_policy.specs.text.Events.{event_view};
ghost use Rattle.pam_policy.specs.text.Lists.{events_view};
ghost use Rattle.pam_policy.specs.text.Sentences.{sentence_view};

use crate::text::{Event, Events, Sentence};
use std::alloc::{AllocError, Global};

/// An event in its sentence.
#[derive(Clone, Copy)]
pub(crate) struct PlacedEvent<'a> {
    pub event: &'a Event<'a>,
    /// Whether only modules of the system count.
    pub is_strict: bool,
}

/// Appends these events.
fn push_each<'a>(
    placed: &mut Vec<PlacedEvent<'a>>,
    is_strict: bool,
    events: &'a [Event<'a>],
) -> Result<(), AllocError>
    ensures { OnOk result (map placed_view placed.new.items
        ≡ map placed_view placed.old.items ++ map (placed_as is_strict) (map event_view events.now)) }
{
    for event in events {
        placed.push(PlacedEvent { event, is_strict })?;
    }
    Ok(())
}

/// Appends the events of a list, if there is one.
fn push_events<'a>(
    placed: &mut Vec<PlacedEvent<'a>>,
    is_strict: bool,
    events: Option<&'a Events<'a>>,
) -> Result<(), AllocError>
    ensures { OnOk result (map placed_view placed.new.items
        ≡ map placed_view placed.old.items ++ placed_in is_strict (option_map (λ list. events_view list.now) events.entry)) }
{
    match events {
        Some(events) => push_each(placed, is_strict, events.events()),
        None => Ok(()),
    }
}

/// The events of a sentence, in the order of its words.
#[tactic(auto, unfolding(crate::specs::names::Placed::placed_events))]
pub(crate) fn placed_events<'a>(
    alloc: Global,
    sentence: &'a Sentence<'a>,
) -> Result<Vec<PlacedEvent<'a>>, AllocError>
    ensures { IfOk result (λ placed. map placed_view placed.items ≡ placed_events (sentence_view sentence.now)) }
{
    let mut placed = Vec::new(alloc);
    match sentence {
        Sentence::Never(condition) => {
            push_events(&mut placed, false, condition.with.as_ref())?;
            push_events(&mut placed, true, condition.without.as_ref())?;
        }
        Sentence::Can(condition) => {
            push_events(&mut placed, true, condition.with.as_ref())?;
            push_events(&mut placed, false, condition.without.as_ref())?;
        }
        Sentence::Before(first, later) => {
            push_events(&mut placed, true, Some(first))?;
            push_events(&mut placed, false, Some(later))?;
        }
    }
    Ok(placed)
}

impl PlacedEvent<'_> {
    /// Whether the event speaks of the module at a path.
    pub(crate) fn speaks_of(&self, path: &[u8]) -> bool
        ensures { result ≡ speaks_of (placed_view self.now) path.now }
    {
        self.event.names(path, self.is_strict)
    }
}

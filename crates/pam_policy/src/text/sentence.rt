//! Sentences: what a rule demands of a stack.

ghost use Rattle.std.specs.Prelude.{◌≡◌, option_map};
ghost use Rattle.pam_policy.specs.text.Lists.{events_view};
ghost use Rattle.pam_policy.specs.text.Sentences.{always, asking, asking_condition, completed, condition_of, condition_view, ending_condition};
ghost use Rattle.pam_policy.specs.text.Sentences.{events_after, loose_events, needing_read, obeying_read};
ghost use Rattle.pam_policy.specs.text.Sentences.{sentence_decisions, sentence_of, sentence_view, strict_events};
ghost use Rattle.pam_policy.specs.text.inner.Error.{GivesPart};

use crate::text::ending::Ending;
use crate::text::error::PolicyFault;
use crate::text::list::Events;
use crate::text::place::Place;
use crate::text::words::Words;
use pam_codes::CodeSet;
use pam_conf::Kind;
use std::alloc::Global;

/// How a stack ends, with some events and without others.
#[derive(Drop)]
pub struct Condition<'a> {
    pub ending: Ending,
    /// The events that happen, if the sentence says which.
    pub with: Option<Events<'a>>,
    /// The events that do not happen, if the sentence says which.
    pub without: Option<Events<'a>>,
}

/// What a rule demands of a stack.
#[derive(Drop)]
pub enum Sentence<'a> {
    /// No answers of the modules meet the condition.
    Never(Condition<'a>),
    /// Some answers of the modules do.
    Can(Condition<'a>),
    /// The first events happen before any of the others does.
    Before(Events<'a>, Events<'a>),
}

/// Takes a word and the events after it, if the word comes next.
#[tactic(auto, unfolding(crate::specs::text::Sentences::events_after))]
fn events_after<'a>(
    alloc: Global,
    keyword: &[u8],
    place: Place,
    words: &mut Words<'a>,
) -> Result<Option<Events<'a>>, PolicyFault>
    ensures { GivesPart (λ events. (option_map events_view events, words.new)) result (events_after keyword.now place words.old) }
{
    if !words.take(keyword) {
        return Ok(None);
    }
    let events = Events::read(alloc, place, words)?;
    Ok(Some(events))
}

impl<'a> Condition<'a> {
    /// Refuses `ends` without any events, which says nothing.
    #[tactic(auto, unfolding(crate::specs::text::Sentences::completed))]
    fn completed(self, words: &Words<'a>) -> Result<Condition<'a>, PolicyFault>
        ensures { GivesPart (λ condition. (condition_view condition, words.now)) result (completed (condition_view self.entry) words.now) }
    {
        match &self {
            Condition {
                ending: Ending::Ends,
                with: None,
                without: None,
            } => {
                if words.is_empty() {
                    Err(PolicyFault::MissingField)
                } else {
                    Err(PolicyFault::ExtraWord)
                }
            }
            _ => Ok(self),
        }
    }

    /// Takes an ending, of which the first word is taken, and the events with and without which it is.
    #[tactic(auto, unfolding(crate::specs::text::Sentences::ending_condition))]
    fn with_ending(
        alloc: Global,
        word: &[u8],
        words: &mut Words<'a>,
    ) -> Result<Condition<'a>, PolicyFault>
        ensures { GivesPart (λ condition. (condition_view condition, words.new)) result (ending_condition word.now words.old) }
    {
        let ending = Ending::read(word, words)?;
        let with = events_after(alloc, b"with", Place::With, words)?;
        let without = events_after(alloc, b"without", Place::Without, words)?;
        let condition = Condition {
            ending,
            with,
            without,
        };
        condition.completed(words)
    }

    /// Takes the events after `asks`.
    #[tactic(auto, unfolding(crate::specs::text::Sentences::asking_condition))]
    fn asking(alloc: Global, words: &mut Words<'a>) -> Result<Condition<'a>, PolicyFault>
        ensures { GivesPart (λ condition. (condition_view condition, words.new)) result (asking_condition words.old) }
    {
        let events = Events::read(alloc, Place::NeverOrCanAsk, words)?;
        Ok(Condition {
            ending: Ending::Ends,
            with: Some(events),
            without: None,
        })
    }

    /// Takes what follows `never` and `can`.
    #[tactic(auto, unfolding(crate::specs::text::Sentences::condition_of))]
    fn read(alloc: Global, words: &mut Words<'a>) -> Result<Condition<'a>, PolicyFault>
        ensures { GivesPart (λ condition. (condition_view condition, words.new)) result (condition_of words.old) }
    {
        let word = words.next()?;
        if word == b"asks".as_slice() || word == b"ask".as_slice() {
            Condition::asking(alloc, words)
        } else {
            Condition::with_ending(alloc, word, words)
        }
    }
}

impl<'a> Sentence<'a> {
    /// Takes what follows `needs`.
    fn needing(alloc: Global, words: &mut Words<'a>) -> Result<Sentence<'a>, PolicyFault>
        ensures { GivesPart (λ sentence. (sentence_view sentence, words.new)) result (needing_read words.old) }
    {
        let events = Events::read(alloc, Place::Needs, words)?;
        Ok(Sentence::Never(Condition {
            ending: Ending::Succeeds,
            with: None,
            without: Some(events),
        }))
    }

    /// Takes what follows `obeys`.
    fn obeying(alloc: Global, words: &mut Words<'a>) -> Result<Sentence<'a>, PolicyFault>
        ensures { GivesPart (λ sentence. (sentence_view sentence, words.new)) result (obeying_read words.old) }
    {
        let events = Events::read(alloc, Place::Obeys, words)?;
        Ok(Sentence::Never(Condition {
            ending: Ending::Succeeds,
            with: Some(events.one_of()),
            without: None,
        }))
    }

    /// Takes what follows `asks`.
    #[tactic(auto, unfolding(crate::specs::text::Sentences::asking))]
    fn asking(alloc: Global, words: &mut Words<'a>) -> Result<Sentence<'a>, PolicyFault>
        ensures { GivesPart (λ sentence. (sentence_view sentence, words.new)) result (asking words.old) }
    {
        let first = Events::read(alloc, Place::Asks, words)?;
        let later = events_after(alloc, b"before", Place::Asks, words)?;
        match later {
            Some(others) => Ok(Sentence::Before(first, others.one_of())),
            None => Ok(Sentence::Never(Condition {
                ending: Ending::Ends,
                with: None,
                without: Some(first),
            })),
        }
    }

    /// Takes what follows `always`.
    fn always_asking(alloc: Global, words: &mut Words<'a>) -> Result<Sentence<'a>, PolicyFault>
        ensures { GivesPart (λ sentence. (sentence_view sentence, words.new)) result (always words.old) }
    {
        let verb = words.next()?;
        if verb == b"asks".as_slice() {
            Sentence::asking(alloc, words)
        } else {
            Err(PolicyFault::BadVerb)
        }
    }

    /// Takes a sentence.
    #[tactic(auto, unfolding(crate::specs::text::Sentences::sentence_of))]
    pub(crate) fn read(alloc: Global, words: &mut Words<'a>) -> Result<Sentence<'a>, PolicyFault>
        ensures { GivesPart (λ sentence. (sentence_view sentence, words.new)) result (sentence_of words.old) }
    {
        let verb = words.next()?;
        if verb == b"needs".as_slice() {
            Sentence::needing(alloc, words)
        } else if verb == b"obeys".as_slice() {
            Sentence::obeying(alloc, words)
        } else if verb == b"always".as_slice() {
            Sentence::always_asking(alloc, words)
        } else if verb == b"asks".as_slice() {
            Sentence::asking(alloc, words)
        } else if verb == b"never".as_slice() {
            let condition = Condition::read(alloc, words)?;
            Ok(Sentence::Never(condition))
        } else if verb == b"can".as_slice() {
            let condition = Condition::read(alloc, words)?;
            Ok(Sentence::Can(condition))
        } else {
            Err(PolicyFault::BadVerb)
        }
    }

    /// The decisions that the sentence is about, of a stack of this kind.
    pub fn decisions(&self, kind: Kind) -> CodeSet
        ensures { result ≡ sentence_decisions (sentence_view self.now) kind }
    {
        match self {
            Sentence::Never(condition) | Sentence::Can(condition) => {
                condition.ending.decisions(kind)
            }
            Sentence::Before(_, _) => CodeSet::all(),
        }
    }

    /// The events that could make the rule hold, for which only modules of the system count.
    pub fn strict_events(&self) -> Option<&Events<'a>>
        ensures { option_map (λ events. events_view events.now) result ≡ strict_events (sentence_view self.now) }
    {
        match self {
            Sentence::Never(condition) => condition.without.as_ref(),
            Sentence::Can(condition) => condition.with.as_ref(),
            Sentence::Before(first, _) => Some(first),
        }
    }

    /// The other events, for which any module of the name counts.
    pub fn loose_events(&self) -> Option<&Events<'a>>
        ensures { option_map (λ events. events_view events.now) result ≡ loose_events (sentence_view self.now) }
    {
        match self {
            Sentence::Never(condition) => condition.with.as_ref(),
            Sentence::Can(condition) => condition.without.as_ref(),
            Sentence::Before(_, others) => Some(others),
        }
    }
}

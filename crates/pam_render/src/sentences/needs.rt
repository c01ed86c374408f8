//! The rules that hold of a stack, in the words of a policy.

ghost use Rattle.std.specs.Prelude.{◌≡◌, option_map};
ghost use Rattle.std.specs.List.{flat_map};
ghost use Rattle.pam_codes.specs.Out.{Writes};
ghost use Rattle.pam_policy.specs.needs.Suggestions.{suggestion_view};
ghost use Rattle.pam_report.specs.ReplyViews.{needs_view};
ghost use Rattle.pam_render.specs.sentences.Needs as spec;

use crate::sentences::phrase::{Phrase, Phrases, put_phrases};
use pam_codes::{Device, Out};
use pam_conf::Stack;
use pam_policy::needs::{StackEvent, Suggestion};
use pam_report::{NeedsReply, kind_name};
use std::io::Write;

/// Returns the events of a rule.
pub fn events_in(rule: &Suggestion) -> &[StackEvent]
    ensures { result.now ≡ spec.events_in (suggestion_view rule.now) }
{
    match rule {
        Suggestion::Needs(events) => events,
        Suggestion::Obeys(event) => std::slice::from_ref(event),
        Suggestion::NeedsAsked(event) => std::slice::from_ref(event),
        Suggestion::AlwaysAsks(event) => std::slice::from_ref(event),
    }
}

fn words_before(rule: &Suggestion) -> &'static [u8]
    ensures { result.now ≡ spec.words_before (suggestion_view rule.now) }
{
    match rule {
        Suggestion::Needs(_) | Suggestion::NeedsAsked(_) => b" needs ",
        Suggestion::Obeys(_) => b" obeys ",
        Suggestion::AlwaysAsks(_) => b" always asks ",
    }
}

fn end_words(rule: &Suggestion) -> &'static [u8]
    ensures { result.now ≡ spec.end_words (suggestion_view rule.now) }
{
    match rule {
        Suggestion::NeedsAsked(_) => b"=any",
        _ => b"",
    }
}

/// Writes `[ARGUMENT]`, if there is an argument.
fn put_argument<F: Phrases, W: Write>(
    form: &F,
    argument: Option<&[u8]>,
    out: &mut Out<W>,
) -> Result<(), Device>
    ensures { Writes W.contents out.old out.new result
        (flat_map F.text (spec.argument_phrases (option_map (λ argument. argument.now) argument.entry))) }
{
    let Some(argument) = argument else {
        return Ok(());
    };
    let phrases = [
        Phrase::Said(b"["),
        Phrase::Name(argument),
        Phrase::Said(b"]"),
    ];
    put_phrases(form, &phrases, out)
}

/// Writes an event after these words.
fn put_event<F: Phrases, W: Write>(
    form: &F,
    before: &[u8],
    stack: &Stack,
    event: StackEvent,
    out: &mut Out<W>,
) -> Result<(), Device>
    ensures { Writes W.contents out.old out.new result (flat_map F.text (spec.event_phrases before.now stack.now event)) }
{
    let phrases = [Phrase::Said(before), Phrase::Name(event.name(stack))];
    put_phrases(form, &phrases, out)?;
    put_argument(form, event.argument(stack), out)
}

fn put_more<F: Phrases, W: Write>(
    form: &F,
    stack: &Stack,
    events: &[StackEvent],
    out: &mut Out<W>,
) -> Result<(), Device>
    ensures { Writes W.contents out.old out.new result (flat_map F.text (spec.more_phrases stack.now events.now)) }
{
    for event in events {
        put_event(form, b" or ", stack, *event, out)?;
    }
    Ok(())
}

/// Writes events with `or` between them after these words, but nothing for none.
fn put_events<F: Phrases, W: Write>(
    form: &F,
    before: &[u8],
    stack: &Stack,
    events: &[StackEvent],
    out: &mut Out<W>,
) -> Result<(), Device>
    ensures { Writes W.contents out.old out.new result (flat_map F.text (spec.events_phrases before.now stack.now events.now)) }
{
    let Some((first, others)) = events.split_first() else {
        return Ok(());
    };
    put_event(form, before, stack, *first, out)?;
    put_more(form, stack, others, out)
}

/// Writes `SERVICE KIND SENTENCE` of a rule that holds of a stack, with the service as the words give it.
pub fn put_needed_rule<F: Phrases, W: Write>(
    form: &F,
    reply: &NeedsReply<'_>,
    rule: &Suggestion,
    out: &mut Out<W>,
) -> Result<(), Device>
    ensures { Writes W.contents out.old out.new result
        (flat_map F.text (spec.rule_phrases (needs_view reply.now) (suggestion_view rule.now))) }
{
    let phrases = [
        Phrase::Name(reply.service.as_bytes()),
        Phrase::Said(b" "),
        Phrase::Said(kind_name(reply.kind).as_bytes()),
    ];
    put_phrases(form, &phrases, out)?;
    put_events(form, words_before(rule), &reply.stack, events_in(rule), out)?;
    put_phrases(form, &[Phrase::Said(end_words(rule))], out)
}

//! The JSON of `needs`: a line for the stack, for each rule that holds of it, and a last line with their number.

ghost use Rattle.std.specs.Prelude.{◌≡◌, map, option_map};
ghost use Rattle.std.specs.List.{flat_map};
ghost use Rattle.pam_codes.specs.Out.{Writes, WritesAndFlushes};
ghost use Rattle.pam_policy.specs.needs.Suggestions.{suggestion_view};
ghost use Rattle.pam_report.specs.ReplyViews.{needs_view};
ghost use Rattle.pam_render.specs.json_lines.Line.{line};
ghost use Rattle.pam_render.specs.json_text.Needs as spec;
ghost use Rattle.serde_json.specs.Written.{compact_text};

use crate::json_lines::{Elements, Member, Written, put_array, put_line, put_object};
use crate::json_text::form::AsJson;
use crate::json_text::header::put_stack;
use crate::sentences::{events_in, put_needed_rule};
use pam_codes::{Device, Out};
use pam_conf::Stack;
use pam_policy::needs::{StackEvent, Suggestion};
use pam_report::NeedsReply;
use std::io::Write;

/// Writes a rule as one string.
fn put_rule_string<W: Write>(
    reply: &NeedsReply<'_>,
    rule: &Suggestion,
    out: &mut Out<W>,
) -> Result<(), Device>
    ensures { Writes W.contents out.old out.new result
        (compact_text (spec.rule_string (needs_view reply.now) (suggestion_view rule.now))) }
{
    out.put(b"\"")?;
    put_needed_rule(&AsJson, reply, rule, out)?;
    out.put(b"\"")
}

/// Writes the name and the argument of an event.
#[tactic(auto, unfolding(crate::specs::json_text::Needs::event_object))]
fn put_event<W: Write>(stack: &Stack, event: StackEvent, out: &mut Out<W>) -> Result<(), Device>
    ensures { Writes W.contents out.old out.new result (compact_text (spec.event_object stack.now event)) }
{
    let members: [Member<'_, ()>; 2] = [
        Member::readable("module", event.name(stack)),
        Member::readable_if_any("argument", event.argument(stack)),
    ];
    put_object(&members, out)
}

/// Writes events of a stack.
#[derive(Clone, Copy)]
struct EventElements<'x> {
    stack: &'x Stack,
}

impl Elements<StackEvent> for EventElements<'_> {
    ghost use Rattle.pam_render.specs.json_text.Needs.{event_object};

    ghost element = { λ elements event. event_object elements.stack.now event };

    fn put_element<W: Write>(&self, event: &StackEvent, out: &mut Out<W>) -> Result<(), Device> {
        put_event(self.stack, *event, out)
    }
}

/// A value in the line of a rule.
#[derive(Clone, Copy)]
enum NeedsValue<'x> {
    /// The rule.
    Rule {
        reply: &'x NeedsReply<'x>,
        rule: &'x Suggestion,
    },
    /// Its events.
    Events {
        stack: &'x Stack,
        events: &'x [StackEvent],
    },
}

impl Written for NeedsValue<'_> {
    ghost use Rattle.pam_render.specs.json_text.inner.Written.{needs_value};

    ghost value = { needs_value };

    fn put<W: Write>(&self, out: &mut Out<W>) -> Result<(), Device> {
        match self {
            NeedsValue::Rule { reply, rule } => put_rule_string(*reply, *rule, out),
            NeedsValue::Events { stack, events } => {
                let stack = *stack;
                put_array(&EventElements { stack }, *events, out)
            }
        }
    }
}

fn verb_name(rule: &Suggestion) -> &'static str
    ensures { result.now ≡ spec.verb_name (suggestion_view rule.now) }
{
    match rule {
        Suggestion::Needs(_) | Suggestion::NeedsAsked(_) => "needs",
        Suggestion::Obeys(_) => "obeys",
        Suggestion::AlwaysAsks(_) => "asks",
    }
}

/// Whether any answer of the events is enough.
fn is_asked(rule: &Suggestion) -> bool
    ensures { result ≡ spec.is_asked (suggestion_view rule.now) }
{
    matches!(rule, Suggestion::NeedsAsked(_) | Suggestion::AlwaysAsks(_))
}

/// Writes the line of a rule.
#[tactic(auto, unfolding(crate::specs::json_text::Needs::rule_json))]
fn put_rule<'x, W: Write>(
    reply: &'x NeedsReply<'x>,
    rule: &'x Suggestion,
    out: &mut Out<W>,
) -> Result<(), Device>
    ensures { Writes W.contents out.old out.new result (spec.rule_json (needs_view reply.now) (suggestion_view rule.now)) }
{
    let stack = &reply.stack;
    let events = events_in(rule);
    put_line(
        &[
            Member::text("kind", b"rule"),
            Member::written("rule", NeedsValue::Rule { reply, rule }),
            Member::text("verb", verb_name(rule).as_bytes()),
            Member::boolean("asked", is_asked(rule)),
            Member::written("events", NeedsValue::Events { stack, events }),
        ],
        out,
    )
}

fn put_each<'x, W: Write>(
    reply: &'x NeedsReply<'x>,
    rules: &'x [Suggestion],
    out: &mut Out<W>,
) -> Result<(), Device>
    ensures { Writes W.contents out.old out.new result
        (flat_map (spec.rule_json (needs_view reply.now)) (map suggestion_view rules.now)) }
{
    for rule in rules {
        put_rule(reply, rule, out)?;
    }
    Ok(())
}

/// Writes the last line.
fn put_total<W: Write>(has_way_in: bool, rules: usize, out: &mut Out<W>) -> Result<(), Device>
    ensures { Writes W.contents out.old out.new result (line (spec.total_members has_way_in rules)) }
{
    let members: [Member<'_, ()>; 3] = [
        Member::text("kind", b"total"),
        Member::boolean("way_in", has_way_in),
        Member::number("rules", rules as u64),
    ];
    put_line(&members, out)
}

/// Writes a line for each rule, and the last line.
fn put_rules<'x, W: Write>(
    reply: &'x NeedsReply<'x>,
    rules: &'x Option<Vec<Suggestion>>,
    out: &mut Out<W>,
) -> Result<(), Device>
    ensures { Writes W.contents out.old out.new result
        (spec.rules_json (needs_view reply.now) (option_map (λ rules. map suggestion_view rules.items) rules.now)) }
{
    let Some(rules) = rules else {
        return put_total(false, 0, out);
    };
    put_each(reply, rules, out)?;
    put_total(true, rules.len(), out)
}

pub(crate) fn write_needs<W: Write>(reply: &NeedsReply<'_>, out: &mut Out<W>) -> Result<(), Device>
    ensures { WritesAndFlushes W.contents out.old out.new result (spec.needs_json (needs_view reply.now)) }
{
    put_stack(reply.service, reply.kind, reply.stack.modules(), out)?;
    put_rules(reply, &reply.rules, out)?;
    out.finish()
}

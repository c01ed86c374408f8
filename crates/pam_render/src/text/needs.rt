//! The text of `needs`: the rules that hold of a stack, as a policy.

ghost use Rattle.std.specs.Prelude.{map, option_map};
ghost use Rattle.std.specs.List.{flat_map};
ghost use Rattle.pam_codes.specs.Out.{Writes, WritesAndFlushes};
ghost use Rattle.pam_policy.specs.needs.Suggestions.{suggestion_view};
ghost use Rattle.pam_report.specs.ReplyViews.{needs_view};
ghost use Rattle.pam_render.specs.text.Needs.{needs_text, rule_line, rules_text};

use crate::sentences::put_needed_rule;
use crate::text::form::AsText;
use crate::text::header::put_header;
use pam_codes::{Device, Out};
use pam_policy::needs::Suggestion;
use pam_report::NeedsReply;
use std::io::Write;

/// Writes the line of a rule.
fn put_rule<W: Write>(
    reply: &NeedsReply<'_>,
    rule: &Suggestion,
    out: &mut Out<W>,
) -> Result<(), Device>
    ensures { Writes W.contents out.old out.new result (rule_line (needs_view reply.now) (suggestion_view rule.now)) }
{
    put_needed_rule(&AsText, reply, rule, out)?;
    out.put(b"\n")
}

fn put_each<W: Write>(
    reply: &NeedsReply<'_>,
    rules: &[Suggestion],
    out: &mut Out<W>,
) -> Result<(), Device>
    ensures { Writes W.contents out.old out.new result (flat_map (rule_line (needs_view reply.now)) (map suggestion_view rules.now)) }
{
    for rule in rules {
        put_rule(reply, rule, out)?;
    }
    Ok(())
}

/// Writes a line for each rule, or that there is no way in.
fn put_rules<W: Write>(
    reply: &NeedsReply<'_>,
    rules: &Option<Vec<Suggestion>>,
    out: &mut Out<W>,
) -> Result<(), Device>
    ensures { Writes W.contents out.old out.new result
        (rules_text (needs_view reply.now) (option_map (λ rules. map suggestion_view rules.items) rules.now)) }
{
    match rules {
        Some(rules) => put_each(reply, rules, out),
        None => out.put(b"# no way in\n"),
    }
}

pub(crate) fn write_needs<W: Write>(reply: &NeedsReply<'_>, out: &mut Out<W>) -> Result<(), Device>
    ensures { WritesAndFlushes W.contents out.old out.new result (needs_text (needs_view reply.now)) }
{
    out.put(b"# ")?;
    put_header(reply.service, reply.kind, reply.stack.modules(), out)?;
    put_rules(reply, &reply.rules, out)?;
    out.finish()
}

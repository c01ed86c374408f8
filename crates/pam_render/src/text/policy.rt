//! The text of `policy`: a line for each finding, and a last line with their numbers.

ghost use Rattle.std.specs.Prelude.{map};
ghost use Rattle.std.specs.List.{flat_map};
ghost use Rattle.pam_codes.specs.Out.{Writes};
ghost use Rattle.pam_render.specs.parts.Policy.{service_of_place};
ghost use Rattle.pam_render.specs.parts.PolicyView.{host_view, told_view};
ghost use Rattle.pam_render.specs.sentences.Phrases.{phrase_text};
ghost use Rattle.pam_render.specs.text.Policy.{found_line, heading_phrases, listed, places_phrases, two_listed};

use crate::parts::{
    PolicyHost, PolicyLine, PolicyLines, ToldFinding, kind_of_place, service_of_place,
};
use crate::sentences::{Phrase, Phrases, level_name, put_name, put_phrases, put_policy_said};
use crate::text::check::put_checked;
use crate::text::form::AsText;
use pam_codes::{Device, Out};
use pam_report::{policy_level, policy_name, policy_number};
use std::io::Write;

impl Phrases for AsText {
    ghost use Rattle.pam_render.specs.sentences.Phrases.{phrase_text};

    ghost text = { phrase_text };

    fn put_phrase<W: Write>(&self, phrase: Phrase<'_>, out: &mut Out<W>) -> Result<(), Device> {
        match phrase {
            Phrase::Said(words) => out.put(words),
            Phrase::Name(name) => put_name(name, out),
            Phrase::Number(number) => out.put_number(number),
        }
    }
}

/// Writes `POLICY:LINE: LEVEL: NUMBER NAME: `.
fn put_heading<W: Write>(told: &ToldFinding<'_>, out: &mut Out<W>) -> Result<(), Device>
    ensures { Writes W.contents out.old out.new result (flat_map phrase_text (heading_phrases (told_view told.now))) }
{
    let phrases = [
        Phrase::Name(told.rule.policy),
        Phrase::Said(b":"),
        Phrase::Number(u64::from(told.rule.line)),
        Phrase::Said(b": "),
        Phrase::Said(level_name(policy_level(&told.finding)).as_bytes()),
        Phrase::Said(b": "),
        Phrase::Said(policy_number(&told.finding).as_bytes()),
        Phrase::Said(b" "),
        Phrase::Said(policy_name(&told.finding).as_bytes()),
        Phrase::Said(b": "),
    ];
    put_phrases(&AsText, &phrases, out)
}

/// Writes two services, and the number of the others.
fn put_two<W: Write>(
    host: &PolicyHost<'_>,
    first: usize,
    second: usize,
    others: usize,
    out: &mut Out<W>,
) -> Result<(), Device>
    ensures { Writes W.contents out.old out.new result
        (flat_map phrase_text (two_listed (service_of_place (host_view host.now) first) (service_of_place (host_view host.now) second) others)) }
{
    let first_name = service_of_place(host, first);
    let second_name = service_of_place(host, second);
    if others == 0 {
        let phrases = [
            Phrase::Name(first_name),
            Phrase::Said(b" and "),
            Phrase::Name(second_name),
        ];
        return put_phrases(&AsText, &phrases, out);
    }
    let phrases = [
        Phrase::Name(first_name),
        Phrase::Said(b", "),
        Phrase::Name(second_name),
        Phrase::Said(b" and "),
        Phrase::Number(others as u64),
        Phrase::Said(b" more"),
    ];
    put_phrases(&AsText, &phrases, out)
}

/// Writes the services of places: the first two, and the number of the others.
fn put_listed<W: Write>(
    host: &PolicyHost<'_>,
    first: usize,
    later: &[usize],
    out: &mut Out<W>,
) -> Result<(), Device>
    ensures { Writes W.contents out.old out.new result
        (flat_map phrase_text (listed (service_of_place (host_view host.now) first) (map (service_of_place (host_view host.now)) later.now))) }
{
    match later.split_first() {
        Some((second, others)) => put_two(host, first, *second, others.len(), out),
        None => put_phrases(&AsText, &[Phrase::Name(service_of_place(host, first))], out),
    }
}

/// Writes ` (KIND; SERVICES)`, but nothing for no places.
fn put_places<W: Write>(
    host: &PolicyHost<'_>,
    places: &[usize],
    out: &mut Out<W>,
) -> Result<(), Device>
    ensures { Writes W.contents out.old out.new result (flat_map phrase_text (places_phrases (host_view host.now) places.now)) }
{
    let Some((first, later)) = places.split_first() else {
        return Ok(());
    };
    let phrases = [
        Phrase::Said(b" ("),
        Phrase::Said(kind_of_place(host, *first).as_bytes()),
        Phrase::Said(b"; "),
    ];
    put_phrases(&AsText, &phrases, out)?;
    put_listed(host, *first, later, out)?;
    put_phrases(&AsText, &[Phrase::Said(b")")], out)
}

/// Writes `POLICY:LINE: LEVEL: NUMBER NAME: SENTENCE (KIND; SERVICES)`.
fn put_found<W: Write>(
    host: &PolicyHost<'_>,
    told: &ToldFinding<'_>,
    out: &mut Out<W>,
) -> Result<(), Device>
    ensures { Writes W.contents out.old out.new result (found_line (host_view host.now) (told_view told.now)) }
{
    put_heading(told, out)?;
    put_policy_said(&AsText, host, told.rule.text, told.finding, out)?;
    put_places(host, &told.places, out)?;
    out.put(b"\n")
}

impl PolicyLines for AsText {
    ghost use Rattle.pam_render.specs.text.Policy.{line_text};

    ghost line = { line_text };

    fn put_line<W: Write>(&self, content: PolicyLine<'_>, out: &mut Out<W>) -> Result<(), Device> {
        match content {
            PolicyLine::Found { host, told } => put_found(host, told, out),
            PolicyLine::Judged(_) => Ok(()),
            PolicyLine::Last {
                rules,
                stacks,
                counts,
            } => put_checked(rules, "rule", stacks, counts, out),
        }
    }
}

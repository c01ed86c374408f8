//! What `policy` says of each finding.

ghost use Rattle.std.specs.Prelude.{◌≡◌};
ghost use Rattle.std.specs.List.{flat_map};
ghost use Rattle.pam_codes.specs.Out.{Writes};
ghost use Rattle.pam_policy.specs.host.Findings.{finding_view};
ghost use Rattle.pam_render.specs.parts.PolicyView.{host_view};
ghost use Rattle.pam_render.specs.sentences.Policy as spec;

mod run;
mod word;

use crate::parts::PolicyHost;
use crate::sentences::phrase::{Phrase, Phrases, put_phrases};
use pam_codes::{Device, Out};
use pam_policy::host::{Finding, Idle};
use run::{put_broken, put_not_known};
use std::io::Write;
use word::put_word;

fn idle_words(idle: Idle) -> &'static [u8]
    ensures { result.now ≡ spec.idle_words idle }
{
    match idle {
        Idle::CannotHappen => b" says nothing here: no modules of its stacks can answer so",
        Idle::CannotEnd => b" says nothing here: none of its stacks can end so",
    }
}

/// Writes the words of a rule in quotes, and what is said of it.
fn put_rule<'x, F: Phrases, W: Write>(
    form: &F,
    rule: &'x [u8],
    said: &'x [u8],
    out: &mut Out<W>,
) -> Result<(), Device>
    ensures { Writes W.contents out.old out.new result (flat_map F.text (spec.rule_phrases rule.now said.now)) }
{
    let phrases = [
        Phrase::Said(b"\""),
        Phrase::Name(rule),
        Phrase::Said(b"\""),
        Phrase::Said(said),
    ];
    put_phrases(form, &phrases, out)
}

/// Writes the sentence of a finding of a rule with these words.
pub fn put_policy_said<F: Phrases, W: Write>(
    form: &F,
    host: &PolicyHost<'_>,
    rule: &[u8],
    finding: Finding<'_>,
    out: &mut Out<W>,
) -> Result<(), Device>
    ensures { Writes W.contents out.old out.new result
        (flat_map F.text (spec.finding_phrases (host_view host.now) rule.now (finding_view finding.entry))) }
{
    match finding {
        Finding::Broken(class, run) => put_broken(form, host, rule, class, run, out),
        Finding::Impossible(_) => {
            let said = b" does not hold: no answers of the modules make it so";
            put_rule(form, rule, said, out)
        }
        Finding::Misnamed(word) => put_word(form, word, out),
        Finding::SaysNothing(idle) => put_rule(form, rule, idle_words(idle), out),
        Finding::NotKnown(class) => put_not_known(form, host, rule, class, out),
    }
}

//! The values of a line of `policy` that are written part by part.

ghost use Rattle.pam_codes.specs.Out.{Writes};
ghost use Rattle.pam_policy.specs.host.Findings.{finding_view};
ghost use Rattle.pam_policy.specs.search.Runs.{run_value};
ghost use Rattle.pam_render.specs.json_text.Policy.{run_array, sentence_string, stack_object, step_object, steps_array, steps_of_stack};
ghost use Rattle.pam_render.specs.parts.PolicyView.{host_view, told_view};
ghost use Rattle.serde_json.specs.Written.{compact_text};

use crate::json_lines::{
    Elements, Member, Written, put_array, put_chunks, put_escaped, put_object,
};
use crate::json_text::form::AsJson;
use crate::parts::{PolicyHost, ToldFinding, kind_of_place, service_of_place};
use crate::sentences::{Phrase, Phrases, put_policy_said};
use pam_codes::{Device, Out};
use pam_conf::Stack;
use pam_drawing::name_of;
use pam_facts::known::name_of_path;
use pam_policy::host::{ClassStack, Finding};
use pam_policy::search::{Run, Step};
use pam_report::path_at;
use std::io::Write;

/// Phrases as parts of a string.
impl Phrases for AsJson {
    ghost use Rattle.json.specs.Print.{escape};
    ghost use Rattle.pam_render.specs.sentences.Phrases.{phrase_chars};

    ghost text = { λ phrase. escape (phrase_chars phrase) };

    fn put_phrase<W: Write>(&self, phrase: Phrase<'_>, out: &mut Out<W>) -> Result<(), Device> {
        match phrase {
            Phrase::Said(words) => put_escaped(words, out),
            Phrase::Name(name) => put_chunks(name, out),
            Phrase::Number(number) => out.put_number(number),
        }
    }
}

/// Writes the sentence of a finding as one string.
fn put_sentence<W: Write>(
    host: &PolicyHost<'_>,
    told: &ToldFinding<'_>,
    out: &mut Out<W>,
) -> Result<(), Device>
    ensures { Writes W.contents out.old out.new result (compact_text (sentence_string (host_view host.now) (told_view told.now))) }
{
    out.put(b"\"")?;
    put_policy_said(&AsJson, host, told.rule.text, told.finding, out)?;
    out.put(b"\"")
}

/// Writes the stack at a place.
#[tactic(auto, unfolding(crate::specs::json_text::Policy::stack_object))]
fn put_stack<W: Write>(
    host: &PolicyHost<'_>,
    position: usize,
    out: &mut Out<W>,
) -> Result<(), Device>
    ensures { Writes W.contents out.old out.new result (compact_text (stack_object (host_view host.now) position)) }
{
    let members: [Member<'_, ()>; 2] = [
        Member::readable("service", service_of_place(host, position)),
        Member::text("type", kind_of_place(host, position).as_bytes()),
    ];
    put_object(&members, out)
}

/// Writes the stacks at places.
#[derive(Clone, Copy)]
struct StackElements<'x> {
    host: &'x PolicyHost<'x>,
}

impl Elements<usize> for StackElements<'_> {
    ghost use Rattle.pam_render.specs.json_text.Policy.{stack_object};
    ghost use Rattle.pam_render.specs.parts.PolicyView.{host_view};

    ghost element = { λ elements position. stack_object (host_view elements.host.now) position };

    fn put_element<W: Write>(&self, position: &usize, out: &mut Out<W>) -> Result<(), Device> {
        put_stack(self.host, *position, out)
    }
}

/// Writes a module that is asked, and its answer.
#[tactic(auto, unfolding(crate::specs::json_text::Policy::step_object))]
fn put_step<W: Write>(stack: &Stack, step: &Step, out: &mut Out<W>) -> Result<(), Device>
    ensures { Writes W.contents out.old out.new result (compact_text (step_object stack.now step.now)) }
{
    let members: [Member<'_, ()>; 3] = [
        Member::number("number", step.module_number as u64),
        Member::readable("module", name_of_path(path_at(stack, step.module_number))),
        Member::text("code", name_of(step.code)),
    ];
    put_object(&members, out)
}

/// Writes modules of a stack and their answers.
#[derive(Clone, Copy)]
struct StepElements<'x> {
    stack: &'x Stack,
}

impl Elements<Step> for StepElements<'_> {
    ghost use Rattle.pam_render.specs.json_text.Policy.{step_object};

    ghost element = { λ elements step. step_object elements.stack.now step };

    fn put_element<W: Write>(&self, step: &Step, out: &mut Out<W>) -> Result<(), Device> {
        put_step(self.stack, step, out)
    }
}

/// Writes the steps of a run of a stack, if it is known.
fn put_steps_of<W: Write>(
    stack: &ClassStack,
    steps: &[Step],
    out: &mut Out<W>,
) -> Result<(), Device>
    ensures { Writes W.contents out.old out.new result (compact_text (steps_of_stack stack.now steps.now)) }
{
    match stack {
        ClassStack::Known(known) => {
            let stack = &known.stack;
            put_array(&StepElements { stack }, steps, out)
        }
        _ => out.put(b"[]"),
    }
}

/// Writes the steps of a run of the class with this index.
fn put_run<W: Write>(
    host: &PolicyHost<'_>,
    class: usize,
    run: &Run,
    out: &mut Out<W>,
) -> Result<(), Device>
    ensures { Writes W.contents out.old out.new result (compact_text (run_array (host_view host.now) class (run_value run.now))) }
{
    match host.classes.get(class) {
        Some(class) => put_steps_of(&class.stack, &run.steps, out),
        None => out.put(b"[]"),
    }
}

/// Writes the steps of the run that breaks a rule, and an empty array for another finding.
fn put_steps<W: Write>(
    host: &PolicyHost<'_>,
    finding: Finding<'_>,
    out: &mut Out<W>,
) -> Result<(), Device>
    ensures { Writes W.contents out.old out.new result (compact_text (steps_array (host_view host.now) (finding_view finding.entry))) }
{
    match finding {
        Finding::Broken(class, run) => put_run(host, class, run, out),
        _ => out.put(b"[]"),
    }
}

/// A value in the line of a finding.
#[derive(Clone, Copy)]
pub(super) enum PolicyValue<'x> {
    /// The sentence.
    Sentence {
        host: &'x PolicyHost<'x>,
        told: &'x ToldFinding<'x>,
    },
    /// The stacks at places.
    Stacks {
        host: &'x PolicyHost<'x>,
        places: &'x [usize],
    },
    /// The steps of the run that breaks a rule.
    Steps {
        host: &'x PolicyHost<'x>,
        finding: Finding<'x>,
    },
}

impl Written for PolicyValue<'_> {
    ghost use Rattle.pam_render.specs.json_text.inner.Written.{policy_value};

    ghost value = { policy_value };

    fn put<W: Write>(&self, out: &mut Out<W>) -> Result<(), Device> {
        match self {
            PolicyValue::Sentence { host, told } => put_sentence(*host, *told, out),
            PolicyValue::Stacks { host, places } => {
                let host = *host;
                put_array(&StackElements { host }, *places, out)
            }
            PolicyValue::Steps { host, finding } => put_steps(*host, *finding, out),
        }
    }
}

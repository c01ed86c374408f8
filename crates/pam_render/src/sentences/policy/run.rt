//! Classes of stacks at which a rule is broken, or not known to hold.

ghost use Rattle.std.specs.Prelude.{Some, option_map};
ghost use Rattle.std.specs.List.{flat_map};
ghost use Rattle.pam_codes.specs.Out.{Writes};
ghost use Rattle.pam_policy.specs.search.Runs.{run_value};
ghost use Rattle.pam_report.specs.ReplyViews.{side_files};
ghost use Rattle.pam_render.specs.parts.PolicyView.{host_view};
ghost use Rattle.pam_render.specs.sentences.Policy as spec;

use crate::parts::{PolicyHost, file_of};
use crate::sentences::phrase::{Phrase, Phrases, put_phrases};
use pam_codes::{Device, Out};
use pam_conf::{ConfError, Files, Stack};
use pam_drawing::name_of;
use pam_facts::known::name_of_path;
use pam_findings::host::Problem;
use pam_graph::MAX_NODES;
use pam_policy::host::{ClassStack, StackClass};
use pam_policy::search::{Run, Step};
use pam_report::{kind_name, path_at};
use std::io::Write;

/// Writes a module that is asked and its answer, after these words.
fn put_step<'x, F: Phrases, W: Write>(
    form: &F,
    before: &'x [u8],
    stack: &'x Stack,
    step: Step,
    out: &mut Out<W>,
) -> Result<(), Device>
    ensures { Writes W.contents out.old out.new result (flat_map F.text (spec.step_phrases before.now stack.now step)) }
{
    let phrases = [
        Phrase::Said(before),
        Phrase::Number(step.module_number as u64),
        Phrase::Said(b" "),
        Phrase::Name(name_of_path(path_at(stack, step.module_number))),
        Phrase::Said(b" "),
        Phrase::Said(name_of(step.code)),
    ];
    put_phrases(form, &phrases, out)
}

fn put_next_steps<F: Phrases, W: Write>(
    form: &F,
    stack: &Stack,
    steps: &[Step],
    out: &mut Out<W>,
) -> Result<(), Device>
    ensures { Writes W.contents out.old out.new result (flat_map F.text (spec.next_phrases stack.now steps.now)) }
{
    for step in steps {
        put_step(form, b", ", stack, *step, out)?;
    }
    Ok(())
}

/// Writes the modules that are asked, and their answers.
fn put_steps<F: Phrases, W: Write>(
    form: &F,
    stack: &Stack,
    steps: &[Step],
    out: &mut Out<W>,
) -> Result<(), Device>
    ensures { Writes W.contents out.old out.new result (flat_map F.text (spec.steps_phrases stack.now steps.now)) }
{
    let Some((first, others)) = steps.split_first() else {
        return put_phrases(form, &[Phrase::Said(b" and asks no module")], out);
    };
    put_step(form, b" where ", stack, *first, out)?;
    put_next_steps(form, stack, others, out)
}

/// Writes the modules of a stack that are asked, if it is known.
fn put_asked<F: Phrases, W: Write>(
    form: &F,
    stack: &ClassStack,
    steps: &[Step],
    out: &mut Out<W>,
) -> Result<(), Device>
    ensures { Writes W.contents out.old out.new result (flat_map F.text (spec.asked_phrases stack.now steps.now)) }
{
    match stack {
        ClassStack::Known(known) => put_steps(form, &known.stack, steps, out),
        _ => Ok(()),
    }
}

/// Writes that a run breaks a rule with these words at a class.
fn put_broken_at<F: Phrases, W: Write>(
    form: &F,
    rule: &[u8],
    class: &StackClass,
    run: &Run,
    out: &mut Out<W>,
) -> Result<(), Device>
    ensures { Writes W.contents out.old out.new result (flat_map F.text (spec.broken_at rule.now (run_value run.now) class.now)) }
{
    let phrases = [
        Phrase::Said(b"\""),
        Phrase::Name(rule),
        Phrase::Said(b"\" does not hold: "),
        Phrase::Said(kind_name(class.kind).as_bytes()),
        Phrase::Said(b" decides "),
        Phrase::Said(name_of(run.decision)),
    ];
    put_phrases(form, &phrases, out)?;
    put_asked(form, &class.stack, &run.steps, out)
}

/// Writes that a run breaks a rule with these words at the class with this index.
pub(super) fn put_broken<F: Phrases, W: Write>(
    form: &F,
    host: &PolicyHost<'_>,
    rule: &[u8],
    class: usize,
    run: &Run,
    out: &mut Out<W>,
) -> Result<(), Device>
    ensures { Writes W.contents out.old out.new result
        (flat_map F.text (spec.broken_phrases (host_view host.now) rule.now class (run_value run.now))) }
{
    match host.classes.get(class) {
        Some(class) => put_broken_at(form, rule, class, run, out),
        None => Ok(()),
    }
}

/// Writes ` FILE:LINE`, if there is a file.
fn put_place<F: Phrases, W: Write>(
    form: &F,
    file: Option<&[u8]>,
    line: usize,
    out: &mut Out<W>,
) -> Result<(), Device>
    ensures { Writes W.contents out.old out.new result
        (flat_map F.text (spec.place_phrases (option_map (λ f. f.now) file.entry) line)) }
{
    let Some(file) = file else {
        return Ok(());
    };
    let phrases = [
        Phrase::Said(b" "),
        Phrase::Name(file),
        Phrase::Said(b":"),
        Phrase::Number(line as u64),
    ];
    put_phrases(form, &phrases, out)
}

/// Writes for which fault a stack is refused.
fn put_fault<F: Phrases, W: Write>(
    form: &F,
    files: Option<&Files>,
    fault: &ConfError,
    out: &mut Out<W>,
) -> Result<(), Device>
    ensures { Writes W.contents out.old out.new result (flat_map F.text (spec.fault_phrases (side_files files.entry) fault.now)) }
{
    let problem = Problem::Fault(fault.kind);
    let phrases = [
        Phrase::Said(b"the stack is refused, "),
        Phrase::Said(problem.number().as_bytes()),
        Phrase::Said(b" "),
        Phrase::Said(problem.name().as_bytes()),
    ];
    put_phrases(form, &phrases, out)?;
    put_place(form, file_of(files, fault), fault.line, out)
}

/// Writes why nothing is known of a stack.
fn put_reason<F: Phrases, W: Write>(
    form: &F,
    files: Option<&Files>,
    stack: &ClassStack,
    out: &mut Out<W>,
) -> Result<(), Device>
    ensures { Writes W.contents out.old out.new result (flat_map F.text (spec.reason_phrases (side_files files.entry) stack.now)) }
{
    match stack {
        ClassStack::Refused(fault) => put_fault(form, files, fault, out),
        ClassStack::TooLarge => {
            let phrases = [
                Phrase::Said(b"its runs come to more than "),
                Phrase::Number(u64::from(MAX_NODES)),
                Phrase::Said(b" places"),
            ];
            put_phrases(form, &phrases, out)
        }
        ClassStack::Known(_) => Ok(()),
    }
}

/// Writes that a rule with these words is not known to hold at a class.
fn put_not_known_at<F: Phrases, W: Write>(
    form: &F,
    files: Option<&Files>,
    rule: &[u8],
    class: &StackClass,
    out: &mut Out<W>,
) -> Result<(), Device>
    ensures { Writes W.contents out.old out.new result
        (flat_map F.text (spec.not_known_at (side_files files.entry) rule.now class.now)) }
{
    let phrases = [
        Phrase::Said(b"\""),
        Phrase::Name(rule),
        Phrase::Said(b"\" is not known to hold: "),
    ];
    put_phrases(form, &phrases, out)?;
    put_reason(form, files, &class.stack, out)
}

/// Writes that a rule with these words is not known to hold at the class with this index.
pub(super) fn put_not_known<F: Phrases, W: Write>(
    form: &F,
    host: &PolicyHost<'_>,
    rule: &[u8],
    class: usize,
    out: &mut Out<W>,
) -> Result<(), Device>
    ensures { Writes W.contents out.old out.new result
        (flat_map F.text (spec.not_known_phrases (host_view host.now) rule.now class)) }
{
    match host.classes.get(class) {
        Some(class) => put_not_known_at(form, host.files, rule, class, out),
        None => Ok(()),
    }
}

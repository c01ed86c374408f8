//! A run of the program: reads the command line, answers on standard output, and reports faults on standard error.

ghost use Rattle.std.specs.Prelude.{◌≡◌, ◌≤◌, ◌⊎◌, Ok, map, string_bytes};
ghost use Rattle.pam_report.specs.Fault.{IsNumbered, status_of_fault, status_of_input, status_of_usage};
ghost use Rattle.pam_report.specs.declared.fault.Fault.TheVariants as faults;
ghost use Rattle.pam_cli.specs.Run.{EndsAnswered, EndsRefused, EndsRequest, Runs, status_with};
ghost use Rattle.pam_report.specs.Inputs.{unread_given};
ghost use Rattle.pam_report.specs.Left.{has_unread};

use crate::reading::inputs_of;
use crate::system::System;
use pam_codes::Out;
use pam_conf::{Files, Form};
use pam_render::sentences::{put_name, refusal_sentence};
use pam_render::text::answer;
use pam_report::{
    Fault, InputError, Inputs, Status, fault_status, fault_text, input_sentence, input_status,
    input_text, mistaken_text, refusal_text, usage_status, usage_text,
};
use pam_words::{Request, Task, Usage, find_mistake, request};
use std::alloc::{AllocError, Global};
use std::io::Write;

/// Runs the program with these words, the first of which is its name, and returns the exit status. Failed writes to
/// `err` are ignored.
#[tactic(auto, unfolding(crate::specs::Run::Runs))]
pub fn run<S: System, W: Write, V: Write>(
    system: &S,
    alloc: Global,
    words: &[String],
    out: &mut Out<W>,
    err: &mut Out<V>,
) -> u8
    ensures run { Runs (S.told system.now) W.contents out.old out.new result (map string_bytes words.now) }
    ensures status { result ≤ 6 }
{
    match request(alloc, words) {
        Ok(request) => answer_request(system, alloc, &request, out, err),
        Err(usage) => help_or_refuse(alloc, words, &usage, out, err),
    }
}

/// Writes the help that the words ask for, or reports wrong words, and returns the exit status.
fn help_or_refuse<W: Write, V: Write>(
    alloc: Global,
    words: &[String],
    usage: &Usage,
    out: &mut Out<W>,
    err: &mut Out<V>,
) -> u8
    ensures run { EndsRefused W.contents out.old out.new result usage.now }
    ensures status { result ≤ 6 }
{
    match usage {
        Usage::Help(text) => help(alloc, text, out, err),
        Usage::Words(_) | Usage::Memory => refuse(alloc, usage, err),
        _ => refuse_words(alloc, words, usage, err),
    }
}

/// Returns the line of wrong words, with what is wrong with them where their command says it.
fn mistaken_line(alloc: Global, words: &[String], usage: &Usage) -> Result<Vec<u8>, AllocError>
    requires { IsNumbered usage.now }
{
    match find_mistake(alloc, words, usage) {
        Ok(Some(mistake)) => mistaken_text(alloc, usage, mistake),
        Ok(None) => usage_text(alloc, usage),
        Err(_) => Err(AllocError),
    }
}

/// Reports wrong words on standard error, with what is wrong with them where their command says it, and returns the exit status.
fn refuse_words<V: Write>(alloc: Global, words: &[String], usage: &Usage, err: &mut Out<V>) -> u8
    requires { IsNumbered usage.now }
    ensures usage { result ≡ status_of_usage usage.now }
    ensures status { result ≤ 6 }
{
    say_names(mistaken_line(alloc, words, usage), err);
    usage_status(usage)
}

/// Reports wrong words on standard error, and returns the exit status.
pub fn refuse<V: Write>(alloc: Global, usage: &Usage, err: &mut Out<V>) -> u8
    ensures usage { result ≡ status_of_usage usage.now }
    ensures status { result ≤ 6 }
{
    match usage {
        Usage::Help(text) | Usage::Words(text) => {
            let _ = write!(err, "{text}");
            let _ = err.flush();
        }
        _ => say(usage_text(alloc, usage), err),
    }
    usage_status(usage)
}

/// Reports an allocation that failed while no words were read, and returns the exit status.
pub fn refuse_without_memory<V: Write>(alloc: Global, err: &mut Out<V>) -> u8
    ensures fault { result ≡ status_of_fault faults.Memory }
    ensures status { result ≤ 6 }
{
    refuse_by(alloc, &Fault::Memory, err)
}

/// Reads the files that a request names, and answers it.
fn answer_request<S: System, W: Write, V: Write>(
    system: &S,
    alloc: Global,
    request: &Request<'_>,
    out: &mut Out<W>,
    err: &mut Out<V>,
) -> u8
    ensures run { EndsRequest (S.told system.now) W.contents out.old out.new result request.now }
    ensures status { result ≤ 6 }
{
    match inputs_of(system, alloc, request) {
        Ok(inputs) => {
            let status = report(alloc, request, &inputs, out, err);
            // A call, since to prove the drop of each variant in place takes half a minute.
            drop(inputs);
            status
        }
        Err(error) => refuse_input(alloc, request, &error, err),
    }
}

/// Reports an input that cannot be read on standard error, and returns the exit status.
fn refuse_input<V: Write>(
    alloc: Global,
    request: &Request<'_>,
    error: &InputError,
    err: &mut Out<V>,
) -> u8
    ensures fault { result ≡ status_of_input error.now }
    ensures status { result ≤ 6 }
{
    let line = input_text(alloc, error);
    if tells(&request.task) {
        say_with(line, input_sentence(error), err);
    } else {
        say(line, err);
    }
    input_status(error)
}

fn report<W: Write, V: Write>(
    alloc: Global,
    request: &Request<'_>,
    inputs: &Inputs,
    out: &mut Out<W>,
    err: &mut Out<V>,
) -> u8
    ensures run { EndsAnswered W.contents out.old out.new result request.now inputs.now }
    ensures status { result ≤ 6 }
{
    match answer(alloc, request, inputs, out) {
        Ok(status) => end(alloc, status, inputs, err),
        Err(Fault::Unread) => {
            say_unread(alloc, inputs, err);
            fault_status(&Fault::Unread)
        }
        Err(fault) => {
            say_fault(alloc, &fault, request, inputs, err);
            fault_status(&fault)
        }
    }
}

/// Returns the exit status of an answer. Where a file of a check cannot be read, that is reported on standard error.
fn end<V: Write>(alloc: Global, status: Status, inputs: &Inputs, err: &mut Out<V>) -> u8
    ensures value { result ≡ status_with (has_unread (unread_given inputs.now)) (Ok status) }
    ensures bound { result ≤ 6 }
{
    if !inputs.has_unread() {
        return status.number();
    }
    say_unread(alloc, inputs, err);
    fault_status(&Fault::Unread)
}

/// Reports each file of a check that cannot be read on standard error.
fn say_unread<V: Write>(alloc: Global, inputs: &Inputs, err: &mut Out<V>) {
    for error in inputs.unread_errors() {
        say_with(input_text(alloc, error), input_sentence(error), err);
    }
}

/// Whether the refusals of a request say what is wrong, and how to mend it. The lines of the others are a number, a name and a place.
fn tells(task: &Task<'_>) -> bool {
    match task {
        Task::Show { .. }
        | Task::Decide { .. }
        | Task::Access { .. }
        | Task::Time { .. }
        | Task::Paths { .. }
        | Task::Version => false,
        Task::Check { .. }
        | Task::Compare { .. }
        | Task::Outcomes { .. }
        | Task::Graph { .. }
        | Task::Policy { .. }
        | Task::Needs { .. }
        | Task::Explain(_)
        | Task::Facts => true,
    }
}

/// Reports the fault of a request on standard error.
fn say_fault<V: Write>(
    alloc: Global,
    fault: &Fault,
    request: &Request<'_>,
    inputs: &Inputs,
    err: &mut Out<V>,
) {
    let line = refusal_text(alloc, fault, request, inputs);
    if tells(&request.task) {
        say_with(line, refusal_sentence(fault), err);
    } else {
        say(line, err);
    }
}

fn help<W: Write, V: Write>(
    alloc: Global,
    text: &clap::Error,
    out: &mut Out<W>,
    err: &mut Out<V>,
) -> u8
    ensures run { (result ≡ 0) ⊎ (result ≡ status_of_fault faults.Device) }
    ensures status { result ≤ 6 }
{
    let written = match write!(out, "{text}") {
        Ok(()) => out.flush(),
        Err(error) => Err(error),
    };
    match written {
        Ok(()) => 0,
        Err(_) => refuse_by(alloc, &Fault::Device, err),
    }
}

/// Reports a fault without a place on standard error, and returns its exit status.
fn refuse_by<V: Write>(alloc: Global, fault: &Fault, err: &mut Out<V>) -> u8
    ensures fault { result ≡ status_of_fault fault.now }
    ensures status { result ≤ 6 }
{
    let none = Files::new(alloc, Form::Dir);
    say(fault_text(alloc, fault, &none), err);
    fault_status(fault)
}

/// Writes a line to standard error, unless its allocation failed.
fn say<V: Write>(line: Result<Vec<u8>, AllocError>, err: &mut Out<V>) {
    if let Ok(line) = line {
        let _ = err.write_all(&line);
    }
    let _ = err.flush();
}

/// Writes a line to standard error as names are shown, since it can name services and files, unless its allocation failed.
fn say_names<V: Write>(line: Result<Vec<u8>, AllocError>, err: &mut Out<V>) {
    say_with(line, "", err);
}

/// Writes a line in the same way, and then a sentence, if there is one.
fn say_with<V: Write>(line: Result<Vec<u8>, AllocError>, sentence: &str, err: &mut Out<V>) {
    if let Ok(line) = line {
        if let Some((_, content)) = line.split_last() {
            let _ = put_name(content, err);
            if !sentence.is_empty() {
                let _ = err.put(b": ");
                let _ = err.put(sentence.as_bytes());
            }
            let _ = err.put(b"\n");
        }
    }
    let _ = err.flush();
}

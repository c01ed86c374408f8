//! S22: rules of pam_faillock that count failures, and rules that refuse who failed too often, where no run asks one of the other sort.

ghost use Rattle.std.specs.Prelude.{◌≡◌, IsFalse, IsTrue, OnOk, false};
ghost use Rattle.std.specs.Option.{option_map_or};
ghost use Rattle.pam_conf.specs.ItemsOf.{module_text};
ghost use Rattle.pam_conf.specs.Stack.{module_at};
ghost use Rattle.pam_text.specs.Members.{Member};
ghost use Rattle.pam_findings.specs.host.Faillock.{counts_after, counts_by, has_task, is_faillock, is_task};
ghost use Rattle.pam_findings.specs.host.inner.Halves.{HalfIn, HasTaskAt, NoneIn};
ghost use Rattle.pam_findings.specs.host.inner.Looked.{OfModule, OfModules};
ghost use Rattle.pam_findings.specs.host.inner.Table.{Adds};

use crate::host::modules::{is_listed, push_module};
use crate::host::problem::{Problem, Spot};
use pam_conf::{Module, Stack};
use pam_facts::module_name;
use pam_text::Texts;
use std::alloc::AllocError;

/// Whether a word says what a rule of pam_faillock is for.
fn is_task(word: &[u8]) -> bool
    ensures { result ≡ is_task word.now }
{
    word == b"preauth".as_slice()
        || word == b"authfail".as_slice()
        || word == b"authsucc".as_slice()
}

/// Whether a rule is for counting failures, after one more word.
fn counts_after(counts: bool, word: &[u8]) -> bool
    ensures { result ≡ counts_after counts word.now }
{
    if is_task(word) {
        word == b"authfail".as_slice()
    } else {
        counts
    }
}

/// Whether a rule with these arguments is for counting failures.
fn counts_by(arguments: &Texts) -> bool
    ensures { result ≡ counts_by arguments.now }
{
    let mut counts = false;
    for word in arguments.iter() {
        counts = counts_after(counts, word);
    }
    counts
}

fn is_faillock(module: &Module) -> bool
    ensures { result ≡ is_faillock (module_text «module».now) }
{
    match module_name(&module.path) {
        Some(name) => name == b"pam_faillock".as_slice(),
        None => false,
    }
}

/// Whether a module is pam_faillock, and counts failures; or refuses who failed too often, where `counts` is false.
fn has_task(counts: bool, module: &Module) -> bool
    ensures { result ≡ has_task counts (module_text «module».now) }
{
    if counts {
        is_faillock(module) && counts_by(&module.arguments)
    } else {
        is_faillock(module) && !counts_by(&module.arguments)
    }
}

/// Whether the module with this number has the task.
fn has_task_at(stack: &Stack, counts: bool, number: usize) -> bool
    ensures { result ≡ option_map_or (has_task counts) (module_at number stack.now) false }
{
    match stack.module(number) {
        Some(module) => has_task(counts, module),
        None => false,
    }
}

/// Whether the module with this number has the task, and is none of these.
pub(crate) fn is_asked_with(
    stack: &Stack,
    never_asked: &[usize],
    counts: bool,
    number: usize,
) -> bool
    ensures yes { IsTrue result → HasTaskAt stack.now counts number × (Member number never_asked.now → ⊥) }
    ensures no { IsFalse result → HasTaskAt stack.now counts number → Member number never_asked.now }
{
    has_task_at(stack, counts, number) && !is_listed(number, never_asked)
}

/// Whether a module of the stack has the task, and some run asks it.
fn some_asked_with(stack: &Stack, never_asked: &[usize], counts: bool) -> bool
    ensures no { IsFalse result → NoneIn stack.now never_asked.now counts }
    ensures yes { IsTrue result → NoneIn stack.now never_asked.now counts → ⊥ }
{
    // The items say that the modules are numbered from 1 on.
    let _items = stack.items();
    for index in 0..stack.modules() {
        if is_asked_with(stack, never_asked, counts, index + 1) {
            return true;
        }
    }
    false
}

/// Appends S22 of the module with this number, if it has the task.
fn push_if_task(
    spots: &mut Vec<Spot>,
    stack: &Stack,
    counts: bool,
    number: usize,
) -> Result<(), AllocError>
    ensures { OnOk result (Adds (λ spot. HasTaskAt stack.now counts number × OfModule (Problem.NotCounted counts) stack.now number spot)
        spots.old.items spots.new.items) }
{
    if !has_task_at(stack, counts, number) {
        return Ok(());
    }
    push_module(spots, stack, number, Problem::NotCounted { counts })?;
    Ok(())
}

/// Appends S22 of each module that has the task.
fn push_task(spots: &mut Vec<Spot>, stack: &Stack, counts: bool) -> Result<(), AllocError>
    ensures { OnOk result (Adds (OfModules (Problem.NotCounted counts) stack.now (HasTaskAt stack.now counts)) spots.old.items spots.new.items) }
{
    // The items say that the modules are numbered from 1 on.
    let _items = stack.items();
    for index in 0..stack.modules() {
        push_if_task(spots, stack, counts, index + 1)?;
    }
    Ok(())
}

/// Appends S22 of each module that has the task, if no run asks one with the other task.
pub(crate) fn push_half(
    spots: &mut Vec<Spot>,
    stack: &Stack,
    never_asked: &[usize],
    counts: bool,
) -> Result<(), AllocError>
    ensures { OnOk result (Adds (HalfIn stack.now never_asked.now counts) spots.old.items spots.new.items) }
{
    if some_asked_with(stack, never_asked, !counts) {
        return Ok(());
    }
    push_task(spots, stack, counts)
}

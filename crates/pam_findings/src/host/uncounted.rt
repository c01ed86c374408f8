//! S22: rules of pam_faillock that count failures, and that no run asks after a failure of a module that says who logs in.

ghost use Rattle.std.specs.Prelude.{◌≡◌, ◌≤◌, IfOk, OnOk, false, not, true};
ghost use Rattle.pam_dispatch.specs.State.{success};
ghost use Rattle.pam_paths.specs.Known.{may_answer};
ghost use Rattle.pam_findings.specs.host.Faillock.{NoneFailsBefore};
ghost use Rattle.pam_findings.specs.host.inner.Looked.{HasGraph, OfModule, OfModules, judgement_in};
ghost use Rattle.pam_findings.specs.host.inner.Table.{Adds};
ghost use Rattle.pam_findings.specs.host.inner.Uncounted.{AreChecking, IsUncounted, UncountedIn};

use crate::host::faillock::is_asked_with;
use crate::host::judging::Judging;
use crate::host::modules::{may_succeed, push_module};
use crate::host::problem::{Problem, Spot};
use crate::host::refusing::failures;
use crate::host::taking::alone;
use crate::stack::{Marks, Sought, leads, mark};
use pam_conf::{Kind, MAX_MODULES, Stack};
use pam_paths::Known;
use std::alloc::AllocError;

/// Whether the module with this number says who logs in, if it may succeed.
fn checks_at(failing: &Known, number: usize) -> bool
    ensures { result ≡ not (may_answer failing.now number success) }
{
    !may_succeed(failing, number)
}

/// Marks the modules that say who logs in.
fn checking(stack: &Stack, failing: &Known) -> Marks
    ensures { AreChecking stack.now failing.now result }
{
    // The items say that the modules are numbered from 1 on.
    let _items = stack.items();
    let mut marks = [false; MAX_MODULES];
    for index in 0..stack.modules() {
        if checks_at(failing, index + 1) {
            mark(&mut marks, index + 1);
        }
    }
    marks
}

/// Whether some run asks one of the modules that say who logs in, which fails, and then the module with this number.
fn follows_failure(of: &Judging<'_>, checking: &Marks, number: usize) -> Result<bool, AllocError>
    requires graph { HasGraph of.now }
    requires checking { AreChecking of.now.stack.now of.now.failing.now checking.now }
    requires first { 1 ≤ number }
    requires last { number ≤ MAX_MODULES }
    ensures no { IfOk result (λ follows. follows ≡ false → NoneFailsBefore (judgement_in of.now) number) }
    ensures yes { IfOk result (λ follows. follows ≡ true → NoneFailsBefore (judgement_in of.now) number → ⊥) }
{
    // The items say that the modules are numbered from 1 on.
    let _items = of.stack.items();
    let later = alone(number);
    let sought = Sought {
        first: checking,
        codes: failures(),
        later: &later,
    };
    leads(of.alloc, of.stack, of.free, &of.soundness.graph, &sought)
}

/// Whether the module with this number counts failures, and is asked, but after no failure.
fn is_uncounted(of: &Judging<'_>, checking: &Marks, number: usize) -> Result<bool, AllocError>
    requires graph { HasGraph of.now }
    requires checking { AreChecking of.now.stack.now of.now.failing.now checking.now }
    requires first { 1 ≤ number }
    requires last { number ≤ MAX_MODULES }
    ensures yes { IfOk result (λ is. is ≡ true → IsUncounted (judgement_in of.now) number) }
    ensures no { IfOk result (λ is. is ≡ false → IsUncounted (judgement_in of.now) number → ⊥) }
{
    if !is_asked_with(of.stack, &of.soundness.never_asked, true, number) {
        return Ok(false);
    }
    let follows = follows_failure(of, checking, number)?;
    Ok(!follows)
}

/// Appends S22 of the module with this number.
fn push_if_uncounted(
    spots: &mut Vec<Spot>,
    of: &Judging<'_>,
    checking: &Marks,
    number: usize,
) -> Result<(), AllocError>
    requires graph { HasGraph of.now }
    requires checking { AreChecking of.now.stack.now of.now.failing.now checking.now }
    requires first { 1 ≤ number }
    requires last { number ≤ MAX_MODULES }
    ensures { OnOk result (Adds (λ spot. IsUncounted (judgement_in of.now) number × OfModule Problem.NoFailureCounted of.now.stack.now number spot)
        spots.old.items spots.new.items) }
{
    let is_uncounted = is_uncounted(of, checking, number)?;
    if !is_uncounted {
        return Ok(());
    }
    push_module(spots, of.stack, number, Problem::NoFailureCounted)?;
    Ok(())
}

/// Appends S22 of each module that counts failures after none.
fn push_each(spots: &mut Vec<Spot>, of: &Judging<'_>) -> Result<(), AllocError>
    requires { HasGraph of.now }
    ensures { OnOk result (Adds (OfModules Problem.NoFailureCounted of.now.stack.now (IsUncounted (judgement_in of.now))) spots.old.items spots.new.items) }
{
    // The items say that the modules are numbered from 1 on.
    let _items = of.stack.items();
    let checking = checking(of.stack, of.failing);
    for index in 0..of.stack.modules() {
        push_if_uncounted(spots, of, &checking, index + 1)?;
    }
    Ok(())
}

/// Appends S22 of a stack of `auth`, whose service may have a file that others include.
pub(crate) fn push_uncounted(
    spots: &mut Vec<Spot>,
    of: &Judging<'_>,
    kind: Kind,
    is_included: bool,
) -> Result<(), AllocError>
    requires { HasGraph of.now }
    ensures { OnOk result (Adds (UncountedIn is_included kind (judgement_in of.now)) spots.old.items spots.new.items) }
{
    if is_included {
        return Ok(());
    }
    if kind != Kind::Auth {
        return Ok(());
    }
    push_each(spots, of)
}

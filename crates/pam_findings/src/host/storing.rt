//! S21: modules that store a new password, which they ask for themselves, in a run in which a module that checks it
//! has failed.

ghost use Rattle.std.specs.Prelude.{◌≡◌, ◌≤◌, IfOk, OnOk, false, true};
ghost use Rattle.pam_findings.specs.host.inner.Looked.{HasGraph, OfModule, OfModules, judgement_in};
ghost use Rattle.pam_findings.specs.host.inner.Storing.{AreRefusing, IsStored, StoredIn, refuses_at, stores_at};
ghost use Rattle.pam_findings.specs.host.inner.Table.{Adds};
ghost use Rattle.pam_findings.specs.host.Storing.{FailsBefore};

use crate::host::judging::Judging;
use crate::host::modules::push_module;
use crate::host::problem::{Problem, Spot};
use crate::host::refusing::{Refuser, failures, refuses, stores};
use crate::host::taking::alone;
use crate::stack::{Marks, Sought, leads, mark};
use pam_conf::{Kind, MAX_MODULES, Stack};
use std::alloc::AllocError;

/// Whether the module with this number may refuse a new password.
fn refuses_at(by: Refuser, stack: &Stack, number: usize) -> bool
    ensures { result ≡ refuses_at by stack.now number }
{
    match stack.module(number) {
        Some(module) => refuses(by, module),
        None => false,
    }
}

/// Marks the modules that may refuse a new password.
fn refusing(by: Refuser, stack: &Stack) -> Marks
    ensures { AreRefusing by stack.now result }
{
    // The items say that the modules are numbered from 1 on.
    let _items = stack.items();
    let mut marks = [false; MAX_MODULES];
    for index in 0..stack.modules() {
        if refuses_at(by, stack, index + 1) {
            mark(&mut marks, index + 1);
        }
    }
    marks
}

/// Whether some run asks one of the modules that may refuse, which fails, and then the module with this number.
fn fails_before(
    of: &Judging<'_>,
    by: Refuser,
    refusing: &Marks,
    number: usize,
) -> Result<bool, AllocError>
    requires graph { HasGraph of.now }
    requires refusing { AreRefusing by of.now.stack.now refusing.now }
    requires first { 1 ≤ number }
    requires last { number ≤ MAX_MODULES }
    ensures yes { IfOk result (λ fails. fails ≡ true → FailsBefore by (judgement_in of.now) number) }
    ensures no { IfOk result (λ fails. fails ≡ false → FailsBefore by (judgement_in of.now) number → ⊥) }
{
    // The items say that the modules are numbered from 1 on.
    let _items = of.stack.items();
    let later = alone(number);
    let sought = Sought {
        first: refusing,
        codes: failures(),
        later: &later,
    };
    leads(of.alloc, of.stack, of.free, &of.soundness.graph, &sought)
}

/// Whether the module with this number stores a new password.
fn stores_at(stack: &Stack, number: usize) -> bool
    ensures { result ≡ stores_at stack.now number }
{
    match stack.module(number) {
        Some(module) => stores(module),
        None => false,
    }
}

/// Whether the module with this number stores a new password in a run in which one that may refuse it failed.
fn is_stored(
    of: &Judging<'_>,
    by: Refuser,
    refusing: &Marks,
    number: usize,
) -> Result<bool, AllocError>
    requires graph { HasGraph of.now }
    requires refusing { AreRefusing by of.now.stack.now refusing.now }
    requires first { 1 ≤ number }
    requires last { number ≤ MAX_MODULES }
    ensures yes { IfOk result (λ is. is ≡ true → IsStored by (judgement_in of.now) number) }
    ensures no { IfOk result (λ is. is ≡ false → IsStored by (judgement_in of.now) number → ⊥) }
{
    if !stores_at(of.stack, number) {
        return Ok(false);
    }
    let fails = fails_before(of, by, refusing, number)?;
    Ok(fails)
}

/// Appends S21 of the module with this number.
fn push_if_stored(
    spots: &mut Vec<Spot>,
    of: &Judging<'_>,
    by: Refuser,
    refusing: &Marks,
    number: usize,
) -> Result<(), AllocError>
    requires graph { HasGraph of.now }
    requires refusing { AreRefusing by of.now.stack.now refusing.now }
    requires first { 1 ≤ number }
    requires last { number ≤ MAX_MODULES }
    ensures { OnOk result (Adds (λ spot. IsStored by (judgement_in of.now) number × OfModule (Problem.StoredThoughRefused by) of.now.stack.now number spot)
        spots.old.items spots.new.items) }
{
    let is_stored = is_stored(of, by, refusing, number)?;
    if !is_stored {
        return Ok(());
    }
    push_module(spots, of.stack, number, Problem::StoredThoughRefused { by })?;
    Ok(())
}

/// Appends S21 of each module that stores what this one may have refused.
fn push_refused(spots: &mut Vec<Spot>, of: &Judging<'_>, by: Refuser) -> Result<(), AllocError>
    requires { HasGraph of.now }
    ensures { OnOk result (Adds (OfModules (Problem.StoredThoughRefused by) of.now.stack.now (IsStored by (judgement_in of.now)))
        spots.old.items spots.new.items) }
{
    // The items say that the modules are numbered from 1 on.
    let _items = of.stack.items();
    let refusing = refusing(by, of.stack);
    for index in 0..of.stack.modules() {
        push_if_stored(spots, of, by, &refusing, index + 1)?;
    }
    Ok(())
}

/// Appends S21 of a stack.
pub(crate) fn push_stored(
    spots: &mut Vec<Spot>,
    of: &Judging<'_>,
    kind: Kind,
) -> Result<(), AllocError>
    requires { HasGraph of.now }
    ensures { OnOk result (Adds (StoredIn kind (judgement_in of.now)) spots.old.items spots.new.items) }
{
    if kind != Kind::Password {
        return Ok(());
    }
    push_refused(spots, of, Refuser::Cracklib)?;
    push_refused(spots, of, Refuser::Passwdqc)?;
    push_refused(spots, of, Refuser::Pwhistory)?;
    push_refused(spots, of, Refuser::Pwquality)?;
    Ok(())
}

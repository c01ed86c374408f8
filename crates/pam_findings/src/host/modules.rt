//! The problems of the modules of a stack.

ghost use Rattle.std.specs.Prelude.{◌≡◌, ◌==◌, IsFalse, IsTrue, OnOk, true, false};
ghost use Rattle.std.specs.List.{list_any};
ghost use Rattle.std.specs.Option.{option_map_or};
ghost use Rattle.pam_conf.specs.ItemsOf.{module_text};
ghost use Rattle.pam_conf.specs.Stack.{module_at};
ghost use Rattle.pam_dispatch.specs.State.{success};
ghost use Rattle.pam_paths.specs.Known.{may_answer};
ghost use Rattle.pam_text.specs.Members.{Member};
ghost use Rattle.pam_findings.specs.host.inner.Looked.{OfModule, OfModules, OfRule, spot_at};
ghost use Rattle.pam_findings.specs.host.StackProblems.{InItems};
ghost use Rattle.pam_findings.specs.host.inner.Table.{Adds};
ghost use Rattle.pam_findings.specs.host.Verdicts.{HasOther, SaysWhoLogsIn, is_other};

use crate::host::arguments::push_arguments;
use crate::host::callers::{caller_is_root, is_daemon_service};
use crate::host::known_modules::Modules;
use crate::host::problem::{Problem, Spot};
use crate::host::separators::lacks_separator;
use pam_codes::Code;
use pam_conf::{Kind, Module, Stack};
use pam_facts::module_name;
use pam_paths::{Knowledge, Known};
use std::alloc::AllocError;

/// A problem of a module, at its line.
pub(crate) fn spot_of(module: &Module, problem: Problem) -> Spot
    ensures { result ≡ spot_at (module_text «module».now) problem }
{
    Spot {
        file: Some(module.file),
        line: module.line,
        problem,
    }
}

/// Appends a problem of the module with this number.
pub(crate) fn push_module(
    spots: &mut Vec<Spot>,
    stack: &Stack,
    number: usize,
    problem: Problem,
) -> Result<(), AllocError>
    ensures { OnOk result (Adds (OfModule problem stack.now number) spots.old.items spots.new.items) }
{
    let Some(module) = stack.module(number) else {
        return Ok(());
    };
    spots.push(spot_of(module, problem))?;
    Ok(())
}

/// Appends a problem of a rule, if it has it.
fn push_if(
    spots: &mut Vec<Spot>,
    module: &Module,
    has: bool,
    problem: Problem,
) -> Result<(), AllocError>
    ensures { OnOk result (Adds (λ spot. (has ≡ true) × (spot ≡ spot_at (module_text «module».now) problem)) spots.old.items spots.new.items) }
{
    if has {
        spots.push(spot_of(module, problem))?;
    }
    Ok(())
}

/// Appends the problems that a module of a stack has by itself: A5, S5, S13 to S19, S23 to S25, and S3 if no stack may ask it.
fn push_of_rule(
    spots: &mut Vec<Spot>,
    modules: &Modules<'_, '_>,
    service: &[u8],
    kind: Kind,
    module: &Module,
) -> Result<(), AllocError>
    ensures { OnOk result (Adds (OfRule modules.now service.now kind (module_text «module».now)) spots.old.items spots.new.items) }
{
    let is_dashed = module.dashed;
    let is_other = is_other(module);
    push_if(spots, module, is_other, Problem::NeverAsked)?;
    let missing = modules.is_missing(module);
    push_if(spots, module, missing, Problem::NoModule { is_dashed })?;
    let lacks_function = modules.lacks_function(module, kind);
    push_if(spots, module, lacks_function, Problem::NoFunction)?;
    let caller_is_root = caller_is_root(kind, service, module);
    let is_daemon = is_daemon_service(service);
    push_if(
        spots,
        module,
        caller_is_root,
        Problem::CallerIsRoot { is_daemon },
    )?;
    let lacks_separator = lacks_separator(module);
    push_if(spots, module, lacks_separator, Problem::EmptySeparator)?;
    push_arguments(spots, modules.facts(), modules.files(), kind, module)?;
    let is_unknown = modules.is_unknown(module, kind);
    push_if(spots, module, is_unknown, Problem::UnknownModule)?;
    Ok(())
}

/// Appends the problems that modules have by themselves.
pub(crate) fn push_modules(
    spots: &mut Vec<Spot>,
    modules: &Modules<'_, '_>,
    service: &[u8],
    kind: Kind,
    stack: &Stack,
) -> Result<(), AllocError>
    ensures { OnOk result (Adds (λ spot. InItems modules.now service.now kind (Some stack.now) spot spot.problem) spots.old.items spots.new.items) }
{
    // The items say that the modules are numbered from 1 on.
    let _items = stack.items();
    for index in 0..stack.modules() {
        if let Some(module) = stack.module(index + 1) {
            push_of_rule(spots, modules, service, kind, module)?;
        }
    }
    Ok(())
}

/// Appends the modules with these numbers, which can jump past the end of their list: S4.
pub(crate) fn push_jumps(
    spots: &mut Vec<Spot>,
    stack: &Stack,
    numbers: &[usize],
) -> Result<(), AllocError>
    ensures { OnOk result (Adds (OfModules Problem.JumpPastEnd stack.now (λ number. Member number numbers.now)) spots.old.items spots.new.items) }
{
    for number in numbers {
        push_module(spots, stack, *number, Problem::JumpPastEnd)?;
    }
    Ok(())
}

/// Whether a module may succeed.
pub(crate) fn may_succeed(known: &Known, number: usize) -> bool
    ensures { result ≡ may_answer known.now number success }
{
    known.allowed(number).contains(Code::SUCCESS)
}

/// Appends S26 of the module with this number, if it says who logs in.
fn push_if_checks(
    spots: &mut Vec<Spot>,
    stack: &Stack,
    failing: &Known,
    number: usize,
) -> Result<(), AllocError>
    ensures { OnOk result (Adds (λ spot. SaysWhoLogsIn failing.now number × OfModule Problem.SuccessNeverCounts stack.now number spot)
        spots.old.items spots.new.items) }
{
    if may_succeed(failing, number) {
        return Ok(());
    }
    push_module(spots, stack, number, Problem::SuccessNeverCounts)?;
    Ok(())
}

/// Appends S26 of the modules with these numbers, whose success never counts, that say who logs in.
pub(crate) fn push_never_counting(
    spots: &mut Vec<Spot>,
    stack: &Stack,
    failing: &Known,
    numbers: &[usize],
) -> Result<(), AllocError>
    ensures { OnOk result (Adds
        (OfModules Problem.SuccessNeverCounts stack.now (λ number. Member number numbers.now × SaysWhoLogsIn failing.now number))
        spots.old.items spots.new.items) }
{
    for number in numbers {
        push_if_checks(spots, stack, failing, *number)?;
    }
    Ok(())
}

/// Whether a number is one of these.
pub(crate) fn is_listed(number: usize, numbers: &[usize]) -> bool
    ensures { result ≡ list_any (λ listed. listed == number) numbers.now }
{
    numbers.contains(&number)
}

/// Appends S3 of the module with this number, unless it is one of these.
fn push_unless_listed(
    asked: &mut Vec<Spot>,
    stack: &Stack,
    never_asked: &[usize],
    number: usize,
) -> Result<(), AllocError>
    ensures { OnOk result (Adds (λ spot. (Member number never_asked.now → ⊥) × OfModule Problem.NeverAsked stack.now number spot)
        asked.old.items asked.new.items) }
{
    if is_listed(number, never_asked) {
        return Ok(());
    }
    push_module(asked, stack, number, Problem::NeverAsked)?;
    Ok(())
}

/// Appends S3 of each module that may be asked, where those with these numbers are not.
pub(crate) fn push_asked(
    asked: &mut Vec<Spot>,
    stack: &Stack,
    never_asked: &[usize],
) -> Result<(), AllocError>
    ensures { OnOk result (Adds (OfModules Problem.NeverAsked stack.now (λ number. Member number never_asked.now → ⊥)) asked.old.items asked.new.items) }
{
    // The items say that the modules are numbered from 1 on.
    let _items = stack.items();
    for index in 0..stack.modules() {
        push_unless_listed(asked, stack, never_asked, index + 1)?;
    }
    Ok(())
}

/// Whether a module neither denies nor only warns.
fn is_other(module: &Module) -> bool
    ensures { result ≡ is_other (module_text «module».now) }
{
    match module_name(&module.path) {
        Some(name) => !(name == b"pam_deny".as_slice() || name == b"pam_warn".as_slice()),
        None => true,
    }
}

/// Whether the module with this number neither denies nor only warns.
fn is_other_at(stack: &Stack, number: usize) -> bool
    ensures { result ≡ option_map_or is_other (module_at number stack.now) false }
{
    match stack.module(number) {
        Some(module) => is_other(module),
        None => false,
    }
}

/// Whether a stack has a module that neither denies nor only warns.
pub(crate) fn has_other(stack: &Stack) -> bool
    ensures some { IsTrue result → HasOther stack.now }
    ensures none { IsFalse result → HasOther stack.now → ⊥ }
{
    // The items say that the modules are numbered from 1 on.
    let _items = stack.items();
    for index in 0..stack.modules() {
        if is_other_at(stack, index + 1) {
            return true;
        }
    }
    false
}

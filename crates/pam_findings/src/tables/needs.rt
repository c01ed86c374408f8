//! Which tables the modules of stacks read.

ghost use Rattle.std.specs.Prelude.{◌≡◌, [], IfOk, IsTrue, OnOk, map};
ghost use Rattle.pam_conf.specs.ItemsOf.{module_text};
ghost use Rattle.pam_text.specs.Members.{Member};
ghost use Rattle.pam_findings.specs.tables.Needs.{IsNeeded, IsNeededBy, IsNeededIn, OfAccess, OfGroups, OfTime, access_needs, needs_of};
ghost use Rattle.pam_findings.specs.tables.Needs.{time_needs};
ghost use Rattle.pam_tables.specs.Options.{options_of};
ghost use Rattle.pam_findings.specs.tables.inner.Passes.{Adds, IsNeededAt, IsNeededFor, need_view};

use pam_conf::{Kind, Module, RuleFiles, Stack};
use pam_facts::known::{is_access_reader, is_time_reader};
use pam_tables::AccessOptions;
use pam_text::Texts;
use std::alloc::{AllocError, Global};

/// A table that a module reads.
#[derive(Drop)]
pub(crate) enum Needed {
    Groups,
    /// The access tables, with these arguments of the module.
    Access(Texts),
    Time,
}

fn copy(alloc: Global, texts: &Texts) -> Result<Texts, AllocError>
    ensures { IfOk result (λ copied. copied ≡ texts.now) }
{
    let mut copied = Texts::new(alloc);
    for text in texts.iter() {
        copied.push(text)?;
    }
    Ok(copied)
}

/// Whether the group file is known to be needed.
fn has_groups(needs: &[Needed]) -> bool
    ensures { IsTrue result → Member OfGroups (map need_view needs.now) }
{
    for need in needs {
        if let Needed::Groups = need {
            return true;
        }
    }
    false
}

/// Whether the time table is known to be needed.
fn has_time(needs: &[Needed]) -> bool
    ensures { IsTrue result → Member OfTime (map need_view needs.now) }
{
    for need in needs {
        if let Needed::Time = need {
            return true;
        }
    }
    false
}

/// Whether the access tables are known to be needed with the same options.
fn has_access(needs: &[Needed], options: &AccessOptions<'_>) -> bool
    ensures { IsTrue result → Member (OfAccess options.now) (map need_view needs.now) }
{
    for need in needs {
        if let Needed::Access(arguments) = need {
            if AccessOptions::of(arguments).is_same(options) {
                return true;
            }
        }
    }
    false
}

fn add_groups(needs: &mut Vec<Needed>) -> Result<(), AllocError>
    ensures { OnOk result (Adds (λ need. need ≡ OfGroups) (map need_view needs.old.items) (map need_view needs.new.items)) }
{
    if has_groups(needs) {
        return Ok(());
    }
    needs.push(Needed::Groups)?;
    Ok(())
}

fn add_time(needs: &mut Vec<Needed>) -> Result<(), AllocError>
    ensures { OnOk result (Adds (λ need. need ≡ OfTime) (map need_view needs.old.items) (map need_view needs.new.items)) }
{
    if has_time(needs) {
        return Ok(());
    }
    needs.push(Needed::Time)?;
    Ok(())
}

fn add_access(alloc: Global, needs: &mut Vec<Needed>, arguments: &Texts) -> Result<(), AllocError>
    ensures { OnOk result (Adds (λ need. need ≡ OfAccess (options_of arguments.now)) (map need_view needs.old.items) (map need_view needs.new.items)) }
{
    if has_access(needs, &AccessOptions::of(arguments)) {
        return Ok(());
    }
    needs.push(Needed::Access(copy(alloc, arguments)?))?;
    Ok(())
}

/// Adds the tables of pam_access, if the module reads them.
fn add_of_access(alloc: Global, needs: &mut Vec<Needed>, module: &Module) -> Result<(), AllocError>
    ensures { OnOk result (Adds (λ need. Member need (access_needs (module_text «module».now)))
        (map need_view needs.old.items) (map need_view needs.new.items)) }
{
    if !is_access_reader(module) {
        return Ok(());
    }
    add_groups(needs)?;
    add_access(alloc, needs, &module.arguments)
}

/// Adds the time table, if the module reads it.
fn add_of_time(needs: &mut Vec<Needed>, kind: Kind, module: &Module) -> Result<(), AllocError>
    ensures { OnOk result (Adds (λ need. Member need (time_needs kind (module_text «module».now)))
        (map need_view needs.old.items) (map need_view needs.new.items)) }
{
    if !is_time_reader(kind, module) {
        return Ok(());
    }
    add_time(needs)
}

/// Adds the tables that a module reads.
fn add_module(
    alloc: Global,
    needs: &mut Vec<Needed>,
    kind: Kind,
    module: &Module,
) -> Result<(), AllocError>
    ensures { OnOk result (Adds (λ need. Member need (needs_of kind (module_text «module».now)))
        (map need_view needs.old.items) (map need_view needs.new.items)) }
{
    add_of_access(alloc, needs, module)?;
    add_of_time(needs, kind, module)
}

/// Adds the tables that the module with this number reads.
fn add_number(
    alloc: Global,
    needs: &mut Vec<Needed>,
    kind: Kind,
    stack: &Stack,
    number: usize,
) -> Result<(), AllocError>
    ensures { OnOk result (Adds (IsNeededAt kind stack.now number) (map need_view needs.old.items) (map need_view needs.new.items)) }
{
    match stack.module(number) {
        Some(module) => add_module(alloc, needs, kind, module),
        None => Ok(()),
    }
}

/// Adds the tables that the modules of a stack read.
fn add_stack(
    alloc: Global,
    needs: &mut Vec<Needed>,
    kind: Kind,
    stack: &Stack,
) -> Result<(), AllocError>
    ensures { OnOk result (Adds (IsNeededIn stack.now kind) (map need_view needs.old.items) (map need_view needs.new.items)) }
{
    // The items say that the modules are numbered from 1 on.
    let _items = stack.items();
    for index in 0..stack.modules() {
        add_number(alloc, needs, kind, stack, index + 1)?;
    }
    Ok(())
}

/// Adds the tables that the stack of a service for a kind needs.
fn add_kind(
    alloc: Global,
    needs: &mut Vec<Needed>,
    rules: &RuleFiles<'_>,
    service: &[u8],
    kind: Kind,
) -> Result<(), AllocError>
    ensures { OnOk result (Adds (IsNeededFor rules.now service.now kind) (map need_view needs.old.items) (map need_view needs.new.items)) }
{
    let survey = rules.survey(alloc, service, kind)?;
    match &survey.stack {
        Some(stack) => add_stack(alloc, needs, kind, stack),
        None => Ok(()),
    }
}

/// Adds the tables that the four stacks of a service need.
fn add_service(
    alloc: Global,
    needs: &mut Vec<Needed>,
    rules: &RuleFiles<'_>,
    service: &[u8],
) -> Result<(), AllocError>
    ensures { OnOk result (Adds (IsNeededBy rules.now service.now) (map need_view needs.old.items) (map need_view needs.new.items)) }
{
    add_kind(alloc, needs, rules, service, Kind::Auth)?;
    add_kind(alloc, needs, rules, service, Kind::Account)?;
    add_kind(alloc, needs, rules, service, Kind::Password)?;
    add_kind(alloc, needs, rules, service, Kind::Session)
}

/// Returns the tables that the stacks of these services need, the access tables once for each of the options under which they
/// are read.
pub(crate) fn needs_of(
    alloc: Global,
    rules: &RuleFiles<'_>,
    services: &Texts,
) -> Result<Vec<Needed>, AllocError>
    ensures { IfOk result (λ needs. Adds (IsNeeded rules.now services.now) [] (map need_view needs.items)) }
{
    let mut needs = Vec::new(alloc);
    for service in services.iter() {
        add_service(alloc, &mut needs, rules, service)?;
    }
    Ok(needs)
}

//! Modules that one of two stacks alone has, and that keep somebody from logging in or count who failed to.

ghost use Rattle.std.specs.Prelude.{◌≡◌, IfOk, filter_map};
ghost use Rattle.pam_conf.specs.ItemsOf.{module_text};
ghost use Rattle.pam_changes.specs.Guards.{AreGuards, counts_failures, guard_of, guard_there, guarding, has_argument, has_name, is_gate};
ghost use Rattle.pam_changes.specs.Guards.{is_gate_name, said_of, says_who_logs_in};
ghost use Rattle.pam_changes.specs.Sides.{side_view, sides_view};

use crate::known::Stacks;
use crate::modules::ModuleChanges;
use crate::sides::{Side, Sides};
use pam_conf::{Kind, Module, Stack};
use pam_facts::{Class, Facts, is_there, module_name};
use std::alloc::{AllocError, Global};

/// How a module guards a login.
#[derive(Clone, Copy, Debug, PartialEq, Eq)]
pub enum Guard {
    /// In `auth` it checks who logs in, as facts say of it.
    Checks,
    /// It may refuse a login: pam_nologin, pam_access, pam_time or pam_wheel, where facts say that it has a function.
    Refuses,
    /// In `auth` it counts failed logins: pam_faillock with the argument `authfail`.
    Counts,
}

/// A module that guards a login, by its number.
#[derive(Clone, Copy, Debug, PartialEq, Eq)]
pub struct GuardingModule {
    pub number: usize,
    pub guard: Guard,
}

/// The modules that one of two stacks alone has, and that guard a login there. One that is not there guards nothing.
#[derive(Debug, Drop)]
pub struct GuardChanges {
    /// Of the removed modules, in order.
    pub removed: Vec<GuardingModule>,
    /// Of the added modules, in order.
    pub added: Vec<GuardingModule>,
}

fn is_gate_name(name: &[u8]) -> bool
    ensures { result ≡ is_gate_name name.now }
{
    name == b"pam_nologin".as_slice()
        || name == b"pam_access".as_slice()
        || name == b"pam_time".as_slice()
        || name == b"pam_wheel".as_slice()
}

/// Whether a module may refuse a login. In `password` it refuses another password and no login.
fn is_gate(kind: Kind, module: &Module) -> bool
    ensures { result ≡ is_gate kind (module_text «module».now) }
{
    if kind == Kind::Password {
        return false;
    }
    match module_name(&module.path) {
        Some(name) => is_gate_name(name),
        None => false,
    }
}

fn has_name(wanted: &[u8], module: &Module) -> bool
    ensures { result ≡ has_name wanted.now (module_text «module».now) }
{
    match module_name(&module.path) {
        Some(name) => name == wanted,
        None => false,
    }
}

fn has_argument(wanted: &[u8], module: &Module) -> bool
    ensures { result ≡ has_argument wanted.now (module_text «module».now) }
{
    module.arguments.iter().any(|argument| argument == wanted)
}

fn counts_failures(kind: Kind, module: &Module) -> bool
    ensures { result ≡ counts_failures kind (module_text «module».now) }
{
    match kind {
        Kind::Auth => has_name(b"pam_faillock", module) && has_argument(b"authfail", module),
        Kind::Account | Kind::Password | Kind::Session => false,
    }
}

/// Whether the success of a module of a class says who logs in.
fn says_who_logs_in(kind: Kind, class: Class) -> bool
    ensures { result ≡ says_who_logs_in kind class }
{
    match (kind, class) {
        (Kind::Auth, Class::Checks | Class::Ignores) => true,
        _ => false,
    }
}

/// How a module of a class guards a login.
fn said_of(kind: Kind, class: Class, module: &Module) -> Option<Guard>
    ensures { result ≡ said_of kind class (module_text «module».now) }
{
    if counts_failures(kind, module) {
        Some(Guard::Counts)
    } else if says_who_logs_in(kind, class) {
        Some(Guard::Checks)
    } else if is_gate(kind, module) {
        Some(Guard::Refuses)
    } else {
        None
    }
}

/// How a module guards a login. One that has no function in stacks of its kind guards none.
fn guard_of(facts: &Facts<'_>, kind: Kind, module: &Module) -> Option<Guard>
    ensures { result ≡ guard_of facts.now kind (module_text «module».now) }
{
    let fact = facts.of(&module.path, &module.arguments);
    let class = fact.class;
    if fact.has_function(kind) {
        said_of(kind, class, module)
    } else {
        None
    }
}

/// The same, where one that is not there guards none.
fn guard_there(facts: &Facts<'_>, side: &Side<'_>, kind: Kind, module: &Module) -> Option<Guard>
    ensures { result ≡ guard_there facts.now (side_view side.now) kind (module_text «module».now) }
{
    if is_there(side.there, &module.path) {
        guard_of(facts, kind, module)
    } else {
        None
    }
}

/// A stack of a configuration, and the facts of its modules.
#[derive(Clone, Copy)]
struct Guarded<'x, 'f> {
    facts: &'x Facts<'f>,
    side: &'x Side<'x>,
    kind: Kind,
    stack: &'x Stack,
}

impl Guarded<'_, '_> {
    /// A module of the stack, if it guards a login.
    fn guarding(&self, number: usize) -> Option<GuardingModule>
        ensures { result ≡ guarding self.now.facts.now (side_view self.now.side.now) self.now.kind self.now.stack.now number }
    {
        let guard = guard_there(self.facts, self.side, self.kind, self.stack.module(number)?)?;
        Some(GuardingModule { number, guard })
    }

    /// Those of the modules that guard a login.
    fn guarding_among(
        &self,
        alloc: Global,
        numbers: &[usize],
    ) -> Result<Vec<GuardingModule>, AllocError>
        ensures { IfOk result (λ found. found.items
            ≡ filter_map (guarding self.now.facts.now (side_view self.now.side.now) self.now.kind self.now.stack.now) numbers.now) }
    {
        let mut found = Vec::new(alloc);
        for number in numbers {
            if let Some(module) = self.guarding(*number) {
                found.push(module)?;
            }
        }
        Ok(found)
    }
}

impl GuardChanges {
    /// The modules that one of two stacks alone has, and that guard a login there.
    pub(crate) fn of(
        alloc: Global,
        sides: &Sides<'_, '_>,
        stacks: Stacks<'_>,
        modules: &ModuleChanges,
    ) -> Result<GuardChanges, AllocError>
        ensures { IfOk result (AreGuards (sides_view sides.now) stacks.entry.kind stacks.entry.old.now stacks.entry.new.now modules.now) }
    {
        let old = Guarded {
            facts: sides.facts,
            side: &sides.old,
            kind: stacks.kind,
            stack: stacks.old,
        };
        let new = Guarded {
            facts: sides.facts,
            side: &sides.new,
            kind: stacks.kind,
            stack: stacks.new,
        };
        let removed = old.guarding_among(alloc, &modules.removed)?;
        let added = new.guarding_among(alloc, &modules.added)?;
        Ok(GuardChanges { removed, added })
    }
}

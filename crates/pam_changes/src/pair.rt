//! Two stacks that are not the same.

ghost use Rattle.std.specs.Prelude.{◌≡◌, IfOk, Option};
ghost use Rattle.pam_compare.specs.Comparison.{AreChanges as AreCompared, IsComparison, IsShown as IsWitnessed};
ghost use Rattle.pam_compare.specs.Matching.{matching_of};
ghost use Rattle.pam_compare.specs.declared.change.Change.{Change};
ghost use Rattle.pam_paths.specs.Listing.{Allowance};
ghost use Rattle.pam_changes.specs.Pairs.{AreDecisions, AreShown, IsCompared, IsPair, IsProgramOf, IsShown};
ghost use Rattle.pam_changes.specs.Sides.{sides_view};

use crate::guards::GuardChanges;
use crate::known::{Stacks, alike_modules, known_answers};
use crate::modules::ModuleChanges;
use crate::sides::Sides;
use crate::steps::{AskedModule, asked_modules};
use pam_compare::{Changes, Comparison, Matching, Witness, compare};
use pam_conf::{Kind, Stack};
use pam_dispatch::Program;
use std::alloc::{AllocError, Global};

/// Answers with which two stacks decide differently, and the modules that either stack then asks: those of the new stack in order,
/// and before a module that both stacks have those that only the old one has and that come before it there.
#[derive(Drop)]
pub struct Shown {
    pub witness: Witness,
    pub asked: Vec<AskedModule>,
}

/// For each change, the first answers that make it, or `None` if no answers do.
#[derive(Drop)]
pub struct ShownChanges {
    pub admits: Option<Shown>,
    pub refuses: Option<Shown>,
    pub tells: Option<Shown>,
}

/// How the decisions of two stacks differ.
#[derive(Drop)]
pub enum Decisions {
    Known(ShownChanges),
    /// The stacks can be in more than `pam_compare::MAX_SITUATIONS` situations.
    NotKnown,
}

/// The stacks that two configurations give a service, by its position, for a kind.
#[derive(Drop)]
pub(crate) struct BothStacks {
    pub service: usize,
    pub kind: Kind,
    pub old: Stack,
    pub new: Stack,
}

/// Two stacks of a kind that are not the same, and how they differ.
#[derive(Drop)]
pub struct StackPair {
    /// The service at which they are met first, by its position.
    pub service: usize,
    pub kind: Kind,
    pub old: Stack,
    pub new: Stack,
    pub matching: Matching,
    pub modules: ModuleChanges,
    pub guards: GuardChanges,
    pub decisions: Decisions,
}

/// Two programs whose modules are matched.
#[derive(Clone, Copy)]
struct Programs<'x> {
    old: &'x Program,
    new: &'x Program,
    matching: &'x Matching,
}

impl Programs<'_> {
    /// Answers, with the modules that are then asked.
    fn shown(&self, alloc: Global, witness: Option<Witness>) -> Result<Option<Shown>, AllocError>
        ensures { (old_allows new_allows : Allowance) (change : Change)
            → IsWitnessed old_allows new_allows self.now.old.now self.now.new.now self.now.matching.now change witness
            → IfOk result (IsShown old_allows new_allows self.now.old.now self.now.new.now self.now.matching.now change) }
    {
        match witness {
            Some(witness) => {
                let asked = asked_modules(alloc, self.old, self.new, self.matching, &witness)?;
                Ok(Some(Shown { witness, asked }))
            }
            None => Ok(None),
        }
    }

    fn shown_changes(&self, alloc: Global, changes: Changes) -> Result<ShownChanges, AllocError>
        ensures { (old_allows new_allows : Allowance)
            → AreCompared old_allows new_allows self.now.old.now self.now.new.now self.now.matching.now changes
            → IfOk result (AreShown old_allows new_allows self.now.old.now self.now.new.now self.now.matching.now) }
    {
        let admits = self.shown(alloc, changes.admits)?;
        let refuses = self.shown(alloc, changes.refuses)?;
        let tells = self.shown(alloc, changes.tells)?;
        Ok(ShownChanges {
            admits,
            refuses,
            tells,
        })
    }

    fn decisions(&self, alloc: Global, comparison: Comparison) -> Result<Decisions, AllocError>
        ensures { (old_allows new_allows : Allowance)
            → IsComparison old_allows new_allows self.now.old.now self.now.new.now self.now.matching.now comparison
            → IfOk result (AreDecisions old_allows new_allows self.now.old.now self.now.new.now self.now.matching.now) }
    {
        match comparison {
            Comparison::Known(changes) => {
                let shown = self.shown_changes(alloc, changes)?;
                Ok(Decisions::Known(shown))
            }
            Comparison::NotKnown => Ok(Decisions::NotKnown),
        }
    }
}

/// The program of a stack.
fn program_of(alloc: Global, stack: &Stack) -> Result<Program, AllocError>
    ensures { IfOk result (IsProgramOf stack.now) }
{
    match Program::of(alloc, stack) {
        Ok(program) => Ok(program),
        Err(_) => Err(AllocError),
    }
}

/// The matching of two stacks.
fn matching_of(alloc: Global, old: &Stack, new: &Stack) -> Result<Matching, AllocError>
    ensures { IfOk result (λ m. m ≡ matching_of old.now new.now) }
{
    match Matching::of(alloc, old, new) {
        Ok(matching) => Ok(matching),
        Err(_) => Err(AllocError),
    }
}

/// Two stacks of a kind, whose modules are matched.
#[derive(Clone, Copy)]
struct Matched<'x> {
    kind: Kind,
    old: &'x Stack,
    new: &'x Stack,
    matching: &'x Matching,
}

impl Matched<'_> {
    /// How the decisions of two stacks, with these programs, differ under what is known of their modules.
    fn decisions_of(
        &self,
        alloc: Global,
        sides: &Sides<'_, '_>,
        old: &Program,
        new: &Program,
    ) -> Result<Decisions, AllocError>
        requires old { IsProgramOf self.now.old.now old.now }
        requires new { IsProgramOf self.now.new.now new.now }
        ensures { IfOk result (IsCompared (sides_view sides.now) self.now.kind self.now.old.now self.now.new.now self.now.matching.now) }
    {
        let old_known = known_answers(sides, &sides.old, self.kind, self.old);
        let new_known = known_answers(sides, &sides.new, self.kind, self.new);
        let stacks = Stacks {
            kind: self.kind,
            old: self.old,
            new: self.new,
        };
        let matching = alike_modules(alloc, sides, stacks, self.matching)?;
        let programs = Programs {
            old,
            new,
            matching: &matching,
        };
        match compare(alloc, old, new, &matching, &old_known, &new_known) {
            Ok(comparison) => programs.decisions(alloc, comparison),
            Err(_) => Err(AllocError),
        }
    }

    /// How the decisions of two stacks differ under what is known of their modules.
    fn decisions(&self, alloc: Global, sides: &Sides<'_, '_>) -> Result<Decisions, AllocError>
        ensures { IfOk result (IsCompared (sides_view sides.now) self.now.kind self.now.old.now self.now.new.now self.now.matching.now) }
    {
        let old = program_of(alloc, self.old)?;
        let new = program_of(alloc, self.new)?;
        self.decisions_of(alloc, sides, &old, &new)
    }
}

impl StackPair {
    /// Compares two stacks, which are met first at their service.
    pub(crate) fn of(
        alloc: Global,
        sides: &Sides<'_, '_>,
        stacks: BothStacks,
    ) -> Result<StackPair, AllocError>
        ensures pair { IfOk result (IsPair (sides_view sides.now)) }
        ensures service { IfOk result (λ pair. pair.service ≡ stacks.service) }
        ensures kind { IfOk result (λ pair. pair.kind ≡ stacks.kind) }
        ensures old { IfOk result (λ pair. pair.old ≡ stacks.old) }
        ensures new { IfOk result (λ pair. pair.new ≡ stacks.new) }
    {
        let BothStacks {
            service,
            kind,
            old,
            new,
        } = stacks;
        let matching = matching_of(alloc, &old, &new)?;
        let modules = ModuleChanges::of(alloc, &old, &new, &matching)?;
        let stacks = Stacks {
            kind,
            old: &old,
            new: &new,
        };
        let guards = GuardChanges::of(alloc, sides, stacks, &modules)?;
        let matched = Matched {
            kind,
            old: &old,
            new: &new,
            matching: &matching,
        };
        let decisions = matched.decisions(alloc, sides)?;
        Ok(StackPair {
            service,
            kind,
            old,
            new,
            matching,
            modules,
            guards,
            decisions,
        })
    }
}

//! The stacks that are compared.

ghost use Rattle.std.specs.Prelude.{◌≡◌, ◌↔◌, ◌∷◌, ◌++◌, [], IfOk, IfSome, IsTrue, List, None, OnOk, Ok, Result, Some, length, map, slice_get, ℕ};
ghost use Rattle.pam_conf.specs.Resolution.{resolved};
ghost use Rattle.pam_conf.specs.Stack.{Items};
ghost use Rattle.pam_conf.specs.declared.conf_error.ConfError.{ConfError as ConfErrorText};
ghost use Rattle.pam_changes.specs.Changes.{HasItems, IsChange, fault_in, kinds_asked, no_service};
ghost use Rattle.pam_changes.specs.inner.Finding.{AddsPairs, HasItemsAt, IsFound, TellsNew};
ghost use Rattle.pam_changes.specs.Sides.{SidesText, sides_view};
ghost use Rattle.pam_changes.specs.declared.pair.StackPair.{StackPair as PairText};
ghost use Rattle.pam_changes.specs.declared.stacks.StackChange.TheVariants as changes;
ghost use Rattle.pam_conf.specs.declared.rule.Kind.{Kind as KindText};

use crate::digest::digest_of;
use crate::known::are_there_alike;
use crate::pair::{BothStacks, StackPair};
use crate::sides::{Side, Sides};
use indexmap::IndexMap;
use pam_compare::are_same_stacks;
use pam_conf::laws::stack_is_sound_survey;
use pam_conf::{ConfError, FaultKind, Kind, RuleFiles, Stack, Survey, is_sound, resolve};
use std::alloc::{AllocError, Global};

/// What changes in the stack of a service for a kind.
#[derive(Clone, Copy, Debug, PartialEq, Eq)]
pub enum StackChange {
    /// Nothing: neither configuration has rules for the service or for `other`.
    NoStack,
    /// At least one configuration refuses the service: the first fault of each, or `None` if it accepts it.
    Refused {
        old: Option<ConfError>,
        new: Option<ConfError>,
    },
    /// Nothing: the stacks have the same items, and each module is there in both configurations or in neither.
    Same,
    /// What the pair at this position of `pairs` says: it is of the same kind, its old stack has the items of the old stack here, and
    /// its new one those of the new.
    Differs(usize),
}

/// A service, by its position, and a kind, with what changes in its stack.
#[derive(Clone, Copy, Debug, PartialEq, Eq)]
pub struct ComparedStack {
    pub service: usize,
    pub kind: Kind,
    pub change: StackChange,
}

/// The stack of a service, or the first fault.
type Resolved = Result<Stack, ConfError>;

/// What the stacks are made from.
#[derive(Drop)]
pub(crate) struct Comparer<'x, 'f> {
    pub alloc: Global,
    pub sides: &'x Sides<'x, 'f>,
    pub old_rules: &'x RuleFiles<'x>,
    pub new_rules: &'x RuleFiles<'x>,
    ghost old: { old_rules.now ≡ sides.now.old.files.now },
    ghost new: { new_rules.now ≡ sides.now.new.files.now },
}

/// What is found so far.
#[derive(Drop)]
pub(crate) struct Found {
    pub stacks: Vec<ComparedStack>,
    pub pairs: Vec<StackPair>,
    /// By the digest of its stacks, the position of a pair. It is a hint: the stacks are compared before it is used.
    by_digest: IndexMap<u64, usize>,
}

/// The stack that a walk from the first rule on gives, or its first fault.
fn walked(alloc: Global, side: &Side<'_>, name: &[u8], kind: Kind) -> Result<Resolved, AllocError>
    ensures { IfOk result (λ stack. stack ≡ resolved side.now.files.now name.now kind) }
{
    match resolve(alloc, side.files, name, kind) {
        Ok(stack) => Ok(Ok(stack)),
        Err(error) => {
            if error.kind == FaultKind::Memory {
                return Err(AllocError);
            }
            Ok(Err(error))
        }
    }
}

/// The stack of a service, or the first fault. The rules that were read give the stack where there is none; only a fault needs
/// another walk.
fn stack_of(
    alloc: Global,
    side: &Side<'_>,
    rules: &RuleFiles<'_>,
    name: &[u8],
    kind: Kind,
) -> Result<Resolved, AllocError>
    requires { rules.now ≡ side.now.files.now }
    ensures { IfOk result (λ stack. stack ≡ resolved side.now.files.now name.now kind) }
{
    stack_is_sound_survey();
    let survey = rules.survey(alloc, name, kind)?;
    if !is_sound(rules, &survey) {
        return walked(alloc, side, name, kind);
    }
    let Survey { stack, .. } = survey;
    match stack {
        Some(stack) => Ok(Ok(stack)),
        None => walked(alloc, side, name, kind),
    }
}

/// Whether a fault says that neither the service nor `other` has rules.
fn is_absent(fault: Option<ConfError>) -> bool
    ensures { IsTrue result ↔ (fault ≡ Some no_service) }
{
    match fault {
        Some(fault) => {
            fault.kind == FaultKind::NoService && fault.at.is_none() && fault.line == 0
        }
        None => false,
    }
}

/// The fault of a service, if it is refused.
fn fault_of(resolved: Resolved) -> Option<ConfError>
    ensures { result ≡ fault_in resolved }
{
    resolved.err()
}

/// What changes where at least one configuration refuses the service.
fn refused(old: Option<ConfError>, new: Option<ConfError>) -> StackChange
    requires { old ≡ None → new ≡ None → ⊥ }
    ensures { (sides : SidesText) (pairs : List PairText) (kind : KindText) (one other : Result Items ConfErrorText) → old ≡ fault_in one → new ≡ fault_in other
        → IsChange sides pairs kind one other result }
{
    if is_absent(old) && is_absent(new) {
        return StackChange::NoStack;
    }
    StackChange::Refused { old, new }
}

impl Found {
    pub(crate) fn nothing(alloc: Global) -> Found
        ensures stacks { result.stacks.items ≡ [] }
        ensures pairs { result.pairs.items ≡ [] }
    {
        Found {
            stacks: Vec::new(alloc),
            pairs: Vec::new(alloc),
            by_digest: IndexMap::new(alloc),
        }
    }

    /// The position of a pair of these stacks, if it is found.
    fn find(&self, stacks: &BothStacks, digest: u64) -> Option<usize>
        ensures { IfSome result (λ k. HasItemsAt stacks.now.kind stacks.now.old stacks.now.new (slice_get self.now.pairs.items k)) }
    {
        let Some(position) = self.by_digest.get(&digest) else {
            return None;
        };
        let position = *position;
        let Some(pair) = self.pairs.get(position) else {
            return None;
        };
        if has_items(stacks, pair) {
            return Some(position);
        }
        None
    }

    /// Adds a pair. Returns its position.
    fn push(&mut self, pair: StackPair, digest: u64) -> Result<usize, AllocError>
        ensures pairs { OnOk result (self.new.pairs.items ≡ self.old.pairs.items ++ pair ∷ []) }
        ensures stacks { OnOk result (self.new.stacks.items ≡ self.old.stacks.items) }
        ensures position { IfOk result (λ k. k ≡ length self.old.pairs.items) }
    {
        let position = self.pairs.len();
        self.pairs.push(pair)?;
        self.by_digest.insert(digest, position)?;
        Ok(position)
    }
}

/// Whether a pair has the items of these stacks.
fn has_items(stacks: &BothStacks, pair: &StackPair) -> bool
    ensures { IsTrue result → HasItems stacks.now.kind stacks.now.old stacks.now.new pair.now }
{
    pair.kind == stacks.kind
        && are_same_stacks(&pair.old, &stacks.old)
        && are_same_stacks(&pair.new, &stacks.new)
}

impl Comparer<'_, '_> {
    /// The position of a pair of these two stacks, which is added if there is none.
    fn position(&self, found: &mut Found, stacks: BothStacks) -> Result<usize, AllocError>
        ensures adds { OnOk result (AddsPairs (sides_view self.now.sides.now) found.old found.new) }
        ensures pair { IfOk result (λ k. HasItemsAt stacks.kind stacks.old stacks.new (slice_get found.new.pairs.items k)) }
        ensures told { IfOk result (λ k. TellsNew found.old.pairs.items stacks.service (changes.Differs k) found.new.pairs.items) }
    {
        let digest = digest_of(&stacks);
        if let Some(position) = found.find(&stacks, digest) {
            return Ok(position);
        }
        let pair = StackPair::of(self.alloc, self.sides, stacks)?;
        let position = found.push(pair, digest)?;
        Ok(position)
    }

    /// What changes from one stack to another.
    fn change(&self, found: &mut Found, stacks: BothStacks) -> Result<StackChange, AllocError>
        ensures adds { OnOk result (AddsPairs (sides_view self.now.sides.now) found.old found.new) }
        ensures change { IfOk result (IsChange (sides_view self.now.sides.now) found.new.pairs.items stacks.kind (Ok stacks.old) (Ok stacks.new)) }
        ensures told { IfOk result (λ change. TellsNew found.old.pairs.items stacks.service change found.new.pairs.items) }
    {
        if are_same_stacks(&stacks.old, &stacks.new) && are_there_alike(self.sides, &stacks.old) {
            return Ok(StackChange::Same);
        }
        let position = self.position(found, stacks)?;
        Ok(StackChange::Differs(position))
    }

    /// What changes where the configurations make this of a service.
    fn change_of(
        &self,
        found: &mut Found,
        service: usize,
        kind: Kind,
        old: Resolved,
        new: Resolved,
    ) -> Result<StackChange, AllocError>
        ensures adds { OnOk result (AddsPairs (sides_view self.now.sides.now) found.old found.new) }
        ensures change { IfOk result (IsChange (sides_view self.now.sides.now) found.new.pairs.items kind old new) }
        ensures told { IfOk result (λ change. TellsNew found.old.pairs.items service change found.new.pairs.items) }
    {
        match old {
            Ok(old) => match new {
                Ok(new) => {
                    let stacks = BothStacks {
                        service,
                        kind,
                        old,
                        new,
                    };
                    self.change(found, stacks)
                }
                Err(new) => Ok(refused(None, Some(new))),
            },
            Err(old) => Ok(refused(Some(old), fault_of(new))),
        }
    }

    /// What changes for a service and a kind.
    fn change_in(
        &self,
        found: &mut Found,
        service: usize,
        name: &[u8],
        kind: Kind,
    ) -> Result<StackChange, AllocError>
        ensures adds { OnOk result (AddsPairs (sides_view self.now.sides.now) found.old found.new) }
        ensures change { IfOk result (IsChange (sides_view self.now.sides.now) found.new.pairs.items kind
            (resolved self.now.sides.now.old.files.now name.now kind) (resolved self.now.sides.now.new.files.now name.now kind)) }
        ensures told { IfOk result (λ change. TellsNew found.old.pairs.items service change found.new.pairs.items) }
    {
        let old = stack_of(self.alloc, &self.sides.old, self.old_rules, name, kind)?;
        let new = stack_of(self.alloc, &self.sides.new, self.new_rules, name, kind)?;
        self.change_of(found, service, kind, old, new)
    }

    /// Adds what changes for a service and a kind.
    fn add_change(
        &self,
        found: &mut Found,
        service: usize,
        name: &[u8],
        kind: Kind,
    ) -> Result<(), AllocError>
        ensures { (names : List (List ℕ)) (asked : List (ℕ × KindText)) → slice_get names service ≡ Some name.now
            → IsFound (sides_view self.now.sides.now) names asked found.old
            → OnOk result (IsFound (sides_view self.now.sides.now) names (asked ++ (service, kind) ∷ []) found.new) }
    {
        let change = self.change_in(found, service, name, kind)?;
        found.stacks.push(ComparedStack {
            service,
            kind,
            change,
        })?;
        Ok(())
    }

    /// Adds what changes for a service, of all four kinds.
    fn add_all_kinds(
        &self,
        found: &mut Found,
        service: usize,
        name: &[u8],
    ) -> Result<(), AllocError>
        ensures { (names : List (List ℕ)) (asked : List (ℕ × KindText)) → slice_get names service ≡ Some name.now
            → IsFound (sides_view self.now.sides.now) names asked found.old
            → OnOk result (IsFound (sides_view self.now.sides.now) names (asked ++ map (λ k. (service, k)) (kinds_asked None)) found.new) }
    {
        self.add_change(found, service, name, Kind::Auth)?;
        self.add_change(found, service, name, Kind::Account)?;
        self.add_change(found, service, name, Kind::Password)?;
        self.add_change(found, service, name, Kind::Session)
    }

    /// Adds what changes for a service, of this kind or of all.
    pub(crate) fn add_service(
        &self,
        found: &mut Found,
        service: usize,
        name: &[u8],
        kind: Option<Kind>,
    ) -> Result<(), AllocError>
        ensures { (names : List (List ℕ)) (asked : List (ℕ × KindText)) → slice_get names service ≡ Some name.now
            → IsFound (sides_view self.now.sides.now) names asked found.old
            → OnOk result (IsFound (sides_view self.now.sides.now) names (asked ++ map (λ k. (service, k)) (kinds_asked kind)) found.new) }
    {
        match kind {
            Some(kind) => self.add_change(found, service, name, kind),
            None => self.add_all_kinds(found, service, name),
        }
    }
}

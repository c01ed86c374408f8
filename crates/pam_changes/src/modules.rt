//! How the modules of two stacks differ.

ghost use Rattle.std.specs.Prelude.{◌≡◌, IfOk, filter, is_none};
ghost use Rattle.pam_compare.specs.Matching.{partner_of};
ghost use Rattle.pam_changes.specs.Modules.{AreModuleChanges, added as added_in, comes_later, comes_sooner, differ, moved as moved_in, old_where};
ghost use Rattle.pam_changes.specs.Modules.{pairs_of, removed as removed_in, same_arguments, same_controls};

use pam_compare::{Matching, are_same_texts};
use pam_conf::Stack;
use std::alloc::{AllocError, Global};

/// A module of the old stack and the one of the new stack that is matched with it, by their numbers.
#[derive(Clone, Copy, Debug, PartialEq, Eq)]
pub struct MatchedPair {
    pub old: usize,
    pub new: usize,
}

/// How the modules of two stacks differ, by their numbers: a module that the old stack has by its number there, also one that is
/// matched. If all lists are empty, stacks that are not the same differ in their substacks, or in which modules are there.
#[derive(Debug, Drop)]
pub struct ModuleChanges {
    /// Modules of the old stack that are not matched, in order.
    pub removed: Vec<usize>,
    /// Modules of the new stack that are not matched, in order.
    pub added: Vec<usize>,
    /// Matched modules that are in another order than in the old stack: those that come after a module which they came before, or,
    /// if these are fewer, those that come before a module which they came after. They are in the order of the new stack.
    pub moved: Vec<usize>,
    /// Matched modules with other arguments, in the order of the new stack.
    pub arguments: Vec<MatchedPair>,
    /// Matched modules with another control, in the order of the new stack.
    pub controls: Vec<usize>,
}

/// The modules of the old stack that are not matched.
fn removed(alloc: Global, matching: &Matching, old: &Stack) -> Result<Vec<usize>, AllocError>
    ensures { IfOk result (λ numbers. numbers.items ≡ removed_in matching.now old.now) }
{
    let mut numbers = Vec::new(alloc);
    for index in 0..old.modules() {
        if !matching.is_matched(index + 1) {
            numbers.push(index + 1)?;
        }
    }
    Ok(numbers)
}

/// Whether a module of the new stack is not matched.
fn is_unmatched(matching: &Matching, number: usize) -> bool
    ensures { result ≡ is_none (partner_of matching.now number) }
{
    matching.partner(number).is_none()
}

/// The modules of the new stack that are not matched.
fn added(alloc: Global, matching: &Matching, new: &Stack) -> Result<Vec<usize>, AllocError>
    ensures { IfOk result (λ numbers. numbers.items ≡ added_in matching.now new.now) }
{
    let mut numbers = Vec::new(alloc);
    for index in 0..new.modules() {
        if is_unmatched(matching, index + 1) {
            numbers.push(index + 1)?;
        }
    }
    Ok(numbers)
}

/// All matched modules.
#[tactic(auto, unfolding(crate::specs::Modules::pairs_of))]
fn matched_pairs(
    alloc: Global,
    matching: &Matching,
    new: &Stack,
) -> Result<Vec<MatchedPair>, AllocError>
    ensures { IfOk result (λ pairs. pairs.items ≡ pairs_of matching.now new.now) }
{
    let mut pairs = Vec::new(alloc);
    for index in 0..new.modules() {
        if let Some(partner) = matching.partner(index + 1) {
            pairs.push(MatchedPair {
                old: partner,
                new: index + 1,
            })?;
        }
    }
    Ok(pairs)
}

/// Whether a module comes after one that it came before.
fn comes_later(pairs: &[MatchedPair], pair: &MatchedPair) -> bool
    ensures { result ≡ comes_later pairs.now pair.now }
{
    pairs
        .iter()
        .any(|other| other.new < pair.new && pair.old < other.old)
}

/// Whether a module comes before one that it came after.
fn comes_sooner(pairs: &[MatchedPair], pair: &MatchedPair) -> bool
    ensures { result ≡ comes_sooner pairs.now pair.now }
{
    pairs
        .iter()
        .any(|other| pair.new < other.new && other.old < pair.old)
}

fn later(alloc: Global, pairs: &[MatchedPair]) -> Result<Vec<usize>, AllocError>
    ensures { IfOk result (λ moved. moved.items ≡ old_where (comes_later pairs.now) pairs.now) }
{
    let mut moved = Vec::new(alloc);
    for pair in pairs {
        if comes_later(pairs, pair) {
            moved.push(pair.old)?;
        }
    }
    Ok(moved)
}

fn sooner(alloc: Global, pairs: &[MatchedPair]) -> Result<Vec<usize>, AllocError>
    ensures { IfOk result (λ moved. moved.items ≡ old_where (comes_sooner pairs.now) pairs.now) }
{
    let mut moved = Vec::new(alloc);
    for pair in pairs {
        if comes_sooner(pairs, pair) {
            moved.push(pair.old)?;
        }
    }
    Ok(moved)
}

/// The modules that come later than they did, or, if these are fewer, those that come sooner.
fn moved(alloc: Global, pairs: &[MatchedPair]) -> Result<Vec<usize>, AllocError>
    ensures { IfOk result (λ moved. moved.items ≡ moved_in pairs.now) }
{
    let later = later(alloc, pairs)?;
    let sooner = sooner(alloc, pairs)?;
    if sooner.len() < later.len() {
        return Ok(sooner);
    }
    Ok(later)
}

fn have_other_arguments(old: &Stack, new: &Stack, pair: &MatchedPair) -> bool
    ensures { result ≡ differ same_arguments old.now new.now pair.now }
{
    let Some(one) = old.module(pair.old) else {
        return false;
    };
    let Some(other) = new.module(pair.new) else {
        return false;
    };
    !are_same_texts(&one.arguments, &other.arguments)
}

fn have_other_controls(old: &Stack, new: &Stack, pair: &MatchedPair) -> bool
    ensures { result ≡ differ same_controls old.now new.now pair.now }
{
    let Some(one) = old.module(pair.old) else {
        return false;
    };
    let Some(other) = new.module(pair.new) else {
        return false;
    };
    one.control != other.control
}

fn with_other_arguments(
    alloc: Global,
    old: &Stack,
    new: &Stack,
    pairs: &[MatchedPair],
) -> Result<Vec<MatchedPair>, AllocError>
    ensures { IfOk result (λ changed. changed.items ≡ filter (differ same_arguments old.now new.now) pairs.now) }
{
    let mut changed = Vec::new(alloc);
    for pair in pairs {
        if have_other_arguments(old, new, pair) {
            changed.push(*pair)?;
        }
    }
    Ok(changed)
}

fn with_other_controls(
    alloc: Global,
    old: &Stack,
    new: &Stack,
    pairs: &[MatchedPair],
) -> Result<Vec<usize>, AllocError>
    ensures { IfOk result (λ changed. changed.items ≡ old_where (differ same_controls old.now new.now) pairs.now) }
{
    let mut changed = Vec::new(alloc);
    for pair in pairs {
        if have_other_controls(old, new, pair) {
            changed.push(pair.old)?;
        }
    }
    Ok(changed)
}

/// How matched modules differ.
#[derive(Drop)]
struct PairChanges {
    moved: Vec<usize>,
    arguments: Vec<MatchedPair>,
    controls: Vec<usize>,
}

impl PairChanges {
    fn of(
        alloc: Global,
        old: &Stack,
        new: &Stack,
        pairs: &[MatchedPair],
    ) -> Result<PairChanges, AllocError>
        ensures moved { IfOk result (λ c. c.moved.items ≡ moved_in pairs.now) }
        ensures arguments { IfOk result (λ c. c.arguments.items ≡ filter (differ same_arguments old.now new.now) pairs.now) }
        ensures controls { IfOk result (λ c. c.controls.items ≡ old_where (differ same_controls old.now new.now) pairs.now) }
    {
        let moved = moved(alloc, pairs)?;
        let arguments = with_other_arguments(alloc, old, new, pairs)?;
        let controls = with_other_controls(alloc, old, new, pairs)?;
        Ok(PairChanges {
            moved,
            arguments,
            controls,
        })
    }

    /// How the matched modules of two stacks differ.
    fn in_stacks(
        alloc: Global,
        old: &Stack,
        new: &Stack,
        matching: &Matching,
    ) -> Result<PairChanges, AllocError>
        ensures moved { IfOk result (λ c. c.moved.items ≡ moved_in (pairs_of matching.now new.now)) }
        ensures arguments { IfOk result (λ c. c.arguments.items ≡ filter (differ same_arguments old.now new.now) (pairs_of matching.now new.now)) }
        ensures controls { IfOk result (λ c. c.controls.items ≡ old_where (differ same_controls old.now new.now) (pairs_of matching.now new.now)) }
    {
        let pairs = matched_pairs(alloc, matching, new)?;
        PairChanges::of(alloc, old, new, &pairs)
    }
}

impl ModuleChanges {
    /// How the modules of two stacks differ.
    pub(crate) fn of(
        alloc: Global,
        old: &Stack,
        new: &Stack,
        matching: &Matching,
    ) -> Result<ModuleChanges, AllocError>
        ensures { IfOk result (AreModuleChanges matching.now old.now new.now) }
    {
        let changes = PairChanges::in_stacks(alloc, old, new, matching)?;
        let removed = removed(alloc, matching, old)?;
        let added = added(alloc, matching, new)?;
        Ok(ModuleChanges {
            removed,
            added,
            moved: changes.moved,
            arguments: changes.arguments,
            controls: changes.controls,
        })
    }
}

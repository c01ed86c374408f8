//! Answers of modules that one stack has asked and the other has yet to ask.

ghost use Rattle.std.specs.Prelude.{◌≡◌, ◌≢◌, ◌⊎◌, ◌+◌, ◌<◌, ◌≤◌, ◌&&◌, ◌∷◌, ◌++◌, [], ℕ};
ghost use Rattle.std.specs.Prelude.{false, true, if◌then◌else◌, IfOk, IsTrue, OnOk, Option, Some, length, slice_get};
ghost use Rattle.pam_codes.specs.Set.{is_in};
ghost use Rattle.pam_codes.specs.inner.SetBits.{bits_of_codes};
ghost use Rattle.pam_dispatch.specs.Runs.{Assignment};
ghost use Rattle.pam_compare.specs.declared.held.HeldAnswer.{HeldAnswer};
ghost use Rattle.pam_compare.specs.Held.{Holds};
ghost use Rattle.pam_compare.specs.inner.Held.{AreTables, IsNumber, IsStepFrom, held_in, is_wanted, least_of_bits};
ghost use Rattle.pam_compare.specs.Walks.{IsLeft, held_after, is_ahead, may_ask, tells};
ghost use Rattle.pam_compare.specs.inner.Naming.{AreLast};
ghost use Rattle.pam_compare.specs.inner.Turn.{PassesNoOther};
ghost use Rattle.pam_compare.specs.inner.Nodes.{Keeps};
ghost use Rattle.pam_compare.specs.inner.Trails.{AreAll, IsHeldAfter, IsPast, IsSettled};

use crate::naming::{Naming, possible_at, value_at};
use crate::turn::Turn;
use pam_codes::{CODES, CodeSet};
use pam_dispatch::Memory;
use std::alloc::Global;
use std::hash::{Hash, Hasher};

/// The answer of the module with this name was one of these codes.
#[derive(Clone, Copy, Debug, PartialEq, Eq)]
pub(crate) struct HeldAnswer {
    pub(crate) name: usize,
    pub(crate) codes: CodeSet,
}

/// What is held after an answer: the latest answers, the last one first, and then those that were held before it, from index `start`
/// on.
#[derive(Drop)]
pub(crate) struct HeldAfter {
    pub(crate) latest: Vec<HeldAnswer>,
    pub(crate) start: usize,
}

/// The least of the codes, which distinguishes sets that share none; the number of all codes if there is none.
fn least_number(codes: CodeSet) -> u8
    ensures { result ≡ least_of_bits (bits_of_codes codes) }
{
    match codes.least() {
        Some(code) => code.number(),
        None => CODES as u8,
    }
}

impl Hash for HeldAnswer {
    ghost use Rattle.std.specs.Cmp.Rules.{hashing};
    ghost use Rattle.std.specs.Hash as fed;
    ghost use Rattle.std.proofs.Common.{rules};

    ghost hash_input = { λ h. fed.usize h.name ++ fed.u8 (least_of_bits (bits_of_codes h.codes)) };

    ghost respects_eq = { Prim.search (hashing, rules) };

    fn hash<H: Hasher>(&self, state: &mut H) {
        state.write_usize(self.name);
        state.write_u8(least_number(self.codes));
    }
}

/// Of these codes, those that a held answer does not rule out for the module with this name.
fn codes_left(answer: HeldAnswer, name: usize, codes: CodeSet) -> CodeSet
    ensures kept { (c : ℕ) → c < 31 → IsTrue (is_in c codes) → (answer.name ≡ name → IsTrue (is_in c answer.codes)) → IsTrue (is_in c result) }
    ensures within { (c : ℕ) → IsTrue (is_in c result) → IsTrue (is_in c codes) }
    ensures left { answer.name ≡ name → (c : ℕ) → IsTrue (is_in c result) → IsTrue (is_in c answer.codes) }
{
    if answer.name != name {
        return codes;
    }
    codes.intersection(answer.codes)
}

/// Of these codes, those that what is held does not rule out for the module with this name.
pub(crate) fn held_codes(held: &[HeldAnswer], name: usize, codes: CodeSet) -> CodeSet
    ensures kept { (a : Assignment) → a name < 31 → Holds a held.now → IsTrue (is_in (a name) codes) → IsTrue (is_in (a name) result) }
    ensures within { (c : ℕ) → IsTrue (is_in c result) → IsTrue (is_in c codes) }
    ensures left { (i : ℕ) (h : HeldAnswer) → slice_get held.now i ≡ Some h → h.name ≡ name → (c : ℕ) → IsTrue (is_in c result) → IsTrue (is_in c h.codes) }
    ensures all { (c : ℕ) → c < 31 → IsTrue (is_in c codes) → IsLeft held.now name c → IsTrue (is_in c result) }
{
    let mut left = codes;
    for index in 0..held.len() {
        left = codes_left(held[index], name, left);
    }
    left
}

/// Whether a stack whose next module is `next` can still ask the module with this number.
fn may_ask(next: Option<usize>, number: usize) -> bool
    ensures past { result ≡ false → (i : ℕ) → next ≡ Some i → number < i }
    ensures exact { result ≡ may_ask next number }
{
    match next {
        Some(next) => next <= number,
        None => false,
    }
}

/// Whether one of the stacks has yet to ask a module with this name, where they ask the modules `old` and `new` next.
fn is_ahead(naming: &Naming, name: usize, old: Option<usize>, new: Option<usize>) -> bool
    ensures past { (modules : ℕ) → length naming.now.names.items ≡ modules + 1 → AreLast naming.now.names.items naming.now.last.items
        → result ≡ false → IsPast naming.now.names.items naming.now.old_modules modules name old new }
    ensures exact { (modules : ℕ) → AreTables naming.now modules → IsNumber new
        → result ≡ is_ahead naming.now.names.items naming.now.old_modules modules name old new }
{
    if name <= naming.old_modules && may_ask(old, name) {
        return true;
    }
    may_ask(new, value_at(&naming.last, name))
}

/// Whether these codes leave out one that the module with this name may answer.
fn tells(naming: &Naming, name: usize, codes: CodeSet) -> bool
    ensures all { result ≡ false → AreAll naming.now.possible.items name codes }
    ensures exact { result ≡ tells naming.now.possible.items (record { name = name; codes = codes }) }
{
    let possible = possible_at(&naming.possible, name);
    !possible.without(codes).is_empty()
}

/// Whether an answer of these codes is to be held, where the stacks then ask the modules `old` and `new` next. One that tells nothing
/// is not held: so what is held stays short, and situations that differ in nothing else are the same.
fn is_needed(
    naming: &Naming,
    name: usize,
    codes: CodeSet,
    old: Option<usize>,
    new: Option<usize>,
) -> bool
    ensures settled { (modules : ℕ) → length naming.now.names.items ≡ modules + 1 → AreLast naming.now.names.items naming.now.last.items → result ≡ false
        → IsSettled naming.now.possible.items naming.now.names.items naming.now.old_modules modules name codes old new }
    ensures exact { (modules : ℕ) → AreTables naming.now modules → IsNumber new
        → result ≡ (tells naming.now.possible.items (record { name = name; codes = codes })
        && is_ahead naming.now.names.items naming.now.old_modules modules name old new) }
{
    if !tells(naming, name, codes) {
        return false;
    }
    is_ahead(naming, name, old, new)
}

/// Whether an answer of the module with this name is still held after that of `answered`.
fn is_wanted(
    naming: &Naming,
    name: usize,
    answered: usize,
    old: Option<usize>,
    new: Option<usize>,
) -> bool
    ensures past { (modules : ℕ) → length naming.now.names.items ≡ modules + 1 → AreLast naming.now.names.items naming.now.last.items
        → result ≡ false → (name ≡ answered) ⊎ IsPast naming.now.names.items naming.now.old_modules modules name old new }
    ensures exact { (modules : ℕ) → AreTables naming.now modules → IsNumber new
        → result ≡ is_wanted naming.now.names.items naming.now.old_modules modules answered old new name }
{
    if name == answered {
        return false;
    }
    is_ahead(naming, name, old, new)
}

/// Appends an answer, if it is wanted.
fn push_if(is_wanted: bool, answer: HeldAnswer, held: &mut Vec<HeldAnswer>) -> Result<(), Memory>
    ensures holds { (a : Assignment) → Holds a held.old.items → IsTrue (is_in (a answer.name) answer.codes) → OnOk result (Holds a held.new.items) }
    ensures keeps { OnOk result (Keeps held.old.items held.new.items) }
    ensures pushed { is_wanted ≡ true → OnOk result ((k : ℕ) × (slice_get held.new.items k ≡ Some answer)) }
    ensures exact { OnOk result (held.new.items ≡ held.old.items ++ (if is_wanted then answer ∷ [] else [])) }
{
    if !is_wanted {
        return Ok(());
    }
    held.push(answer)?;
    Ok(())
}

/// A list with room for this many answers.
pub(crate) fn with_room(alloc: Global, count: usize) -> Result<Vec<HeldAnswer>, Memory>
    ensures { IfOk result (λ held. held.items ≡ []) }
{
    match Vec::with_capacity(alloc, count) {
        Ok(held) => Ok(held),
        Err(_) => Err(Memory),
    }
}

/// A step: whose turn it was, and the modules that the stacks ask next.
#[derive(Clone, Copy, Debug)]
pub(crate) struct Step {
    pub(crate) turn: Turn,
    pub(crate) old: Option<usize>,
    pub(crate) new: Option<usize>,
}

/// Whether the module that a stack asks next is the one after this one.
fn goes_on(number: usize, next: Option<usize>) -> bool
    ensures { IsTrue result → next ≡ Some (number + 1) }
{
    match next {
        Some(next) => number < next && next - number == 1,
        None => false,
    }
}

/// Whether the stacks have passed no modules but those that were asked. If so, each module whose answer was held is yet to be asked as
/// before, except the one that was asked.
fn passes_no_other(step: Step) -> bool
    ensures { IsTrue result → PassesNoOther step.turn step.old step.new }
{
    match step.turn {
        Turn::Old(number) => goes_on(number, step.old),
        Turn::New(number) => goes_on(number, step.new),
        Turn::Both(number, other) => goes_on(number, step.old) && goes_on(other, step.new),
    }
}

/// The index from which on none of these answers is that of the module with this name.
fn without_name(held: &[HeldAnswer], name: usize) -> usize
    ensures within { result ≤ length held.now }
    ensures others { (i : ℕ) (h : HeldAnswer) → slice_get held.now i ≡ Some h → result ≤ i → h.name ≢ name }
{
    for back in 0..held.len() {
        let index = held.len() - 1 - back;
        let earlier = held[index];
        if earlier.name == name {
            return index + 1;
        }
    }
    0
}

/// The index from which on all these answers are still held after an answer of the module with this name.
fn kept_from(naming: &Naming, held: &[HeldAnswer], name: usize, step: Step) -> usize
    ensures within { result ≤ length held.now }
    ensures wanted { (modules : ℕ) (old_before new_before : Option ℕ) → AreTables naming.now modules → IsNumber step.new
        → IsStepFrom naming.now.names.items naming.now.old_modules modules held.now name step.turn old_before new_before step.old step.new
        → (i : ℕ) (h : HeldAnswer) → slice_get held.now i ≡ Some h → result ≤ i
        → IsTrue (is_wanted naming.now.names.items naming.now.old_modules modules name step.old step.new h.name) }
{
    if passes_no_other(step) {
        return without_name(held, name);
    }
    for back in 0..held.len() {
        let index = held.len() - 1 - back;
        let earlier = held[index];
        if !is_wanted(naming, earlier.name, name, step.old, step.new) {
            return index + 1;
        }
    }
    0
}

/// What is held after a step with an answer of this class. The part at the end of the list that stays the same,
/// usually all of it, is not copied.
pub(crate) fn held_after(
    alloc: Global,
    naming: &Naming,
    held: &[HeldAnswer],
    answer: HeldAnswer,
    step: Step,
) -> Result<HeldAfter, Memory>
    ensures holds { IfOk result (λ after. (a : Assignment) → Holds a held.now → IsTrue (is_in (a answer.name) answer.codes)
        → Holds a (held_in after held.now)) }
    ensures held { (modules : ℕ) → length naming.now.names.items ≡ modules + 1 → AreLast naming.now.names.items naming.now.last.items
        → IfOk result (λ after. IsHeldAfter naming.now.possible.items naming.now.names.items naming.now.old_modules modules held.now
        (held_in after held.now) answer step.old step.new) }
    ensures exact { (modules : ℕ) (old_before new_before : Option ℕ) → AreTables naming.now modules → IsNumber step.new
        → IsStepFrom naming.now.names.items naming.now.old_modules modules held.now answer.name step.turn old_before new_before step.old step.new
        → IfOk result (λ after. held_in after held.now ≡ held_after naming.now.names.items naming.now.old_modules modules naming.now.possible.items
        held.now answer step.old step.new) }
{
    let name = answer.name;
    let start = kept_from(naming, held, name, step);
    let mut latest = with_room(alloc, start)?;
    let is_needed = is_needed(naming, name, answer.codes, step.old, step.new);
    push_if(is_needed, answer, &mut latest)?;
    for index in 0..start {
        let earlier = held[index];
        push_if(
            is_wanted(naming, earlier.name, name, step.old, step.new),
            earlier,
            &mut latest,
        )?;
    }
    Ok(HeldAfter { latest, start })
}

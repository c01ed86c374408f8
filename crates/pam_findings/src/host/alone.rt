//! S1 and S2 of a file by itself, looked up as a service by its own name.

ghost use Rattle.std.specs.Prelude.{◌≡◌, IfOk, IfSome, IsFalse, IsSome, IsTrue, None, OnOk, Some, false, slice_get, slice_index_or, true};
ghost use Rattle.pam_conf.specs.Files.{Folder};
ghost use Rattle.pam_findings.specs.host.Modules.{Modules as ModulesText};
ghost use Rattle.pam_findings.specs.host.Verdicts.{HasName, IsOpen};
ghost use Rattle.pam_findings.specs.host.inner.Alone.{AreKnown, IsAlone, SaysOwnStack, has};

use crate::host::judging::is_open;
use crate::host::problem::number_of_kind;
use crate::host::stacks::Checker;
use crate::stack::Soundness;
use pam_conf::laws::stack_is_sound_survey;
use pam_conf::{Kind, Stack, Survey, is_sound};
use pam_graph::GraphError;
use std::alloc::AllocError;

/// What is said of a whole stack.
#[derive(Clone, Copy, Debug, PartialEq, Eq)]
pub(crate) enum Whole {
    /// S1: it lets nobody in.
    Nobody,
    /// S2: it lets anybody in.
    Anybody,
}

/// Whether S1 and S2 are said of the rules of a file for a kind by themselves.
#[derive(Clone, Copy, Debug, PartialEq, Eq)]
pub(crate) struct Alone {
    pub file: usize,
    pub kind: Kind,
    pub lets_nobody_in: bool,
    pub lets_anybody_in: bool,
}

impl Alone {
    /// Neither is said, as the file has no rules of its own that are accepted and not too large.
    fn nothing(file: usize, kind: Kind) -> Alone
        ensures { result ≡ record { file = file; kind = kind; lets_nobody_in = false; lets_anybody_in = false } }
    {
        Alone {
            file,
            kind,
            lets_nobody_in: false,
            lets_anybody_in: false,
        }
    }

    /// Whether this is said.
    pub(crate) fn has(self, whole: Whole) -> bool
        ensures { result ≡ has whole self }
    {
        match whole {
            Whole::Nobody => self.lets_nobody_in,
            Whole::Anybody => self.lets_anybody_in,
        }
    }
}

/// Whether the rules of the service itself answer, and its walk begins at a file.
fn begins_at(survey: &Survey, file: usize) -> bool
    ensures yes { IsTrue result → (survey.now.other_answers ≡ false) × (slice_get survey.now.reached.items 0 ≡ Some file) }
    ensures no { IsFalse result → survey.now.other_answers ≡ false → slice_get survey.now.reached.items 0 ≡ Some file → ⊥ }
{
    match survey.reached.first() {
        Some(first) => !survey.other_answers && *first == file,
        None => false,
    }
}

/// The stack of the service of a name for a kind, if it begins at a file.
fn stack_from(
    checker: &Checker<'_, '_>,
    name: &[u8],
    file: usize,
    kind: Kind,
) -> Result<Option<Stack>, AllocError>
    requires name { HasName checker.now.rules.now file name.now }
    ensures { IfOk result (SaysOwnStack checker.now.rules.now kind file) }
{
    stack_is_sound_survey();
    let survey = checker.rules.survey(checker.alloc, name, kind)?;
    let begins = begins_at(&survey, file);
    if !begins {
        return Ok(None);
    }
    let is_sound = is_sound(checker.rules, &survey);
    if !is_sound {
        return Ok(None);
    }
    Ok(survey.stack)
}

/// The stack for a kind of a file that has rules of its own for it.
fn own_stack(
    checker: &Checker<'_, '_>,
    file: usize,
    kind: Kind,
) -> Result<Option<Stack>, AllocError>
    ensures { IfOk result (SaysOwnStack checker.now.rules.now kind file) }
{
    match checker.rules.name(file) {
        Some(name) => stack_from(checker, name, file, kind),
        None => Ok(None),
    }
}

/// Whether S1 is said of a stack.
fn lets_nobody_in(kind: Kind, stack: &Stack, soundness: &Soundness) -> bool
    ensures yes { IsTrue result → (soundness.now.lets_nobody_in ≡ true) × IsOpen kind stack.now }
    ensures no { IsFalse result → soundness.now.lets_nobody_in ≡ true → IsOpen kind stack.now → ⊥ }
{
    soundness.lets_nobody_in && is_open(kind, stack)
}

/// Whether S2 is said of a stack.
fn lets_anybody_in(kind: Kind, soundness: &Soundness) -> bool
    ensures yes { IsTrue result → (kind ≡ Kind.Auth) × IsSome soundness.now.lets_anybody_in }
    ensures no { IsFalse result → kind ≡ Kind.Auth → IsSome soundness.now.lets_anybody_in → ⊥ }
{
    kind == Kind::Auth && soundness.lets_anybody_in.is_some()
}

/// Whether S1 and S2 are said of a file by itself.
fn judge_alone(checker: &Checker<'_, '_>, file: usize, kind: Kind) -> Result<Alone, AllocError>
    ensures at { IfOk result (λ a. (a.file ≡ file) × (a.kind ≡ kind)) }
    ensures is { IfOk result (IsAlone checker.now.rules.now checker.now.modules.now) }
{
    let Some(stack) = own_stack(checker, file, kind)? else {
        return Ok(Alone::nothing(file, kind));
    };
    let free = checker.modules.answers(&stack, kind);
    let failing = checker.modules.answers_if_checks_fail(&stack, kind);
    match Soundness::of(checker.alloc, &stack, &free, &failing) {
        Ok(soundness) => Ok(Alone {
            file,
            kind,
            lets_nobody_in: lets_nobody_in(kind, &stack, &soundness),
            lets_anybody_in: lets_anybody_in(kind, &soundness),
        }),
        Err(GraphError::Memory) => Err(AllocError),
        Err(GraphError::TooManyNodes) => Ok(Alone::nothing(file, kind)),
    }
}

/// What is known of files by themselves, with a slot for each file and kind.
pub(crate) type AloneTable = Vec<Option<Alone>>;

/// A slot for each of four kinds of this many files.
pub(crate) fn slots(files: usize) -> Result<usize, AllocError> {
    files.checked_mul(4).ok_or(AllocError)
}

/// The slot of a file and a kind; past the end if there is none.
fn slot_of(file: usize, kind: Kind) -> usize {
    file.checked_mul(4)
        .and_then(|first| first.checked_add(usize::from(number_of_kind(kind))))
        .unwrap_or(usize::MAX)
}

/// What is known of a file and a kind, if that is in this slot.
fn known_in(table: &AloneTable, slot: usize, file: usize, kind: Kind) -> Option<Alone>
    ensures at { IfSome result (λ a. (a.file ≡ file) × (a.kind ≡ kind)) }
    ensures is { IfSome result (λ a. slice_index_or table.now.items slot None ≡ Some a) }
{
    if slot >= table.len() {
        return None;
    }
    match table[slot] {
        Some(alone) if alone.file == file && alone.kind == kind => Some(alone),
        _ => None,
    }
}

/// Notes what is known of a file and a kind in its slot.
fn note(table: &mut AloneTable, slot: usize, alone: Alone)
    ensures { (folder : Folder) (modules : ModulesText) → IsAlone folder modules alone → AreKnown folder modules table.old.items →
        AreKnown folder modules table.new.items }
{
    if slot < table.len() {
        table[slot] = Some(alone);
    }
}

/// Whether S1 and S2 are said of a file by itself, which is found once for each file and kind.
pub(crate) fn find_alone(
    checker: &Checker<'_, '_>,
    table: &mut AloneTable,
    file: usize,
    kind: Kind,
) -> Result<Alone, AllocError>
    requires known { AreKnown checker.now.rules.now checker.now.modules.now table.old.items }
    ensures known { OnOk result (AreKnown checker.now.rules.now checker.now.modules.now table.new.items) }
    ensures at { IfOk result (λ a. (a.file ≡ file) × (a.kind ≡ kind)) }
    ensures is { IfOk result (IsAlone checker.now.rules.now checker.now.modules.now) }
{
    let slot = slot_of(file, kind);
    if let Some(known) = known_in(table, slot, file, kind) {
        return Ok(known);
    }
    let found = judge_alone(checker, file, kind)?;
    note(table, slot, found);
    Ok(found)
}

//! The verdict on a stack.

ghost use Rattle.std.specs.Prelude.{◌≡◌, IfOk, IsFalse, IsSome, IsTrue, List, OnOk, Ok, ℕ, false, true};
ghost use Rattle.pam_conf.specs.Resolution.{resolved};
ghost use Rattle.pam_conf.specs.Survey.{surveyed};
ghost use Rattle.pam_paths.specs.declared.knowledge.Known.{Known as KnownText};
ghost use Rattle.pam_findings.specs.declared.host.causes.Causes.{Causes as CausesText};
ghost use Rattle.pam_findings.specs.host.inner.Alone.{AreKnown};
ghost use Rattle.pam_findings.specs.host.inner.Halves.{HalvesIn};
ghost use Rattle.pam_findings.specs.host.inner.Looked.{HasGraph, Judges, VainIn, at_of, judgement_in, judgement_of};
ghost use Rattle.pam_findings.specs.host.StackProblems.{ByVerdict, HasWayIn};
ghost use Rattle.pam_findings.specs.host.inner.Table.{Adds};
ghost use Rattle.pam_findings.specs.host.Verdicts.{IsOpen, Judged};

use crate::host::alone::AloneTable;
use crate::host::causes::{Causes, Walked};
use crate::host::closed::begins_closed;
use crate::host::faillock::push_half;
use crate::host::modules::{has_other, push_asked, push_jumps, push_never_counting};
use crate::host::problem::{Problem, Spot};
use crate::host::storing::push_stored;
use crate::host::taking::push_taking;
use crate::host::uncounted::push_uncounted;
use crate::host::way_in::{WayIn, answers_on};
use crate::stack::Soundness;
use pam_conf::{Kind, Stack};
use pam_graph::GraphError;
use pam_paths::Known;
use std::alloc::{AllocError, Global};

/// The service and the kind of a stack, the file of its first rules, and whether and by whom it is asked for.
#[derive(Clone, Copy)]
pub(crate) struct Stacked {
    pub service: usize,
    pub kind: Kind,
    /// The service that S1 and S2 name.
    pub named: Option<usize>,
    pub home: Option<usize>,
    /// Whether the service is a file that is only included, for which no program asks.
    pub is_only_included: bool,
    /// Whether others include the file of the service.
    pub is_included: bool,
    /// Whether the service is that of a greeter.
    pub is_greeter: bool,
}

/// A stack that is judged: the answers that its modules can give, and those if each check fails; what its runs come to, and the files
/// that are the causes of S1 and S2.
#[derive(Clone, Copy)]
pub(crate) struct Judging<'j> {
    pub alloc: Global,
    pub stack: &'j Stack,
    pub free: &'j Known,
    pub failing: &'j Known,
    pub soundness: &'j Soundness,
    pub causes: Causes,
}

/// What is told of a stack: the first way in, if it is one of `auth`, and whether it is known to let nobody in.
#[derive(Drop)]
pub(crate) struct Told {
    pub way_in: Option<WayIn>,
    pub lets_nobody_in: bool,
}

impl Told {
    /// Nothing is known of the stack.
    pub(crate) fn nothing() -> Told
        ensures { result ≡ record { way_in = None; lets_nobody_in = false } }
    {
        Told {
            way_in: None,
            lets_nobody_in: false,
        }
    }
}

/// Appends a problem of the whole stack at a file, if it has it.
fn push_whole(
    spots: &mut Vec<Spot>,
    file: Option<usize>,
    has: bool,
    problem: Problem,
) -> Result<(), AllocError>
    ensures { OnOk result (Adds (λ spot. (has ≡ true) × (spot ≡ record { file = file; line = 0; problem = problem })) spots.old.items spots.new.items) }
{
    if has {
        spots.push(Spot {
            file,
            line: 0,
            problem,
        })?;
    }
    Ok(())
}

/// Whether a stack is to let somebody in: it has a module that neither denies nor only warns, and is not closed on purpose.
pub(crate) fn is_open(kind: Kind, stack: &Stack) -> bool
    ensures yes { IsTrue result → IsOpen kind stack.now }
    ensures no { IsFalse result → IsOpen kind stack.now → ⊥ }
{
    has_other(stack) && !begins_closed(kind, stack)
}

/// Whether a stack for which a program may ask lets nobody in, although it is to let somebody in.
fn lets_nobody_in(at: Stacked, stack: &Stack, soundness: &Soundness) -> bool
    ensures yes { IsTrue result → (soundness.now.lets_nobody_in ≡ true) × IsOpen at.kind stack.now × (at.is_only_included ≡ false) }
    ensures no { IsFalse result → soundness.now.lets_nobody_in ≡ true → IsOpen at.kind stack.now → at.is_only_included ≡ false → ⊥ }
{
    soundness.lets_nobody_in && !at.is_only_included && is_open(at.kind, stack)
}

/// Whether a stack of `auth` for which a program may ask lets anybody in.
fn lets_anybody_in(at: Stacked, soundness: &Soundness) -> bool
    ensures yes { IsTrue result → (at.kind ≡ Kind.Auth) × IsSome soundness.now.lets_anybody_in × (at.is_only_included ≡ false) }
    ensures no { IsFalse result → at.kind ≡ Kind.Auth → IsSome soundness.now.lets_anybody_in → at.is_only_included ≡ false → ⊥ }
{
    at.kind == Kind::Auth && !at.is_only_included && soundness.lets_anybody_in.is_some()
}

/// Whether a stack of `auth` lets somebody in.
fn lets_somebody_in(kind: Kind, soundness: &Soundness) -> bool
    ensures yes { IsTrue result → (kind ≡ Kind.Auth) × (soundness.now.lets_nobody_in ≡ false) }
    ensures no { IsFalse result → kind ≡ Kind.Auth → soundness.now.lets_nobody_in ≡ false → ⊥ }
{
    kind == Kind::Auth && !soundness.lets_nobody_in
}

/// Appends S26 of a stack of `auth` that lets somebody in.
fn push_vain(
    spots: &mut Vec<Spot>,
    kind: Kind,
    stack: &Stack,
    failing: &Known,
    soundness: &Soundness,
) -> Result<(), AllocError>
    ensures { (free : KnownText) (causes : CausesText) →
        OnOk result (Adds (VainIn kind (judgement_of stack.now free failing.now soundness.now causes)) spots.old.items spots.new.items) }
{
    if lets_somebody_in(kind, soundness) {
        push_never_counting(spots, stack, failing, &soundness.never_counts)?;
    }
    Ok(())
}

/// Appends S22 of a stack of `auth`.
fn push_halves(
    spots: &mut Vec<Spot>,
    kind: Kind,
    stack: &Stack,
    soundness: &Soundness,
) -> Result<(), AllocError>
    ensures { (free failing : KnownText) (causes : CausesText) →
        OnOk result (Adds (HalvesIn kind (judgement_of stack.now free failing soundness.now causes)) spots.old.items spots.new.items) }
{
    if kind != Kind::Auth {
        return Ok(());
    }
    push_half(spots, stack, &soundness.never_asked, false)?;
    push_half(spots, stack, &soundness.never_asked, true)?;
    Ok(())
}

/// Appends S1, S2, S4, S20 to S22 and S26 of a stack.
fn push_judged(spots: &mut Vec<Spot>, at: Stacked, of: &Judging<'_>) -> Result<(), AllocError>
    requires { HasGraph of.now }
    ensures { OnOk result (Adds (λ spot. ByVerdict (at_of at) (Judged (judgement_in of.now)) spot spot.problem) spots.old.items spots.new.items) }
{
    let soundness = of.soundness;
    let nobody = lets_nobody_in(at, of.stack, soundness);
    let anybody = lets_anybody_in(at, soundness);
    push_whole(
        spots,
        of.causes.nobody,
        nobody,
        Problem::LetsNobodyIn {
            service: at.named,
            kind: at.kind,
        },
    )?;
    push_whole(
        spots,
        of.causes.anybody,
        anybody,
        Problem::LetsAnybodyIn {
            service: at.named,
            is_greeter: at.is_greeter,
        },
    )?;
    push_jumps(spots, of.stack, &soundness.jumps_past_end)?;
    push_vain(spots, at.kind, of.stack, of.failing, soundness)?;
    push_halves(spots, at.kind, of.stack, soundness)?;
    push_taking(spots, of, at.kind, at.is_included)?;
    push_stored(spots, of, at.kind)?;
    push_uncounted(spots, of, at.kind, at.is_included)?;
    Ok(())
}

/// The first way into a stack of `auth`, if there is one; `None` for the other kinds.
fn way_into(
    alloc: Global,
    kind: Kind,
    stack: Stack,
    failing: &Known,
    soundness: &Soundness,
) -> Result<Option<WayIn>, AllocError>
    ensures { (free : KnownText) (causes : CausesText) →
        IfOk result (λ way. kind ≡ Kind.Auth → HasWayIn (Judged (judgement_of stack free failing.now soundness.now causes)) way) }
{
    if kind != Kind::Auth {
        return Ok(None);
    }
    let Some(path) = &soundness.lets_anybody_in else {
        return Ok(None);
    };
    let answers = answers_on(alloc, failing, path)?;
    Ok(Some(WayIn { stack, answers }))
}

/// Judges a stack, and appends its problems by the verdict, and the rules that it may ask.
pub(crate) fn judge(
    walked: &Walked<'_, '_>,
    table: &mut AloneTable,
    spots: &mut Vec<Spot>,
    asked: &mut Vec<Spot>,
    at: Stacked,
    stack: Stack,
) -> Result<Told, AllocError>
    requires known { AreKnown walked.now.checker.now.rules.now walked.now.checker.now.modules.now table.old.items }
    ensures known { OnOk result (AreKnown walked.now.checker.now.rules.now walked.now.checker.now.modules.now table.new.items) }
    ensures judges { (name : List ℕ) → resolved walked.now.checker.now.rules.now name at.kind ≡ Ok stack →
        walked.now.reached.now ≡ (surveyed walked.now.checker.now.rules.now name at.kind).reached →
        IfOk result (Judges walked.now.checker.now.rules.now walked.now.checker.now.modules.now name at stack
        spots.old.items spots.new.items asked.old.items asked.new.items) }
{
    let checker = walked.checker;
    let free = checker.modules.answers(&stack, at.kind);
    let failing = checker.modules.answers_if_checks_fail(&stack, at.kind);
    match Soundness::of(checker.alloc, &stack, &free, &failing) {
        Ok(soundness) => {
            let causes = walked.causes(table, at.kind, &stack, &soundness)?;
            let of = Judging {
                alloc: checker.alloc,
                stack: &stack,
                free: &free,
                failing: &failing,
                soundness: &soundness,
                causes,
            };
            push_judged(spots, at, &of)?;
            push_asked(asked, &stack, &soundness.never_asked)?;
            let way_in = way_into(checker.alloc, at.kind, stack, &failing, &soundness)?;
            Ok(Told {
                way_in,
                lets_nobody_in: soundness.lets_nobody_in,
            })
        }
        Err(GraphError::Memory) => Err(AllocError),
        Err(GraphError::TooManyNodes) => {
            let problem = Problem::TooLarge {
                service: at.service,
                kind: at.kind,
            };
            push_whole(spots, at.home, true, problem)?;
            push_asked(asked, &stack, &[])?;
            Ok(Told::nothing())
        }
    }
}

//! The program of a stack, and the steps of its runs.

ghost use Rattle.std.specs.Prelude.{◌≡◌, ◌≢◌, ◌∷◌, ◌+◌, ◌-◌, ◌≤◌, ◌^◌, ◌<◌, ℕ, All, drop, length, min, slice_get, take};
ghost use Rattle.std.specs.Prelude.{IfErr, IfNone, IfOk, IfSome, IsSome, None, OnOk, Some};
ghost use Rattle.std.specs.List.{AllZip};
ghost use Rattle.pam_codes.specs.Parts.{IsParts};
ghost use Rattle.pam_conf.specs.Stack.{Items, module_at, module_count};
ghost use Rattle.pam_conf.specs.declared.stack.TheConstants.{MAX_MODULES};
ghost use Rattle.pam_dispatch.specs.Decision.{decision_of};
ghost use Rattle.pam_dispatch.specs.Flat.{IsPlaceOf, control_at, controls_in, modules_of, resume, rest_of, runs_of};
ghost use Rattle.pam_dispatch.specs.inner.Flat.{IsBounded, positions_from};
ghost use Rattle.pam_dispatch.specs.Runs.{AsksRise, Assignment, after_answer, answers_of, asked_by, asked_module, final_state, next_ask, outcome_in, state_in};
ghost use Rattle.pam_dispatch.specs.Settled.{IsSettled};
ghost use Rattle.pam_dispatch.specs.inner.Stretches.{IsStretchTable};
ghost use Rattle.pam_dispatch.specs.Tree.{decided, runs_of_stack};

use crate::asked::{Question, Situation};
use crate::decision::Decision;
use crate::entered::{Entered, LISTS};
use crate::error::{Memory, WrongCount};
use crate::flat_item::FlatItem;
use crate::flatten::flatten;
use crate::place::Place;
use crate::read_levels::{ReadLevels, read_table};
use crate::seek::seek;
use crate::settled::{SettledRun, first_harmless};
use crate::state::State;
use crate::step::{Outcome, Step};
use crate::stretches::stretch_table;
use crate::work::Work;
use pam_codes::{Action, Code, Control, Parts};
use pam_conf::Stack;
use std::alloc::Global;
use std::marker::Model;

/// The program of a stack: its items as a flat list.
#[derive(Debug, Drop)]
pub struct Program {
    pub(crate) flat_items: Vec<FlatItem>,
    /// The indices of the modules in `flat_items`, in the order of their numbers.
    positions: Vec<usize>,
    /// The parts of the modules' controls, in the same order.
    parts: Vec<Parts>,
    /// The length of the stretch of items on one level, from each index in `flat_items` on, the last index first.
    stretches: Vec<usize>,
    /// The index in `flat_items` from which on no answer changes a failed stack.
    harmless_from: usize,
    /// The levels of the lists whose entry states a reset can still read, from each index in `flat_items` on, the last index first.
    pub(crate) read_levels: Vec<ReadLevels>,
}

impl Model for Program {
    ghost use Rattle.std.specs.Prelude.{◌≡◌, ◌≤◌, All, List};
    ghost use Rattle.pam_dispatch.specs.declared.flat_item.FlatItem.{FlatItem};

    ghost Value = { List FlatItem };

    ghost use Rattle.pam_dispatch.specs.inner.Program.{IsProgram};

    ghost view = { λ p. p.flat_items.items };

    ghost invariant = { λ p. IsProgram p.flat_items.items p.positions.items p.parts.items p.stretches.items p.harmless_from p.read_levels.items };
}

/// The indices of the modules in a flat list.
fn module_positions(alloc: Global, flat_items: &[FlatItem]) -> Result<Vec<usize>, Memory>
    ensures { IfOk result (λ positions. positions.items ≡ positions_from 0 flat_items.now) }
{
    let mut positions = Vec::new(alloc);
    for (position, flat_item) in flat_items.iter().enumerate() {
        match flat_item {
            FlatItem::Module { .. } => positions.push(position)?,
            FlatItem::Substack { .. } => {}
        }
    }
    Ok(positions)
}

/// The parts of the controls in a flat list.
fn module_parts(alloc: Global, flat_items: &[FlatItem]) -> Result<Vec<Parts>, Memory>
    ensures { IfOk result (λ parts. AllZip IsParts (controls_in flat_items.now) parts.items) }
{
    let mut parts = Vec::new(alloc);
    for flat_item in flat_items {
        match flat_item {
            FlatItem::Module { control, .. } => parts.push(control.parts())?,
            FlatItem::Substack { .. } => {}
        }
    }
    Ok(parts)
}

/// The module asked at `place`.
fn asked_at<'a>(flat_items: &'a [FlatItem], place: &Place) -> Question<'a>
    requires flat_items { All IsBounded flat_items.now }
    requires place { IsPlaceOf flat_items.now place.now }
    requires asking { IsSome (asked_module (rest_of flat_items.now place.now)) }
    ensures { result ≡ next_ask (rest_of flat_items.now place.now) }
{
    match &flat_items[place.position] {
        FlatItem::Module {
            level,
            number,
            control,
            items_after,
        } => Question {
            module_number: *number,
            control,
            situation: Situation {
                state: place.state,
                entry: place.entered.at(*level),
                items_after: *items_after,
            },
        },
        FlatItem::Substack { .. } => unreachable!(),
    }
}

/// What an answer does, and where the run continues.
#[derive(Clone, Copy)]
struct Answered {
    action: Action,
    outcome: Outcome,
    /// The level of the list that continues.
    level: usize,
    /// The number of its items to skip.
    skip: usize,
}

/// Answers the module at `place` with `code`.
#[inline(always)]
fn answer_at(flat_items: &[FlatItem], place: &Place, code: Code) -> Answered
    requires flat_items { All IsBounded flat_items.now }
    requires place { IsPlaceOf flat_items.now place.now }
    requires asking { IsSome (asked_module (rest_of flat_items.now place.now)) }
    ensures action { slice_get (next_ask (rest_of flat_items.now place.now)).control code ≡ Some result.action }
    ensures outcome { outcome_in (rest_of flat_items.now place.now) code ≡ result.outcome }
    ensures rest { after_answer (rest_of flat_items.now place.now) code
        ≡ resume (drop (place.now.position + 1) flat_items.now) result.level result.skip (take place.now.depth place.now.entered.states) result.outcome.state }
    ensures below { result.level < place.now.depth }
    ensures within { place.now.position < length flat_items.now }
{
    let asked = asked_at(flat_items, place);
    let action = asked.control.action(code);
    let outcome = asked.outcome(action, code);
    Answered {
        action,
        outcome,
        level: usize::from(place.depth) - 1,
        skip: asked.situation.items_after - outcome.left,
    }
}

/// Makes the step from `place` with the answer `code`.
#[inline(always)]
fn step_in(flat_items: &[FlatItem], stretches: &[usize], place: &mut Place, code: Code) -> Answered
    requires flat_items { All IsBounded flat_items.now }
    requires stretches { IsStretchTable flat_items.now stretches.now }
    requires place { IsPlaceOf flat_items.now place.old }
    requires asking { IsSome (asked_module (rest_of flat_items.now place.old)) }
    ensures place { IsPlaceOf flat_items.now place.new }
    ensures rest { rest_of flat_items.now place.new ≡ after_answer (rest_of flat_items.now place.old) code }
    ensures action { slice_get (next_ask (rest_of flat_items.now place.old)).control code ≡ Some result.action }
    ensures outcome { outcome_in (rest_of flat_items.now place.old) code ≡ result.outcome }
    ensures state { place.new.state ≡ result.outcome.state }
{
    let answered = answer_at(flat_items, place, code);
    let outcome = answered.outcome;
    place.position = place.position + 1;
    place.state = outcome.state;
    seek(flat_items, stretches, place, answered.level, answered.skip);
    answered
}

impl Program {
    /// Compiles a stack into its program. Returns `Memory` if allocation fails.
    pub fn of(alloc: Global, stack: &Stack) -> Result<Program, Memory>
        ensures runs { IfOk result (λ program. runs_of program ≡ runs_of_stack stack.now) }
        ensures modules { IfOk result (λ program. modules_of program ≡ module_count stack.now) }
        ensures control { IfOk result (λ program. (number : ℕ) → IfSome (module_at number stack.now) (λ m. control_at program number ≡ m.control)) }
    {
        let mut flat_items = Vec::new(alloc);
        flatten(stack.items(), 0, &mut flat_items)?;
        let positions = module_positions(alloc, &flat_items)?;
        let parts = module_parts(alloc, &flat_items)?;
        let stretches = stretch_table(alloc, &flat_items)?;
        let harmless_from = first_harmless(&flat_items);
        let read_levels = read_table(alloc, &flat_items)?;
        Ok(Program {
            flat_items,
            positions,
            parts,
            stretches,
            harmless_from,
            read_levels,
        })
    }

    /// The number of modules.
    pub fn modules(&self) -> usize
        ensures count { result ≡ modules_of self.now }
        ensures most { result ≤ MAX_MODULES }
        ensures rise { AsksRise 0 (modules_of self.now) (runs_of self.now) }
    {
        self.positions.len()
    }

    /// The control of the module with this number, from 1.
    pub fn control(&self, number: usize) -> &Control
        requires first { 1 ≤ number }
        requires last { number ≤ modules_of self.now }
        ensures value { result.now ≡ control_at self.now number }

        // The control with which the module is asked, at any place.
        ensures asked { (place : Place) → IsPlaceOf self.now place → asked_module (rest_of self.now place) ≡ Some number
            → (next_ask (rest_of self.now place)).control ≡ result.now }
    {
        match &self.flat_items[self.positions[number - 1]] {
            FlatItem::Module { control, .. } => control,
            FlatItem::Substack { .. } => unreachable!(),
        }
    }

    /// The parts of the control of the module with this number, from 1.
    pub fn parts(&self, number: usize) -> &Parts
        requires first { 1 ≤ number }
        requires last { number ≤ modules_of self.now }
        ensures value { IsParts (control_at self.now number) result.now }

        // Those of the control with which the module is asked, at any place.
        ensures asked { (place : Place) → IsPlaceOf self.now place → asked_module (rest_of self.now place) ≡ Some number
            → IsParts (next_ask (rest_of self.now place)).control result.now }
        ensures control { (place : Place) → IsPlaceOf self.now place → asked_module (rest_of self.now place) ≡ Some number
            → (next_ask (rest_of self.now place)).control ≡ control_at self.now number }
    {
        &self.parts[number - 1]
    }

    /// The place at which a run begins.
    pub fn first(&self) -> Place
        ensures place { IsPlaceOf self.now result }
        ensures whole { rest_of self.now result ≡ runs_of self.now }
        ensures few { modules_of self.now ≤ MAX_MODULES }
        ensures rise { AsksRise 0 (modules_of self.now) (runs_of self.now) }
    {
        let start = State::start();
        let mut place = Place {
            position: 0,
            entered: Entered {
                states: [start; LISTS],
            },
            module_number: None,
            state: start,
            depth: 1,
        };
        seek(&self.flat_items, &self.stretches, &mut place, 0, 0);
        place
    }

    /// The module asked at `place`.
    pub fn asked(&self, place: &Place) -> Question<'_>
        requires place { IsPlaceOf self.now place.now }
        requires asking { IsSome (asked_module (rest_of self.now place.now)) }
        ensures { result ≡ next_ask (rest_of self.now place.now) }
    {
        asked_at(&self.flat_items, place)
    }

    /// The outcome of answering the module at `place` with `code`, without making the step.
    pub fn outcome(&self, place: &Place, code: Code) -> Outcome
        requires place { IsPlaceOf self.now place.now }
        requires asking { IsSome (asked_module (rest_of self.now place.now)) }
        ensures { outcome_in (rest_of self.now place.now) code ≡ result }
    {
        answer_at(&self.flat_items, place, code).outcome
    }

    /// Makes the step from `place` with the answer `code`, and counts it in `work`.
    pub fn step(&self, place: &Place, code: Code, work: &mut Work) -> Step
        requires place { IsPlaceOf self.now place.now }
        requires asking { IsSome (asked_module (rest_of self.now place.now)) }
        ensures place { IsPlaceOf self.now result.place }
        ensures action { slice_get (next_ask (rest_of self.now place.now)).control code ≡ Some result.action }
        ensures outcome { outcome_in (rest_of self.now place.now) code ≡ result.outcome }
        ensures state { state_in (rest_of self.now result.place) ≡ result.outcome.state }
        ensures rest { rest_of self.now result.place ≡ after_answer (rest_of self.now place.now) code }

        // Under an assignment with that answer, the run from the new place ends like that from the old one.
        ensures run { (answers : Assignment) → IfSome (asked_module (rest_of self.now place.now)) (λ number. answers number ≡ code)
            → final_state (rest_of self.now result.place) answers ≡ final_state (rest_of self.now place.now) answers }

        // The run from the old place asks the module there, and then what the run from the new place asks.
        ensures asks { (answers : Assignment) → IfSome (asked_module (rest_of self.now place.now)) (λ number. answers number ≡ code)
            → asked_by (rest_of self.now place.now) answers ≡ next_ask (rest_of self.now place.now) ∷ asked_by (rest_of self.now result.place) answers }
        ensures counted { work.new ≡ min (work.old + 1) (2 ^ 64 - 1) }
    {
        work.count();
        let mut next = *place;
        let answered = self.step_by(&mut next, code);
        Step {
            place: next,
            action: answered.action,
            outcome: answered.outcome,
        }
    }

    /// Makes the step from `place` with the answer `code`, as `step` does, and moves `place` there.
    // Inlined: most callers read no outcome, and then none is made.
    #[inline(always)]
    pub fn step_on(&self, place: &mut Place, code: Code, work: &mut Work) -> Outcome
        requires place { IsPlaceOf self.now place.old }
        requires asking { IsSome (asked_module (rest_of self.now place.old)) }
        ensures place { IsPlaceOf self.now place.new }
        ensures outcome { outcome_in (rest_of self.now place.old) code ≡ result }
        ensures state { state_in (rest_of self.now place.new) ≡ result.state }
        ensures rest { rest_of self.now place.new ≡ after_answer (rest_of self.now place.old) code }
        ensures counted { work.new ≡ min (work.old + 1) (2 ^ 64 - 1) }
    {
        work.count();
        self.step_by(place, code).outcome
    }

    /// Like `step_on`, without counting.
    #[inline(always)]
    fn step_by(&self, place: &mut Place, code: Code) -> Answered
        requires place { IsPlaceOf self.now place.old }
        requires asking { IsSome (asked_module (rest_of self.now place.old)) }
        ensures place { IsPlaceOf self.now place.new }
        ensures rest { rest_of self.now place.new ≡ after_answer (rest_of self.now place.old) code }
        ensures action { slice_get (next_ask (rest_of self.now place.old)).control code ≡ Some result.action }
        ensures outcome { outcome_in (rest_of self.now place.old) code ≡ result.outcome }
        ensures state { place.new.state ≡ result.outcome.state }
    {
        step_in(&self.flat_items, &self.stretches, place, code)
    }

    /// The rest of the run from `place`, if it is settled: it is at its end, or the stack has failed and no remaining
    /// module can change that. Returns `None` too if a substack, a jump, `die` or `reset` remains that no answer reaches.
    pub fn settled(&self, place: &Place) -> Option<SettledRun>
        requires place { IsPlaceOf self.now place.now }
        ensures settled { IfSome result (λ rest. IsSettled (modules_of self.now + 1 - rest.modules) rest.modules
            (state_in (rest_of self.now place.now)) (rest_of self.now place.now)) }
        ensures decision { IfSome result (λ rest. rest.decision ≡ decision_of (state_in (rest_of self.now place.now))) }
        ensures within { IfSome result (λ rest. rest.modules ≤ modules_of self.now) }
        ensures asking { IfNone result (IsSome (asked_module (rest_of self.now place.now))) }
    {
        let decision = Decision::of(place.state());
        if place.module().is_none() {
            return Some(SettledRun {
                modules: 0,
                decision,
            });
        }
        if place.position < self.harmless_from || !place.state.has_failed() {
            return None;
        }
        Some(SettledRun {
            modules: self.flat_items.len() - place.position,
            decision,
        })
    }

    /// The decision at the end of a run.
    pub fn decision(&self, place: &Place) -> Decision
        requires place { IsPlaceOf self.now place.now }
        requires end { asked_module (rest_of self.now place.now) ≡ None }
        ensures { result ≡ decision_of (state_in (rest_of self.now place.now)) }
    {
        Decision::of(place.state())
    }

    /// The decision if each module answers its code, from module 1 on. Modules that are never asked need one too.
    pub fn decide(&self, codes: &[Code]) -> Result<Decision, WrongCount>
        ensures count { OnOk result (length codes.now ≡ modules_of self.now) }
        ensures decision { IfOk result (λ d. d ≡ decision_of (final_state (runs_of self.now) (answers_of codes.now))) }
        ensures stack { (items : Items) → runs_of self.now ≡ runs_of_stack items → IfOk result (λ d. d ≡ decided items (answers_of codes.now)) }
        ensures wrong { IfErr result (λ e. (length codes.now ≢ modules_of self.now) × (e.modules ≡ modules_of self.now)) }
    {
        let modules = self.modules();
        if codes.len() != modules {
            return Err(WrongCount { modules });
        }
        Ok(self.decision_by(codes))
    }

    fn decision_by(&self, codes: &[Code]) -> Decision
        requires { length codes.now ≡ modules_of self.now }
        ensures { result ≡ decision_of (final_state (runs_of self.now) (answers_of codes.now)) }
    {
        let mut place = self.first();
        while let Some(number) = place.module() {
            self.step_by(&mut place, codes[number - 1]);
        }
        self.decision(&place)
    }
}

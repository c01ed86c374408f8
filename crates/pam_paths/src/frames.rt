//! The frames of an explorer: the modules asked on the path that it returned last.

ghost use Rattle.std.specs.Prelude.{◌≡◌, ◌+◌, ◌-◌, ◌<◌, ◌≤◌, ◌++◌, [], drop, length, map, slice_index_or, slice_set, take};
ghost use Rattle.std.specs.Prelude.{None, Some, IfSome, IfNone, IsTrue};
ghost use Rattle.pam_codes.specs.declared.code.TheConstants.{CODES};
ghost use Rattle.pam_conf.specs.declared.stack.TheConstants.{MAX_MODULES};
ghost use Rattle.pam_dispatch.specs.Flat.{IsPlaceOf, modules_of, rest_of};
ghost use Rattle.pam_dispatch.specs.Runs.{after_answer, asked_module, next_ask};
ghost use Rattle.pam_paths.specs.Classes.{class_of};
ghost use Rattle.pam_paths.specs.Computed.{after_step, listing};
ghost use Rattle.pam_paths.specs.Directions.{ordered, past};
ghost use Rattle.pam_paths.specs.inner.Followed.{followed};
ghost use Rattle.pam_paths.specs.Frames.{AreClasses, ahead_of, offered_at, step_in};
ghost use Rattle.pam_paths.specs.Listing.{Allowance};
ghost use Rattle.pam_paths.specs.Steps.{step_seen};
ghost use Rattle.pam_paths.specs.Tail.{IsTail};
ghost use Rattle.pam_paths.specs.inner.Tail.{EndsInTail};
ghost use Rattle.pam_paths.specs.inner.Work.{CountsOn};

use crate::bounded_list::BoundedList;
use crate::classes::Classes;
use crate::direction::Direction;
use crate::path::PathStep;
use pam_codes::{Code, CodeSet};
use pam_dispatch::{MAX_MODULES, Place, Program, Work};

/// The frames of a path, outermost first.
pub(crate) type Frames = BoundedList<Frame>;

/// A module asked on a path, with the class that is followed.
#[derive(Clone, Copy, Debug)]
pub(crate) struct Frame {
    pub(crate) place: Place,
    pub(crate) module_number: u16,
    /// The least code of the class that is followed.
    pub(crate) code: Code,
    pub(crate) class: CodeSet,
    pub(crate) classes: Classes,
}

impl Default for Frame {
    fn default() -> Frame {
        Frame {
            place: Place::default(),
            module_number: 0,
            classes: Classes::default(),
            code: Code::SUCCESS,
            class: CodeSet::empty(),
        }
    }
}

/// A class that can be followed: its least code, and its codes.
#[derive(Clone, Copy, Debug)]
pub(crate) struct Branch {
    pub(crate) code: Code,
    pub(crate) class: CodeSet,
}

impl Frame {
    /// The frame of the module asked at a place, before one of its classes is followed.
    #[inline(always)]
    pub(crate) fn at(place: Place, module_number: usize, classes: Classes) -> Frame
        requires few { module_number ≤ MAX_MODULES }
        ensures place { result.place ≡ place }
        ensures number { result.module_number ≡ module_number }
        ensures classes { result.classes ≡ classes }
        ensures code { result.code < CODES }
    {
        Frame {
            place,
            module_number: module_number as u16,
            classes,
            code: Code::SUCCESS,
            class: CodeSet::empty(),
        }
    }

    /// The step of the path.
    #[inline(always)]
    fn step(&self) -> PathStep
        ensures { step_seen result ≡ step_in self.now }
    {
        PathStep {
            number: self.module_number,
            class: self.class,
        }
    }

    /// The branch of the class of `code`. Makes `place` the place after it.
    #[inline(always)]
    pub(crate) fn branch(
        &self,
        program: &Program,
        code: Code,
        place: &mut Place,
        work: &mut Work,
    ) -> Branch
        requires place { IsPlaceOf program.now self.now.place }
        requires asking { asked_module (rest_of program.now self.now.place) ≡ Some self.now.module_number }
        requires first { 1 ≤ self.now.module_number }
        requires last { self.now.module_number ≤ modules_of program.now }
        requires classes { AreClasses (next_ask (rest_of program.now self.now.place)) self.now.classes }
        ensures place { IsPlaceOf program.now place.new }
        ensures code { result.code ≡ code }
        ensures class { result.class ≡ class_of (next_ask (rest_of program.now self.now.place)) code }
        ensures rest { rest_of program.now place.new ≡ after_answer (rest_of program.now self.now.place) code }
        ensures work { work.new ≤ work.old + 1 }
        ensures grows { CountsOn work.old work.new }
    {
        *place = self.place;
        program.step_on(place, code, work);
        let number = usize::from(self.module_number);
        Branch {
            code,
            class: self.classes.class_of(program, &self.place, number, code),
        }
    }

    /// The first branch ahead of `bound`. Makes `place` the place after it.
    #[inline(always)]
    pub(crate) fn branch_ahead(
        &self,
        program: &Program,
        direction: Direction,
        bound: u8,
        place: &mut Place,
        work: &mut Work,
    ) -> Option<Branch>
        requires place { IsPlaceOf program.now self.now.place }
        requires asking { asked_module (rest_of program.now self.now.place) ≡ Some self.now.module_number }
        requires first { 1 ≤ self.now.module_number }
        requires last { self.now.module_number ≤ modules_of program.now }
        requires classes { AreClasses (next_ask (rest_of program.now self.now.place)) self.now.classes }
        requires bound { bound ≤ CODES }
        ensures none { (allows : Allowance) → self.now.classes.offered ≡ offered_at allows (rest_of program.now self.now.place)
            → IfNone result (ahead_of direction allows (rest_of program.now self.now.place) bound ≡ []) }
        ensures place { IfSome result (λ _. IsPlaceOf program.now place.new) }
        ensures code { IfSome result (λ b. b.code < CODES) }
        ensures rest { IfSome result (λ b. rest_of program.now place.new ≡ after_answer (rest_of program.now self.now.place) b.code) }
        ensures paths { (allows : Allowance) → self.now.classes.offered ≡ offered_at allows (rest_of program.now self.now.place)
            → IfSome result (λ b. ahead_of direction allows (rest_of program.now self.now.place) bound
            ≡ map (after_step (record { module_number = self.now.module_number; class = b.class }))
            (ordered direction (listing allows (rest_of program.now place.new)))
            ++ ahead_of direction allows (rest_of program.now self.now.place) (past direction b.code)) }
        ensures work { work.new ≤ work.old + 1 }
        ensures grows { CountsOn work.old work.new }
    {
        match direction.first(self.classes.offered, bound) {
            Some(code) => Some(self.branch(program, code, place, work)),
            None => None,
        }
    }

    /// Follows `branch`.
    #[inline(always)]
    fn follow(&mut self, branch: &Branch)
        ensures place { self.new.place ≡ self.old.place }
        ensures number { self.new.module_number ≡ self.old.module_number }
        ensures classes { self.new.classes ≡ self.old.classes }
        ensures code { self.new.code ≡ branch.now.code }
        ensures class { self.new.class ≡ branch.now.class }
    {
        self.code = branch.code;
        self.class = branch.class;
    }

    /// The frame with `branch` followed.
    #[inline(always)]
    pub(crate) fn following(self, branch: &Branch) -> Frame
        ensures place { result.place ≡ self.place }
        ensures number { result.module_number ≡ self.module_number }
        ensures classes { result.classes ≡ self.classes }
        ensures code { result.code ≡ branch.now.code }
        ensures class { result.class ≡ branch.now.class }
    {
        Frame {
            code: branch.code,
            class: branch.class,
            ..self
        }
    }
}

impl BoundedList<Frame> {
    /// Follows `branch` at the frame at `index`.
    #[inline(always)]
    pub(crate) fn follow(&mut self, index: usize, branch: &Branch)
        requires { index < length self.old.items }
        ensures { (frame : Frame) → frame ≡ slice_index_or self.old.items index frame
            → self.new.items ≡ slice_set self.old.items index (followed frame branch.now) }
    {
        let cells = &mut self.cells[..];
        let frame = &mut cells[index];
        frame.follow(branch);
    }
}

/// Makes the first steps of `steps` the steps of `frames`. The first `shared` stay, and so do the steps after the frames.
fn rewrite(steps: &mut BoundedList<PathStep>, frames: &[Frame], shared: usize)
    requires room { length frames.now ≤ length steps.old.items }
    requires within { shared ≤ length frames.now }
    requires same { take shared (map step_seen steps.old.items) ≡ take shared (map step_in frames.now) }
    ensures { map step_seen steps.new.items ≡ map step_in frames.now ++ drop (length frames.now) (map step_seen steps.old.items) }
{
    // Mostly only the last frame follows another class.
    if frames.len() == shared + 1 {
        let frame = &frames[shared];
        steps.set(shared, frame.step());
        return;
    }
    let added = &frames[shared..];
    for (index, frame) in added.iter().enumerate() {
        steps.set(shared + index, frame.step());
    }
}

/// Makes `steps` the steps of `frames` and then those of `tail`. The first `shared` of them stay.
fn write(steps: &mut BoundedList<PathStep>, frames: &[Frame], tail: &[PathStep], shared: usize)
    requires few { length frames.now + length tail.now ≤ MAX_MODULES }
    requires within { shared ≤ length frames.now }
    requires same { take shared (map step_seen steps.old.items) ≡ take shared (map step_in frames.now) }
    ensures { map step_seen steps.new.items ≡ map step_in frames.now ++ map step_seen tail.now }
{
    steps.truncate(shared);
    let added = &frames[shared..];
    for frame in added {
        steps.push(frame.step());
    }
    steps.extend(tail);
}

/// Whether `steps` is certain to be `count` steps and then `tail`. The last `settled` of `steps`, and those of `tail`, are of
/// consecutive modules, each with every code, so that comparing their counts and their first numbers is enough.
fn ends_with(steps: &[PathStep], count: usize, tail: &[PathStep], settled: usize) -> bool
    requires end { EndsInTail settled (map step_seen steps.now) }
    requires tail { IsTail (map step_seen tail.now) }
    ensures within { IsTrue result → count ≤ length steps.now }
    ensures same { IsTrue result → drop count (map step_seen steps.now) ≡ map step_seen tail.now }
{
    if tail.len() != settled || steps.len() - settled != count {
        return false;
    }
    settled == 0 || steps[count].number == tail[0].number
}

/// Makes `steps` the steps of `frames` and then those of `tail`. The first `shared` of them stay, and often all of the
/// last: the path before had `settled` steps at its end at which the answers no longer matter, and they are those of `tail`
/// too.
pub(crate) fn retell(
    steps: &mut BoundedList<PathStep>,
    frames: &[Frame],
    tail: &[PathStep],
    shared: usize,
    settled: usize,
)
    requires few { length frames.now + length tail.now ≤ MAX_MODULES }
    requires within { shared ≤ length frames.now }
    requires same { take shared (map step_seen steps.old.items) ≡ take shared (map step_in frames.now) }
    requires end { EndsInTail settled (map step_seen steps.old.items) }
    requires tail { IsTail (map step_seen tail.now) }
    ensures { map step_seen steps.new.items ≡ map step_in frames.now ++ map step_seen tail.now }
{
    if ends_with(steps.as_slice(), frames.len(), tail, settled) {
        rewrite(steps, frames, shared);
    } else {
        write(steps, frames, tail, shared);
    }
}

//! The frames of the path that a cursor names.

ghost use Rattle.std.specs.Prelude.{◌≡◌, ◌≢◌, ◌+◌, ◌*◌, ◌≤◌, ◌<◌, ◌&&◌, true, [], ℕ};
ghost use Rattle.std.specs.Prelude.{All, IfNone, IfSome, MatchResult, None, OnOk, Some};
ghost use Rattle.pam_codes.specs.declared.code.TheConstants.{CODES};
ghost use Rattle.pam_conf.specs.declared.stack.TheConstants.{MAX_MODULES};
ghost use Rattle.pam_dispatch.specs.Flat.{IsPlaceOf, modules_of, rest_of, runs_of};
ghost use Rattle.pam_dispatch.specs.Runs.{AsksRise, after_answer, asked_module, next_ask};
ghost use Rattle.pam_paths.specs.Classes.{class_of, least};
ghost use Rattle.pam_paths.specs.Computed.{is_offered};
ghost use Rattle.pam_paths.specs.Cursor.{accepted, verdict_told};
ghost use Rattle.pam_paths.specs.Frames.{ahead, step_in};
ghost use Rattle.pam_paths.specs.inner.Frames.{AreFrames, IsFrame, part};
ghost use Rattle.pam_paths.specs.Paths.{step_of};
ghost use Rattle.pam_paths.specs.inner.Retrace.{verdict_of};

use crate::classes::Classes;
use crate::cursor::{CursorError, code_numbered, least_number};
use crate::direction::Direction;
use crate::frames::{Frame, Frames};
use crate::knowledge::Knowledge;
use crate::scope::Scope;
use pam_codes::Code;
use pam_dispatch::{Place, Work};

/// A step of a cursor: the frame of its class, whether the class has an allowed code, and the next place.
#[derive(Clone, Copy, Debug)]
pub(crate) struct CursorStep {
    frame: Frame,
    offered: bool,
    place: Place,
}

/// The step of a cursor at `place`; `None` if `code` is not the least of its class.
fn retrace_step<K: Knowledge>(
    scope: &Scope<'_, K>,
    place: Place,
    module_number: usize,
    code: Code,
    work: &mut Work,
) -> Option<CursorStep>
    requires place { IsPlaceOf scope.now.program.now place }
    requires asking { asked_module (rest_of scope.now.program.now place) ≡ Some module_number }
    requires first { 1 ≤ module_number }
    requires last { module_number ≤ modules_of scope.now.program.now }
    requires few { modules_of scope.now.program.now ≤ MAX_MODULES }
    ensures not_least { IfNone result (least (class_of (next_ask (rest_of scope.now.program.now place)) code) ≢ code) }
    ensures least { IfSome result (λ t. least (class_of (next_ask (rest_of scope.now.program.now place)) code) ≡ code) }
    ensures frame { IfSome result (λ t. (low : ℕ) → AsksRise low (modules_of scope.now.program.now) (rest_of scope.now.program.now place)
        → IsFrame (K.allows scope.now.knowledge.now) scope.now.program.now low t.frame) }
    ensures at { IfSome result (λ t. t.frame.place ≡ place) }
    ensures code { IfSome result (λ t. t.frame.code ≡ code) }
    ensures step { IfSome result (λ t. step_in t.frame ≡ step_of (next_ask (rest_of scope.now.program.now place)) code) }
    ensures offered { IfSome result (λ t. t.offered
        ≡ is_offered (K.allows scope.now.knowledge.now) (next_ask (rest_of scope.now.program.now place)) code) }
    ensures place { IfSome result (λ t. IsPlaceOf scope.now.program.now t.place) }
    ensures rest { IfSome result (λ t. rest_of scope.now.program.now t.place ≡ after_answer (rest_of scope.now.program.now place) code) }
    ensures work { work.new ≤ work.old + 1 }
{
    let allowed = scope.knowledge.allowed(module_number);
    let classes = Classes::at(scope.program, &place, module_number, allowed);
    let frame = Frame::at(place, module_number, classes);
    let mut next = place;
    let branch = frame.branch(scope.program, code, &mut next, work);
    if least_number(branch.class) != code.number() {
        return None;
    }
    Some(CursorStep {
        frame: frame.following(&branch),
        offered: frame.classes.offered.contains(code),
        place: next,
    })
}

/// Whether a class and those before it have an allowed code.
fn both(before: bool, here: bool) -> bool
    ensures { result ≡ (before && here) }
{
    before && here
}

/// Pushes the frames of the path of `codes`, up to the first class that has no allowed code.
pub(crate) fn retrace<K: Knowledge>(
    scope: &Scope<'_, K>,
    codes: &[u8],
    frames: &mut Frames,
    work: &mut Work,
) -> Result<(), CursorError>
    requires none { frames.old.items ≡ [] }
    requires codes { All (λ code. code < CODES) codes.now }
    ensures verdict { MatchResult result (λ _. verdict_of (runs_of scope.now.program.now) codes.now ≡ accepted)
        (λ e. verdict_told e ≡ Some (verdict_of (runs_of scope.now.program.now) codes.now)) }
    ensures few { modules_of scope.now.program.now ≤ MAX_MODULES }
    ensures rise { AsksRise 0 (modules_of scope.now.program.now) (runs_of scope.now.program.now) }
    ensures frames { OnOk result (AreFrames (K.allows scope.now.knowledge.now) scope.now.program.now 0 frames.new.items) }
    ensures paths { OnOk result ((direction : Direction) → ahead direction (K.allows scope.now.knowledge.now) scope.now.program.now frames.new.items
        ≡ part direction (K.allows scope.now.knowledge.now) (runs_of scope.now.program.now) codes.now) }
    ensures work { work.new ≤ work.old + 64 * (modules_of scope.now.program.now + 1) }
{
    let mut place = scope.program.first();
    let mut offered = true;
    for (index, number) in codes.iter().enumerate() {
        let Some(module_number) = place.module() else {
            return Err(CursorError::TooLong);
        };
        let code = code_numbered(*number);
        let Some(step) = retrace_step(scope, place, module_number, code, work) else {
            return Err(CursorError::NotLeast(index + 1));
        };
        frames.push_if(offered, step.frame);
        offered = both(offered, step.offered);
        place = step.place;
    }
    match place.module() {
        Some(_) => Err(CursorError::TooShort),
        None => Ok(()),
    }
}

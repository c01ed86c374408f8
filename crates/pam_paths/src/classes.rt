//! Classes of codes that a run treats alike, computed part by part of a control.

ghost use Rattle.std.specs.Prelude.{◌≡◌, ◌<◌, ◌≤◌, ◌==◌, ◌&&◌, ◌||◌, ℕ, All, IfNone, IfSome, IsTrue, Some, false, if◌then◌else◌, length, nat_le, slice_get};
ghost use Rattle.std.specs.List.{list_any};
ghost use Rattle.pam_codes.specs.Code.{all_codes};
ghost use Rattle.pam_codes.specs.declared.code.TheConstants.{CODES};
ghost use Rattle.pam_codes.specs.Parts.{IsPart, IsParts};
ghost use Rattle.pam_codes.specs.Set.{IsCodeSet, codes_where, is_in};
ghost use Rattle.pam_dispatch.specs.declared.place.Place.{Place};
ghost use Rattle.pam_dispatch.specs.Flat.{IsPlaceOf, control_at, modules_of, rest_of};
ghost use Rattle.pam_dispatch.specs.Runs.{asked_module, next_ask, outcome_of};
ghost use Rattle.pam_dispatch.specs.Settled.{keeps_failure};
ghost use Rattle.pam_paths.specs.Classes.{class_at, class_of, least, same_outcome};
ghost use Rattle.pam_paths.specs.Frames.{AreClasses, offered_at};
ghost use Rattle.pam_paths.specs.Listing.{Allowance};
ghost use Rattle.pam_paths.specs.inner.Sharing.{is_offered_by, shared_code};

use pam_codes::{Action, Code, CodeSet, Part};
use pam_dispatch::{Outcome, Place, Program, Question, State, keeps_failure};

/// The classes computed for a module that is asked.
#[derive(Clone, Copy, Debug)]
pub(crate) struct Classes {
    /// The least codes of the classes that have an allowed code.
    pub(crate) offered: CodeSet,
    /// The codes of the classes computed that have several; any other code is alone in its class.
    pub(crate) shared: CodeSet,
    /// The class computed last.
    pub(crate) known: CodeSet,
    /// The class computed before it.
    pub(crate) earlier: CodeSet,
}

impl Default for Classes {
    fn default() -> Classes {
        Classes {
            offered: CodeSet::empty(),
            shared: CodeSet::empty(),
            known: CodeSet::empty(),
            earlier: CodeSet::empty(),
        }
    }
}

#[tactic(auto, unfolding(crate::specs::Classes::same_outcome))]
fn is_same(one: &Outcome, other: &Outcome) -> bool
    ensures { result ≡ same_outcome one.now other.now }
{
    one.state.impression.number() == other.state.impression.number()
        && one.state.status == other.state.status
        && one.left == other.left
}

/// Whether `code`, whose action is `action`, leads to `outcome`.
#[inline(always)]
fn leads_to(asked: &Question<'_>, action: Action, code: Code, outcome: &Outcome) -> bool
    requires { slice_get asked.now.control code ≡ Some action }
    ensures { result ≡ same_outcome outcome.now (outcome_of asked.now code) }
{
    is_same(outcome, &asked.outcome(action, code))
}

/// The set with `code` alone if it is in `part` and leads to `outcome`; else the empty set.
fn code_alike(asked: &Question<'_>, part: &Part, code: Code, outcome: &Outcome) -> CodeSet
    requires { IsPart asked.now.control part.now }
    ensures { result ≡ codes_where (λ d. (d == code) && (is_in d part.now.codes && same_outcome outcome.now (outcome_of asked.now d))) }
{
    if part.codes.contains(code) && leads_to(asked, part.action, code, outcome) {
        return CodeSet::single(code);
    }
    CodeSet::empty()
}

/// The codes of `part` that lead to `outcome`. If the action of the part looks at the code, the status determines the
/// code, except that ignore can count as perm_denied.
fn codes_alike(asked: &Question<'_>, part: &Part, outcome: &Outcome) -> CodeSet
    requires { IsPart asked.now.control part.now }
    ensures { result ≡ codes_where (λ d. is_in d part.now.codes && same_outcome outcome.now (outcome_of asked.now d)) }
{
    if asked.state().looks_at_code(part.action) {
        let told = code_alike(asked, part, outcome.state.status, outcome);
        return told.union(code_alike(asked, part, Code::IGNORE, outcome));
    }
    match part.codes.least() {
        Some(code) => {
            if leads_to(asked, part.action, code, outcome) {
                part.codes
            } else {
                CodeSet::empty()
            }
        }
        None => unreachable!(),
    }
}

/// The codes of `part` that lead to `outcome`, if none in `seen` does: a part without other codes is skipped.
fn unseen_alike(asked: &Question<'_>, part: &Part, seen: CodeSet, outcome: &Outcome) -> CodeSet
    requires { IsPart asked.now.control part.now }
    ensures { ((d : ℕ) → d < CODES → IsTrue (is_in d seen) → same_outcome outcome.now (outcome_of asked.now d) ≡ false)
        → result ≡ codes_where (λ d. is_in d part.now.codes && same_outcome outcome.now (outcome_of asked.now d)) }
{
    if part.codes.without(seen).is_empty() {
        return CodeSet::empty();
    }
    codes_alike(asked, part, outcome)
}

/// The codes that lead to `outcome`, if none in `seen` does.
fn class_at(asked: &Question<'_>, parts: &[Part], seen: CodeSet, outcome: &Outcome) -> CodeSet
    requires { IsParts asked.now.control parts.now }
    ensures { ((d : ℕ) → d < CODES → IsTrue (is_in d seen) → same_outcome outcome.now (outcome_of asked.now d) ≡ false)
        → result ≡ class_at asked.now outcome.now }
{
    let mut class = CodeSet::empty();
    for part in parts {
        class = class.union(unseen_alike(asked, part, seen, outcome));
    }
    class
}

/// The class of `code` for the module asked at `place`. Never inlined: it is rarely wanted, and `Classes::class_of` is
/// inlined.
#[inline(never)]
fn class_anew(program: &Program, place: &Place, module_number: usize, code: Code) -> CodeSet
    requires place { IsPlaceOf program.now place.now }
    requires asking { asked_module (rest_of program.now place.now) ≡ Some module_number }
    requires first { 1 ≤ module_number }
    requires last { module_number ≤ modules_of program.now }
    ensures { result ≡ class_of (next_ask (rest_of program.now place.now)) code }
{
    let parts = program.parts(module_number).as_slice();
    let outcome = program.outcome(place, code);
    class_at(&program.asked(place), parts, CodeSet::empty(), &outcome)
}

/// A code of `part` whose class can have further codes: any code if the action of the part does not look at it,
/// otherwise perm_denied, since ignore can count as perm_denied.
fn shared_code(part: &Part, state: State) -> Option<Code>
    ensures code { result ≡ shared_code part.now state }
    ensures inside { IfSome result (λ code. IsTrue (is_in code part.now.codes)) }
{
    if !state.looks_at_code(part.action) {
        return part.codes.least();
    }
    if part.codes.contains(Code::PERM_DENIED) {
        return Some(Code::PERM_DENIED);
    }
    None
}

/// Returns `codes` with those in `class` replaced by the least code of `class`.
fn with_least(codes: CodeSet, class: CodeSet) -> CodeSet
    ensures { result ≡ codes_where (λ d. if is_in d class then (least class == d) && list_any (λ k. is_in k codes) class else is_in d codes) }
{
    match class.least() {
        Some(code) => {
            if codes.meets(class) {
                codes.without(class).union(CodeSet::single(code))
            } else {
                codes.without(class)
            }
        }
        None => codes.without(class),
    }
}

/// Returns `shared` with the codes of `class`, if it has several.
fn with_several(shared: CodeSet, class: CodeSet) -> CodeSet
    ensures { result ≡ (if nat_le (length class) 1 then shared else codes_where (λ d. is_in d shared || is_in d class)) }
{
    if class.len() <= 1 {
        return shared;
    }
    shared.union(class)
}

/// The shared code of `part`, unless it is in `seen`, the classes computed so far.
fn unseen_code(part: &Part, state: State, seen: CodeSet) -> Option<Code>
    ensures some { IfSome result (λ code. shared_code part.now state ≡ Some code) }
    ensures inside { IfSome result (λ code. IsTrue (is_in code part.now.codes)) }
    ensures unseen { IfSome result (λ code. is_in code seen ≡ false) }
    ensures none { IfNone result (IfSome (shared_code part.now state) (λ code. IsTrue (is_in code seen))) }
{
    match shared_code(part, state) {
        Some(code) => {
            if seen.contains(code) {
                None
            } else {
                Some(code)
            }
        }
        None => None,
    }
}

/// Whether the action of each part leaves a failed stack as it is.
fn all_keep_failure(parts: &[Part]) -> bool
    ensures { IsTrue result → All (λ part. IsTrue (keeps_failure part.action)) parts.now }
{
    parts.iter().all(|part| keeps_failure(part.action))
}

impl Classes {
    /// The classes if all codes are alike.
    fn of_one(allowed: CodeSet) -> Classes
        ensures offered { result.offered ≡ codes_where (λ d. if is_in d all_codes then (least all_codes == d) && list_any (λ k. is_in k allowed) all_codes
            else is_in d allowed) }
        ensures shared { result.shared ≡ all_codes }
        ensures known { result.known ≡ all_codes }
        ensures earlier { result.earlier ≡ all_codes }
    {
        let every = CodeSet::all();
        Classes {
            offered: with_least(allowed, every),
            shared: every,
            known: every,
            earlier: every,
        }
    }

    /// The classes of the answers of a module. At first every allowed code is offered; then, part by part, only one code
    /// of each class that can have further ones.
    fn by_parts(asked: &Question<'_>, parts: &[Part], allowed: CodeSet) -> Classes
        requires parts { IsParts asked.now.control parts.now }
        requires allowed { IsCodeSet allowed }
        ensures offered { result.offered ≡ codes_where (is_offered_by allowed asked.now) }
        ensures classes { AreClasses asked.now result }
    {
        let mut offered = allowed;
        let mut seen = CodeSet::empty();
        let mut shared = CodeSet::empty();
        let mut known = CodeSet::empty();
        let mut earlier = CodeSet::empty();
        for part in parts {
            if let Some(code) = unseen_code(part, asked.state(), seen) {
                // No code of the classes so far is in this one.
                let class = class_at(asked, parts, seen, &asked.outcome(part.action, code));
                offered = with_least(offered, class);
                seen = seen.union(class);
                shared = with_several(shared, class);
                earlier = known;
                known = class;
            }
        }
        Classes {
            offered,
            shared,
            known,
            earlier,
        }
    }

    /// The classes at `place`. If the stack has failed and no code can change that or what is asked, all are alike.
    pub(crate) fn at(
        program: &Program,
        place: &Place,
        module_number: usize,
        allowed: CodeSet,
    ) -> Classes
        requires place { IsPlaceOf program.now place.now }
        requires asking { asked_module (rest_of program.now place.now) ≡ Some module_number }
        requires first { 1 ≤ module_number }
        requires last { module_number ≤ modules_of program.now }
        requires allowed { IsCodeSet allowed }
        ensures offered { (allows : Allowance) → allowed ≡ codes_where (allows module_number)
            → result.offered ≡ offered_at allows (rest_of program.now place.now) }
        ensures classes { AreClasses (next_ask (rest_of program.now place.now)) result }

        // The module has one control, wherever it is asked.
        ensures control { (other : Place) → IsPlaceOf program.now other → asked_module (rest_of program.now other) ≡ Some module_number
            → (next_ask (rest_of program.now other)).control ≡ control_at program.now module_number }
    {
        let parts = program.parts(module_number).as_slice();
        let asked = program.asked(place);
        if asked.state().has_failed() && all_keep_failure(parts) {
            return Classes::of_one(allowed);
        }
        Classes::by_parts(&asked, parts, allowed)
    }

    /// The class of `code` for the module asked at `place`.
    #[inline(always)]
    pub(crate) fn class_of(
        &self,
        program: &Program,
        place: &Place,
        module_number: usize,
        code: Code,
    ) -> CodeSet
        requires place { IsPlaceOf program.now place.now }
        requires asking { asked_module (rest_of program.now place.now) ≡ Some module_number }
        requires first { 1 ≤ module_number }
        requires last { module_number ≤ modules_of program.now }
        requires classes { AreClasses (next_ask (rest_of program.now place.now)) self.now }
        ensures { result ≡ class_of (next_ask (rest_of program.now place.now)) code }
    {
        if self.known.contains(code) {
            return self.known;
        }
        if self.earlier.contains(code) {
            return self.earlier;
        }
        if !self.shared.contains(code) {
            return CodeSet::single(code);
        }
        class_anew(program, place, module_number, code)
    }
}

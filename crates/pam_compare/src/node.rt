//! The nodes of a comparison.

ghost use Rattle.std.specs.Prelude.{◌≡◌, ◌<◌, ℕ, IsSome, IsTrue, Some};
ghost use Rattle.pam_codes.specs.Set.{is_in};
ghost use Rattle.pam_dispatch.specs.Flat.{IsPlaceOf, rest_of};
ghost use Rattle.pam_dispatch.specs.Runs.{after_answer, asked_module, outcome_in};
ghost use Rattle.pam_compare.specs.inner.Outcomes.{AreOutcomes};
ghost use Rattle.pam_compare.specs.Walks.{HaveOneOutcome, old_after, new_after};
ghost use Rattle.pam_compare.specs.inner.Turn.{AreAlike, IsTurn};

use crate::held::HeldAnswer;
use crate::naming::Naming;
use crate::turn::Turn;
use pam_codes::{CODES, Code, CodeSet};
use pam_dispatch::{Outcome, Place, Program, Work};

/// Two programs, and the names of their modules.
#[derive(Clone, Copy, Debug)]
pub(crate) struct Pair<'a> {
    pub(crate) old: &'a Program,
    pub(crate) new: &'a Program,
    pub(crate) naming: &'a Naming,
}

/// The places of a situation, and the answers that are held there.
#[derive(Debug, Drop)]
pub(crate) struct Node {
    pub(crate) old: Place,
    pub(crate) new: Place,
    pub(crate) held: Vec<HeldAnswer>,
}

/// The outcomes of a code in the stacks that are asked.
#[derive(Clone, Copy, Debug)]
struct Outcomes {
    old: Outcome,
    new: Outcome,
}

/// The outcomes of a code.
fn outcomes_of(pair: &Pair<'_>, node: &Node, turn: Turn, code: Code) -> Outcomes
    requires old { IsPlaceOf pair.now.old.now node.now.old }
    requires new { IsPlaceOf pair.now.new.now node.now.new }
    requires turn { IsTurn pair.now.naming.now.names.items (asked_module (rest_of pair.now.old.now node.now.old))
        (asked_module (rest_of pair.now.new.now node.now.new)) turn }
    ensures { AreOutcomes turn (rest_of pair.now.old.now node.now.old) (rest_of pair.now.new.now node.now.new) code result }
{
    match turn {
        Turn::Old(_) => Outcomes {
            old: pair.old.outcome(&node.old, code),
            new: Outcome::default(),
        },
        Turn::New(_) => Outcomes {
            old: Outcome::default(),
            new: pair.new.outcome(&node.new, code),
        },
        Turn::Both(_, _) => Outcomes {
            old: pair.old.outcome(&node.old, code),
            new: pair.new.outcome(&node.new, code),
        },
    }
}

/// Whether a module's code leads to an outcome, and so to the same rest of the run as each other code that does.
fn leads_to(program: &Program, place: &Place, outcome: &Outcome, other: Code) -> bool
    requires place { IsPlaceOf program.now place.now }
    requires asking { IsSome (asked_module (rest_of program.now place.now)) }
    ensures alike { (code : ℕ) → outcome_in (rest_of program.now place.now) code ≡ outcome.now → IsTrue result
        → after_answer (rest_of program.now place.now) code ≡ after_answer (rest_of program.now place.now) other }
    ensures same { (code : ℕ) → outcome_in (rest_of program.now place.now) code ≡ outcome.now → IsTrue result
        → outcome_in (rest_of program.now place.now) code ≡ outcome_in (rest_of program.now place.now) other }
    ensures exact { (code : ℕ) → outcome_in (rest_of program.now place.now) code ≡ outcome.now
        → outcome_in (rest_of program.now place.now) code ≡ outcome_in (rest_of program.now place.now) other → IsTrue result }
{
    *outcome == program.outcome(place, other)
}

/// Whether both stacks go on after a code as after those that have these outcomes.
fn are_alike(pair: &Pair<'_>, node: &Node, turn: Turn, outcomes: &Outcomes, other: Code) -> bool
    requires old { IsPlaceOf pair.now.old.now node.now.old }
    requires new { IsPlaceOf pair.now.new.now node.now.new }
    requires turn { IsTurn pair.now.naming.now.names.items (asked_module (rest_of pair.now.old.now node.now.old))
        (asked_module (rest_of pair.now.new.now node.now.new)) turn }
    ensures alike { (code : ℕ) → AreOutcomes turn (rest_of pair.now.old.now node.now.old) (rest_of pair.now.new.now node.now.new) code outcomes.now
        → IsTrue result → AreAlike turn (rest_of pair.now.old.now node.now.old) (rest_of pair.now.new.now node.now.new) code other }
    ensures same { (code : ℕ) → AreOutcomes turn (rest_of pair.now.old.now node.now.old) (rest_of pair.now.new.now node.now.new) code outcomes.now
        → IsTrue result → HaveOneOutcome turn (rest_of pair.now.old.now node.now.old) (rest_of pair.now.new.now node.now.new) code other }
    ensures exact { (code : ℕ) → AreOutcomes turn (rest_of pair.now.old.now node.now.old) (rest_of pair.now.new.now node.now.new) code outcomes.now
        → HaveOneOutcome turn (rest_of pair.now.old.now node.now.old) (rest_of pair.now.new.now node.now.new) code other → IsTrue result }
{
    match turn {
        Turn::Old(_) => leads_to(pair.old, &node.old, &outcomes.old, other),
        Turn::New(_) => leads_to(pair.new, &node.new, &outcomes.new, other),
        Turn::Both(_, _) => leads_to(pair.old, &node.old, &outcomes.old, other)
            && leads_to(pair.new, &node.new, &outcomes.new, other),
    }
}

/// Adds a code to `class`, if both stacks go on after it as after those that have these outcomes.
fn with_alike(
    pair: &Pair<'_>,
    node: &Node,
    turn: Turn,
    outcomes: &Outcomes,
    class: CodeSet,
    other: Option<Code>,
) -> CodeSet
    requires old { IsPlaceOf pair.now.old.now node.now.old }
    requires new { IsPlaceOf pair.now.new.now node.now.new }
    requires turn { IsTurn pair.now.naming.now.names.items (asked_module (rest_of pair.now.old.now node.now.old))
        (asked_module (rest_of pair.now.new.now node.now.new)) turn }
    ensures alike { (code : ℕ) → AreOutcomes turn (rest_of pair.now.old.now node.now.old) (rest_of pair.now.new.now node.now.new) code outcomes.now
        → ((d : ℕ) → d < 31 → IsTrue (is_in d class)
        → AreAlike turn (rest_of pair.now.old.now node.now.old) (rest_of pair.now.new.now node.now.new) code d)
        → (d : ℕ) → d < 31 → IsTrue (is_in d result) → AreAlike turn (rest_of pair.now.old.now node.now.old) (rest_of pair.now.new.now node.now.new) code d }
    ensures same { (code : ℕ) → AreOutcomes turn (rest_of pair.now.old.now node.now.old) (rest_of pair.now.new.now node.now.new) code outcomes.now
        → ((d : ℕ) → d < 31 → IsTrue (is_in d class)
        → HaveOneOutcome turn (rest_of pair.now.old.now node.now.old) (rest_of pair.now.new.now node.now.new) code d)
        → (d : ℕ) → d < 31 → IsTrue (is_in d result)
        → HaveOneOutcome turn (rest_of pair.now.old.now node.now.old) (rest_of pair.now.new.now node.now.new) code d }
    ensures more { (d : ℕ) → d < 31 → IsTrue (is_in d class) → IsTrue (is_in d result) }
    ensures all { (code d : ℕ) → AreOutcomes turn (rest_of pair.now.old.now node.now.old) (rest_of pair.now.new.now node.now.new) code outcomes.now
        → other ≡ Some d → d < 31 → HaveOneOutcome turn (rest_of pair.now.old.now node.now.old) (rest_of pair.now.new.now node.now.new) code d
        → IsTrue (is_in d result) }
{
    let Some(other) = other else {
        return class;
    };
    if !are_alike(pair, node, turn, outcomes, other) {
        return class;
    }
    let mut more = class;
    more.insert(other);
    more
}

/// The code with this number, if it is one of these.
fn member(codes: CodeSet, number: u8) -> Option<Code>
    ensures { number < 31 → IsTrue (is_in number codes) → result ≡ Some number }
{
    let code = Code::new(number)?;
    if codes.contains(code) {
        Some(code)
    } else {
        None
    }
}

/// The code `code`, and those of `left` after which both stacks go on as after it.
pub(crate) fn class_of(
    pair: &Pair<'_>,
    node: &Node,
    turn: Turn,
    code: Code,
    left: CodeSet,
) -> CodeSet
    requires old { IsPlaceOf pair.now.old.now node.now.old }
    requires new { IsPlaceOf pair.now.new.now node.now.new }
    requires turn { IsTurn pair.now.naming.now.names.items (asked_module (rest_of pair.now.old.now node.now.old))
        (asked_module (rest_of pair.now.new.now node.now.new)) turn }
    ensures alike { (d : ℕ) → d < 31 → IsTrue (is_in d result)
        → AreAlike turn (rest_of pair.now.old.now node.now.old) (rest_of pair.now.new.now node.now.new) code d }
    ensures same { (d : ℕ) → d < 31 → IsTrue (is_in d result)
        → HaveOneOutcome turn (rest_of pair.now.old.now node.now.old) (rest_of pair.now.new.now node.now.new) code d }
    ensures all { (d : ℕ) → d < 31 → IsTrue (is_in d left)
        → HaveOneOutcome turn (rest_of pair.now.old.now node.now.old) (rest_of pair.now.new.now node.now.new) code d → IsTrue (is_in d result) }
    ensures own { code < 31 → IsTrue (is_in code result) }
{
    let outcomes = outcomes_of(pair, node, turn, code);
    let mut class = CodeSet::single(code);
    for number in 0..CODES as u8 {
        class = with_alike(pair, node, turn, &outcomes, class, member(left, number));
    }
    class
}

/// The places of the old stack and of the new one after the answer `code`.
pub(crate) fn places_after(pair: &Pair<'_>, node: &Node, turn: Turn, code: Code) -> (Place, Place)
    requires old { IsPlaceOf pair.now.old.now node.now.old }
    requires new { IsPlaceOf pair.now.new.now node.now.new }
    requires turn { IsTurn pair.now.naming.now.names.items (asked_module (rest_of pair.now.old.now node.now.old))
        (asked_module (rest_of pair.now.new.now node.now.new)) turn }
    ensures old { IsPlaceOf pair.now.old.now result.0 }
    ensures new { IsPlaceOf pair.now.new.now result.1 }
    ensures left { rest_of pair.now.old.now result.0 ≡ old_after turn (rest_of pair.now.old.now node.now.old) code }
    ensures right { rest_of pair.now.new.now result.1 ≡ new_after turn (rest_of pair.now.new.now node.now.new) code }
{
    let mut old = node.old;
    let mut new = node.new;
    let mut work = Work::new();
    match turn {
        Turn::Old(_) => {
            pair.old.step_on(&mut old, code, &mut work);
        }
        Turn::New(_) => {
            pair.new.step_on(&mut new, code, &mut work);
        }
        Turn::Both(_, _) => {
            pair.old.step_on(&mut old, code, &mut work);
            pair.new.step_on(&mut new, code, &mut work);
        }
    }
    (old, new)
}

//! Answers with which two stacks decide differently.

ghost use Rattle.std.specs.Prelude.{◌≡◌, ◌≤◌, ◌<◌, ◌+◌, ℕ, IfNone, IfOk, IfSome, List, None, Option, Some, length, slice_get};
ghost use Rattle.pam_dispatch.specs.Flat.{modules_of, runs_of};
ghost use Rattle.pam_dispatch.specs.Runs.{Assignment, answers_of};
ghost use Rattle.pam_paths.specs.Listing.{Allowance};
ghost use Rattle.pam_compare.specs.declared.change.Change.{Change};
ghost use Rattle.pam_compare.specs.declared.nodes.Way.{Way};
ghost use Rattle.pam_compare.specs.Comparison.{IsWitness, decision_in};
ghost use Rattle.pam_compare.specs.Names.{by_name};
ghost use Rattle.pam_compare.specs.inner.Naming.{AreUsual, IsPossible, by_code};
ghost use Rattle.pam_compare.specs.inner.Trails.{AreAnswers, IsTrail, answers_on};
ghost use Rattle.pam_compare.specs.inner.Ways.{AreReached, AreWalked, IsEnd, IsNaming, IsNamingFor, IsNearest};

use crate::naming::{Naming, possible_at, value_at};
use crate::node::Pair;
use crate::nodes::{Nodes, Way};
use crate::usual::first_usual;
use pam_codes::Code;
use pam_dispatch::{Decision, Memory, Program};
use std::alloc::Global;

/// Answers with which two stacks decide differently: a code for each module, even for one that is never asked, from module 1 on.
#[derive(Debug, Drop)]
pub struct Witness {
    pub old_codes: Vec<Code>,
    pub new_codes: Vec<Code>,
    pub old: Decision,
    pub new: Decision,
}

/// A code for each name that may be answered, the first in the usual order; `None` if some name has none.
pub(crate) fn usual_codes(alloc: Global, naming: &Naming) -> Result<Option<Vec<Code>>, Memory>
    ensures none { IfOk result (λ some. IfNone some ((a : Assignment) → IsPossible naming.now.possible.items a → ⊥)) }
    ensures some { IfOk result (λ some. IfSome some (λ codes. IsPossible naming.now.possible.items (by_code codes.items))) }
    ensures first { IfOk result (λ some. IfSome some (λ codes. AreUsual naming.now.possible.items codes.items)) }
{
    let mut codes = Vec::new(alloc);
    for name in 0..naming.possible.len() {
        let Some(code) = first_usual(possible_at(&naming.possible, name)) else {
            return Ok(None);
        };
        codes.push(code)?;
    }
    Ok(Some(codes))
}

/// The last step of the way to the node at `index`.
fn step_at(ways: &[Way], index: usize) -> Way
    requires { index < length ways.now }
    ensures { slice_get ways.now index ≡ Some result }
{
    ways[index]
}

/// The steps on the way to the node at `index`, the last one first.
fn trail_to(alloc: Global, ways: &[Way], index: usize) -> Result<Vec<Way>, Memory>
    requires { (trail : List Way) × IsTrail ways.now index trail }
    ensures { IfOk result (λ trail. IsTrail ways.now index trail.items) }
{
    let mut trail = Vec::new(alloc);
    let mut at = index;
    while at > 0 {
        let way = step_at(ways, at);
        at = way.parent;
        trail.push(way)?;
    }
    Ok(trail)
}

/// The answer of the module with this name: that of the last step on the trail that has the name, or else the usual one.
fn answer_on(usual: &[Code], trail: &[Way], name: usize) -> Code
    ensures { result ≡ answers_on (by_code usual.now) trail.now name }
{
    for index in 0..trail.len() {
        let way = trail[index];
        if way.name == name {
            return way.code;
        }
    }
    if name < usual.len() {
        usual[name]
    } else {
        Code::SUCCESS
    }
}

/// The answers of the old stack's modules.
fn old_answers(
    alloc: Global,
    modules: usize,
    usual: &[Code],
    trail: &[Way],
) -> Result<Vec<Code>, Memory>
    requires { modules ≤ 256 }
    ensures { IfOk result (λ codes. AreAnswers modules (answers_on (by_code usual.now) trail.now) codes.items) }
{
    let mut codes = Vec::new(alloc);
    for index in 0..modules {
        codes.push(answer_on(usual, trail, index + 1))?;
    }
    Ok(codes)
}

/// The answers of the new stack's modules, which answer by their names.
fn new_answers(
    alloc: Global,
    modules: usize,
    names: &[usize],
    usual: &[Code],
    trail: &[Way],
) -> Result<Vec<Code>, Memory>
    requires { modules ≤ 256 }
    ensures { IfOk result (λ codes. AreAnswers modules (by_name names.now (answers_on (by_code usual.now) trail.now)) codes.items) }
{
    let mut codes = Vec::new(alloc);
    for index in 0..modules {
        codes.push(answer_on(usual, trail, value_at(names, index + 1)))?;
    }
    Ok(codes)
}

/// The decision of a stack whose modules answer these codes.
fn decided(program: &Program, codes: &[Code]) -> Decision
    requires { length codes.now ≡ modules_of program.now }
    ensures { result ≡ decision_in (runs_of program.now) (answers_of codes.now) }
{
    match program.decide(codes) {
        Ok(decision) => decision,
        Err(_) => unreachable!(),
    }
}

/// The answers on the way to the node at `index`, at which both runs end.
fn witness_to(
    alloc: Global,
    pair: &Pair<'_>,
    usual: &[Code],
    nodes: &Nodes,
    index: usize,
) -> Result<Witness, Memory>
    requires usual { IsPossible pair.now.naming.now.possible.items (by_code usual.now) }
    requires first { AreUsual pair.now.naming.now.possible.items usual.now }
    requires naming { IsNaming pair.now.old.now pair.now.new.now pair.now.naming.now }
    requires reached { AreReached pair.now.old.now pair.now.new.now pair.now.naming.now.names.items pair.now.naming.now.possible.items nodes.now }
    requires walked { AreWalked pair.now.old.now pair.now.new.now pair.now.naming.now nodes.now }
    requires end { (change : Change) × IsEnd pair.now.old.now pair.now.new.now nodes.now index change }
    ensures { (old_allows new_allows : Allowance) (partners : List (Option ℕ)) (change : Change)
        → IsNamingFor old_allows new_allows pair.now.old.now pair.now.new.now partners pair.now.naming.now
        → IsEnd pair.now.old.now pair.now.new.now nodes.now index change
        → IsNearest pair.now.old.now pair.now.new.now pair.now.naming.now nodes.now.ways.items index change
        → IfOk result (IsWitness old_allows new_allows pair.now.old.now pair.now.new.now partners change) }
{
    let trail = trail_to(alloc, &nodes.ways, index)?;
    let old_codes = old_answers(alloc, pair.old.modules(), usual, &trail)?;
    let new_codes = new_answers(alloc, pair.new.modules(), &pair.naming.names, usual, &trail)?;
    let old = decided(pair.old, &old_codes);
    let new = decided(pair.new, &new_codes);
    Ok(Witness {
        old_codes,
        new_codes,
        old,
        new,
    })
}

/// The answers on the way to a node at which both runs end, if there is one.
pub(crate) fn witness_at(
    alloc: Global,
    pair: &Pair<'_>,
    usual: &[Code],
    nodes: &Nodes,
    index: Option<usize>,
) -> Result<Option<Witness>, Memory>
    requires usual { IsPossible pair.now.naming.now.possible.items (by_code usual.now) }
    requires first { AreUsual pair.now.naming.now.possible.items usual.now }
    requires naming { IsNaming pair.now.old.now pair.now.new.now pair.now.naming.now }
    requires reached { AreReached pair.now.old.now pair.now.new.now pair.now.naming.now.names.items pair.now.naming.now.possible.items nodes.now }
    requires walked { AreWalked pair.now.old.now pair.now.new.now pair.now.naming.now nodes.now }
    requires end { (k : ℕ) → index ≡ Some k → (change : Change) × IsEnd pair.now.old.now pair.now.new.now nodes.now k change }
    ensures none { IfOk result (λ some. some ≡ None → index ≡ None) }
    ensures witness { (old_allows new_allows : Allowance) (partners : List (Option ℕ)) (change : Change)
        → IsNamingFor old_allows new_allows pair.now.old.now pair.now.new.now partners pair.now.naming.now
        → ((k : ℕ) → index ≡ Some k → IsEnd pair.now.old.now pair.now.new.now nodes.now k change)
        → ((k : ℕ) → index ≡ Some k → IsNearest pair.now.old.now pair.now.new.now pair.now.naming.now nodes.now.ways.items k change)
        → IfOk result (λ some. IfSome some (IsWitness old_allows new_allows pair.now.old.now pair.now.new.now partners change)) }
{
    match index {
        None => Ok(None),
        Some(index) => {
            let witness = witness_to(alloc, pair, usual, nodes, index)?;
            Ok(Some(witness))
        }
    }
}

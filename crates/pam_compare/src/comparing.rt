//! The comparison.

ghost use Rattle.std.specs.Prelude.{◌≡◌, ◌+◌, ◌≤◌, ◌<◌, ℕ, IfNone, IfOk, IfSome, List, None, OnOk, Option, Some, length, slice_get};
ghost use Rattle.pam_dispatch.specs.Flat.{IsPlaceOf, rest_of};
ghost use Rattle.pam_dispatch.specs.Runs.{Assignment, asked_module};
ghost use Rattle.pam_compare.specs.declared.change.Change.{Change};
ghost use Rattle.pam_compare.specs.declared.situation.Situation.{Situation};
ghost use Rattle.pam_compare.specs.Changes.{change_of};
ghost use Rattle.pam_compare.specs.Comparison.{AreChanges, IsComparison, decision_in};
ghost use Rattle.pam_compare.specs.inner.Naming.{AreUsual, IsPossible, by_code};
ghost use Rattle.pam_paths.specs.Listing.{Allowance};
ghost use Rattle.pam_compare.specs.inner.Nodes.{AreEarlier, AreNodes, IsBegun, IsSearched, IsVisited, KeepsFound, KeepsNodes};
ghost use Rattle.pam_compare.specs.Walks.{turn_of};
ghost use Rattle.pam_compare.specs.inner.Turn.{IsTurn, first_of};
ghost use Rattle.pam_compare.specs.inner.Ways.{AreEnds, AreOrdered, AreReached, AreUnique, AreWalked, IsNaming, IsNamingFor};

use crate::change::Change;
use crate::expanding::{Fork, expand};
use crate::held::HeldAfter;
use crate::matching::Matching;
use crate::naming::{Naming, Sides};
use crate::node::{Node, Pair};
use crate::nodes::{Found, Nodes, Way};
use crate::turn::{Turn, next_turn};
use crate::witness::{Witness, usual_codes, witness_at};
use pam_codes::{Code, CodeSet};
use pam_dispatch::{Memory, Program};
use pam_paths::Knowledge;
use std::alloc::Global;

/// The most situations that are looked at.
pub const MAX_SITUATIONS: usize = 1_000_000;

/// For each change, answers that make it, or `None` if no answers do.
#[derive(Debug, Drop)]
pub struct Changes {
    pub admits: Option<Witness>,
    pub refuses: Option<Witness>,
    pub tells: Option<Witness>,
}

/// What a comparison finds.
#[derive(Debug, Drop)]
pub enum Comparison {
    Known(Changes),
    /// The stacks can be in more than `MAX_SITUATIONS` situations.
    NotKnown,
}

/// The turn at a node; `None` at the end of both runs.
fn turn_at(pair: &Pair<'_>, node: &Node) -> Option<Turn>
    requires old { IsPlaceOf pair.now.old.now node.now.old }
    requires new { IsPlaceOf pair.now.new.now node.now.new }
    ensures turn { IfSome result (λ turn. IsTurn pair.now.naming.now.names.items (asked_module (rest_of pair.now.old.now node.now.old))
        (asked_module (rest_of pair.now.new.now node.now.new)) turn) }
    ensures order { result ≡ turn_of pair.now.naming.now.names.items (first_of pair.now.naming.now.ranks) (asked_module (rest_of pair.now.old.now node.now.old))
        (asked_module (rest_of pair.now.new.now node.now.new)) }
    ensures old { IfNone result (asked_module (rest_of pair.now.old.now node.now.old) ≡ None) }
    ensures new { IfNone result (asked_module (rest_of pair.now.new.now node.now.new) ≡ None) }
{
    next_turn(pair.naming, node.old.module(), node.new.module())
}

/// The change at a node at which both runs end.
fn change_at(pair: &Pair<'_>, node: &Node) -> Option<Change>
    requires old { IsPlaceOf pair.now.old.now node.now.old }
    requires new { IsPlaceOf pair.now.new.now node.now.new }
    requires old_end { asked_module (rest_of pair.now.old.now node.now.old) ≡ None }
    requires new_end { asked_module (rest_of pair.now.new.now node.now.new) ≡ None }
    ensures { (a b : Assignment)
        → result ≡ change_of (decision_in (rest_of pair.now.old.now node.now.old) a) (decision_in (rest_of pair.now.new.now node.now.new) b) }
{
    Change::of(
        pair.old.decision(&node.old).code(),
        pair.new.decision(&node.new).code(),
    )
}

/// Visits the node at `index`: adds the nodes that follow it, or notes the change at the end of both runs.
fn visit(
    alloc: Global,
    pair: &Pair<'_>,
    nodes: &mut Nodes,
    found: &mut Found,
    index: usize,
) -> Result<(), Memory>
    requires within { index < length nodes.old.situations.keys }
    requires nodes { AreNodes pair.now.old.now pair.now.new.now nodes.old }
    requires naming { IsNaming pair.now.old.now pair.now.new.now pair.now.naming.now }
    requires reached { AreReached pair.now.old.now pair.now.new.now pair.now.naming.now.names.items pair.now.naming.now.possible.items nodes.old }
    requires walked { AreWalked pair.now.old.now pair.now.new.now pair.now.naming.now nodes.old }
    requires ordered { AreOrdered nodes.old.ways.items index }
    requires ends { AreEnds pair.now.old.now pair.now.new.now nodes.old found.old }
    requires earlier { AreEarlier found.old index }
    ensures keeps { OnOk result (KeepsNodes nodes.old nodes.new) }
    ensures nodes { OnOk result (AreNodes pair.now.old.now pair.now.new.now nodes.new) }
    ensures reached { OnOk result (AreReached pair.now.old.now pair.now.new.now pair.now.naming.now.names.items pair.now.naming.now.possible.items nodes.new) }
    ensures walked { OnOk result (AreWalked pair.now.old.now pair.now.new.now pair.now.naming.now nodes.new) }
    ensures ordered { OnOk result (AreOrdered nodes.new.ways.items (index + 1)) }
    ensures ends { OnOk result (AreEnds pair.now.old.now pair.now.new.now nodes.new found.new) }
    ensures earlier { OnOk result (AreEarlier found.new (index + 1)) }
    ensures found { KeepsFound found.old found.new }
    ensures visited { (s : Situation) → slice_get nodes.old.situations.keys index ≡ Some s
        → OnOk result (IsVisited pair.now.old.now pair.now.new.now pair.now.naming.now.names.items (first_of pair.now.naming.now.ranks)
        pair.now.naming.now.possible.items nodes.new found.new index s) }
{
    let node = nodes.node_at(alloc, index)?;
    let Some(turn) = turn_at(pair, &node) else {
        found.note(change_at(pair, &node), index);
        return Ok(());
    };
    let fork = Fork {
        node: &node,
        turn,
        index,
    };
    expand(alloc, pair, nodes, &fork)?;
    Ok(())
}

/// What a search finds.
#[derive(Drop)]
struct Searched {
    nodes: Nodes,
    found: Found,
}

/// The node at which both stacks begin.
fn begin(alloc: Global, pair: &Pair<'_>) -> Result<Nodes, Memory>
    ensures nodes { IfOk result (λ nodes. AreNodes pair.now.old.now pair.now.new.now nodes) }
    ensures reached { IfOk result (λ nodes.
        AreReached pair.now.old.now pair.now.new.now pair.now.naming.now.names.items pair.now.naming.now.possible.items nodes) }
    ensures ordered { IfOk result (λ nodes. AreOrdered nodes.ways.items 0) }
    ensures walked { IfOk result (λ nodes. AreWalked pair.now.old.now pair.now.new.now pair.now.naming.now nodes) }
    ensures begun { IfOk result (λ nodes. IsBegun pair.now.old.now pair.now.new.now nodes) }
{
    let mut nodes = Nodes::new(alloc);
    let way = Way {
        parent: 0,
        name: 0,
        code: Code::SUCCESS,
        class: CodeSet::empty(),
    };
    let old = pair.old.first();
    let new = pair.new.first();
    let nothing = HeldAfter {
        latest: Vec::new(alloc),
        start: 0,
    };
    nodes.add(&old, &new, &nothing, way)?;
    Ok(nodes)
}

/// Looks at each situation in turn, in breadth, until there are more than `limit`.
fn search(alloc: Global, pair: &Pair<'_>, limit: usize) -> Result<Searched, Memory>
    requires naming { IsNaming pair.now.old.now pair.now.new.now pair.now.naming.now }
    ensures nodes { IfOk result (λ s. AreNodes pair.now.old.now pair.now.new.now s.nodes) }
    ensures reached { IfOk result (λ s.
        AreReached pair.now.old.now pair.now.new.now pair.now.naming.now.names.items pair.now.naming.now.possible.items s.nodes) }
    ensures unique { IfOk result (λ s. AreUnique s.nodes.ways.items) }
    ensures walked { IfOk result (λ s. AreWalked pair.now.old.now pair.now.new.now pair.now.naming.now s.nodes) }
    ensures ends { IfOk result (λ s. AreEnds pair.now.old.now pair.now.new.now s.nodes s.found) }
    ensures all { IfOk result (λ s. length s.nodes.situations.keys ≤ limit
        → IsSearched pair.now.old.now pair.now.new.now pair.now.naming.now.names.items (first_of pair.now.naming.now.ranks)
        pair.now.naming.now.possible.items s.nodes.ways.items s.found) }
{
    let mut nodes = begin(alloc, pair)?;
    let mut found = Found::new();
    for index in 0..limit {
        if index >= nodes.situations.len() {
            return Ok(Searched { nodes, found });
        }
        if nodes.situations.len() > limit {
            return Ok(Searched { nodes, found });
        }
        visit(alloc, pair, &mut nodes, &mut found, index)?;
    }
    Ok(Searched { nodes, found })
}

/// No change.
fn no_changes() -> Changes
    ensures admits { result.admits ≡ None }
    ensures refuses { result.refuses ≡ None }
    ensures tells { result.tells ≡ None }
{
    Changes {
        admits: None,
        refuses: None,
        tells: None,
    }
}

/// For each change, answers that make it.
fn changes_of(
    alloc: Global,
    pair: &Pair<'_>,
    usual: &[Code],
    searched: &Searched,
) -> Result<Changes, Memory>
    requires usual { IsPossible pair.now.naming.now.possible.items (by_code usual.now) }
    requires first { AreUsual pair.now.naming.now.possible.items usual.now }
    requires naming { IsNaming pair.now.old.now pair.now.new.now pair.now.naming.now }
    requires reached { AreReached pair.now.old.now pair.now.new.now pair.now.naming.now.names.items pair.now.naming.now.possible.items searched.now.nodes }
    requires walked { AreWalked pair.now.old.now pair.now.new.now pair.now.naming.now searched.now.nodes }
    requires ends { AreEnds pair.now.old.now pair.now.new.now searched.now.nodes searched.now.found }
    ensures { (old_allows new_allows : Allowance) (partners : List (Option ℕ))
        → IsNamingFor old_allows new_allows pair.now.old.now pair.now.new.now partners pair.now.naming.now
        → IsSearched pair.now.old.now pair.now.new.now pair.now.naming.now.names.items (first_of pair.now.naming.now.ranks)
        pair.now.naming.now.possible.items searched.now.nodes.ways.items searched.now.found
        → IfOk result (AreChanges old_allows new_allows pair.now.old.now pair.now.new.now partners) }
{
    // A program says with the number of its modules that they are asked in order.
    let _old_modules = pair.old.modules();
    let _new_modules = pair.new.modules();
    let nodes = &searched.nodes;
    let found = &searched.found;
    let admits = witness_at(alloc, pair, usual, nodes, found.admits)?;
    let refuses = witness_at(alloc, pair, usual, nodes, found.refuses)?;
    let tells = witness_at(alloc, pair, usual, nodes, found.tells)?;
    Ok(Changes {
        admits,
        refuses,
        tells,
    })
}

/// Compares the decisions of two stacks by the answers of names. `usual` has one that is possible for each name.
// A call of its own, so that few values are owned where the search may run out of memory.
fn compare_named(alloc: Global, pair: &Pair<'_>, usual: &[Code]) -> Result<Comparison, Memory>
    requires naming { IsNaming pair.now.old.now pair.now.new.now pair.now.naming.now }
    requires usual { IsPossible pair.now.naming.now.possible.items (by_code usual.now) }
    requires first { AreUsual pair.now.naming.now.possible.items usual.now }
    ensures { (old_allows new_allows : Allowance) (partners : List (Option ℕ))
        → IsNamingFor old_allows new_allows pair.now.old.now pair.now.new.now partners pair.now.naming.now
        → IfOk result (IsComparison old_allows new_allows pair.now.old.now pair.now.new.now partners) }
{
    let searched = search(alloc, pair, MAX_SITUATIONS)?;
    if searched.nodes.len() > MAX_SITUATIONS {
        return Ok(Comparison::NotKnown);
    }
    let changes = changes_of(alloc, pair, usual, &searched)?;
    Ok(Comparison::Known(changes))
}

/// Compares the decisions of two stacks under all answers that are known to be possible. A module of one stack and one of the
/// other that are matched answer alike, unless no code is possible for both. Returns `Memory` if allocation fails.
pub fn compare<K: Knowledge, L: Knowledge>(
    alloc: Global,
    old: &Program,
    new: &Program,
    matching: &Matching,
    old_known: &K,
    new_known: &L,
) -> Result<Comparison, Memory>
    ensures { IfOk result (IsComparison (K.allows old_known.now) (L.allows new_known.now) old.now new.now matching.now) }
{
    let sides = Sides {
        old,
        new,
        matching,
        old_known,
        new_known,
    };
    let naming = Naming::of(alloc, &sides)?;
    let Some(usual) = usual_codes(alloc, &naming)? else {
        return Ok(Comparison::Known(no_changes()));
    };
    let pair = Pair {
        old,
        new,
        naming: &naming,
    };
    compare_named(alloc, &pair, &usual)
}

//! The nodes that follow one.

ghost use Rattle.std.specs.Prelude.{◌≡◌, ◌+◌, ◌<◌, ℕ, IsTrue, OnOk, Some, length, slice_get, slice_index_or};
ghost use Rattle.pam_codes.specs.Code.{all_codes};
ghost use Rattle.pam_codes.specs.Set.{is_in};
ghost use Rattle.pam_dispatch.specs.Flat.{IsPlaceOf, rest_of};
ghost use Rattle.pam_dispatch.specs.Runs.{Assignment, asked_module};
ghost use Rattle.pam_compare.specs.declared.held.HeldAnswer.{HeldAnswer};
ghost use Rattle.pam_compare.specs.Held.{Holds};
ghost use Rattle.pam_compare.specs.inner.Naming.{IsPossible};
ghost use Rattle.pam_compare.specs.inner.Nodes.{AreHeldAt, AreNodes, IsFollowed, IsMet, KeepsNodes};
ghost use Rattle.pam_compare.specs.inner.Trails.{IsStep};
ghost use Rattle.pam_compare.specs.Walks.{IsClass, IsLeft, old_after, new_after, turn_name, turn_of};
ghost use Rattle.pam_compare.specs.inner.Turn.{IsTurn, first_of};
ghost use Rattle.pam_compare.specs.inner.Ways.{AreOrdered, AreReached, AreUnique, AreWalked, HasOneMore, IsFresh, IsNaming, IsWalkTo, IsWayTo};

use crate::held::{HeldAnswer, Step, held_after, held_codes};
use crate::naming::possible_at;
use crate::node::{Node, Pair, class_of, places_after};
use crate::nodes::{Nodes, Way};
use crate::turn::{Turn, turn_name};
use crate::usual::first_usual;
use pam_codes::CodeSet;
use pam_dispatch::Memory;
use std::alloc::Global;

/// A node, and whose turn it is there.
#[derive(Drop)]
pub(crate) struct Fork<'a> {
    pub(crate) node: &'a Node,
    pub(crate) turn: Turn,
    pub(crate) index: usize,
}

/// Adds the node that follows after a step.
fn follow(
    alloc: Global,
    pair: &Pair<'_>,
    nodes: &mut Nodes,
    fork: &Fork<'_>,
    way: Way,
) -> Result<(), Memory>
    requires old { IsPlaceOf pair.now.old.now fork.now.node.now.old }
    requires new { IsPlaceOf pair.now.new.now fork.now.node.now.new }
    requires nodes { AreNodes pair.now.old.now pair.now.new.now nodes.old }
    requires naming { IsNaming pair.now.old.now pair.now.new.now pair.now.naming.now }
    requires reached { AreReached pair.now.old.now pair.now.new.now pair.now.naming.now.names.items pair.now.naming.now.possible.items nodes.old }
    requires within { way.parent < length nodes.old.situations.keys }
    requires way { IsWayTo pair.now.old.now pair.now.new.now pair.now.naming.now.names.items pair.now.naming.now.possible.items nodes.old.ways.items way.parent
        (rest_of pair.now.old.now fork.now.node.now.old) (rest_of pair.now.new.now fork.now.node.now.new) fork.now.node.now.held.items }
    requires held { AreHeldAt nodes.old way.parent fork.now.node.now.held.items }
    requires step { IsStep pair.now.naming.now.names.items pair.now.naming.now.possible.items (rest_of pair.now.old.now fork.now.node.now.old)
        (rest_of pair.now.new.now fork.now.node.now.new) fork.now.node.now.held.items fork.now.turn way }
    requires walked { AreWalked pair.now.old.now pair.now.new.now pair.now.naming.now nodes.old }
    requires walk { IsWalkTo pair.now.old.now pair.now.new.now pair.now.naming.now nodes.old.ways.items way.parent
        (rest_of pair.now.old.now fork.now.node.now.old) (rest_of pair.now.new.now fork.now.node.now.new) fork.now.node.now.held.items }
    requires order { turn_of pair.now.naming.now.names.items (first_of pair.now.naming.now.ranks)
        (asked_module (rest_of pair.now.old.now fork.now.node.now.old)) (asked_module (rest_of pair.now.new.now fork.now.node.now.new)) ≡ Some fork.now.turn }
    requires unique { AreUnique nodes.old.ways.items }
    requires fresh { IsFresh nodes.old.ways.items way.parent way.class }
    requires class { IsClass pair.now.naming.now.names.items pair.now.naming.now.possible.items
        (rest_of pair.now.old.now fork.now.node.now.old) (rest_of pair.now.new.now fork.now.node.now.new)
        fork.now.node.now.held.items fork.now.turn way.code way.class }
    ensures keeps { OnOk result (KeepsNodes nodes.old nodes.new) }
    ensures unique { OnOk result (AreUnique nodes.new.ways.items) }
    ensures more { OnOk result (HasOneMore nodes.old.ways.items nodes.new.ways.items way) }
    ensures walked { OnOk result (AreWalked pair.now.old.now pair.now.new.now pair.now.naming.now nodes.new) }
    ensures nodes { OnOk result (AreNodes pair.now.old.now pair.now.new.now nodes.new) }
    ensures reached { OnOk result (AreReached pair.now.old.now pair.now.new.now pair.now.naming.now.names.items pair.now.naming.now.possible.items nodes.new) }
    ensures met { (a : Assignment) → ((name : ℕ) → a name < 31) → Holds a fork.now.node.now.held.items
        → IsTrue (is_in (a (turn_name pair.now.naming.now.names.items fork.now.turn)) way.class)
        → OnOk result (IsMet pair.now.old.now pair.now.new.now nodes.new a
        (old_after fork.now.turn (rest_of pair.now.old.now fork.now.node.now.old) (a (turn_name pair.now.naming.now.names.items fork.now.turn)))
        (new_after fork.now.turn (rest_of pair.now.new.now fork.now.node.now.new) (a (turn_name pair.now.naming.now.names.items fork.now.turn)))) }
{
    let (old, new) = places_after(pair, fork.node, fork.turn, way.code);
    let answer = HeldAnswer {
        name: way.name,
        codes: way.class,
    };
    let step = Step {
        turn: fork.turn,
        old: old.module(),
        new: new.module(),
    };
    let after = held_after(alloc, pair.naming, &fork.node.held, answer, step)?;
    nodes.add(&old, &new, &after, way)?;
    Ok(())
}

/// The codes that may be answered at a turn.
fn codes_at(pair: &Pair<'_>, fork: &Fork<'_>) -> CodeSet
    ensures kept { (a : Assignment) → IsPossible pair.now.naming.now.possible.items a → Holds a fork.now.node.now.held.items
        → IsTrue (is_in (a (turn_name pair.now.naming.now.names.items fork.now.turn)) result) }
    ensures within { (c : ℕ) → IsTrue (is_in c result)
        → IsTrue (is_in c (slice_index_or pair.now.naming.now.possible.items (turn_name pair.now.naming.now.names.items fork.now.turn) all_codes)) }
    ensures left { (i : ℕ) (h : HeldAnswer) → slice_get fork.now.node.now.held.items i ≡ Some h
        → h.name ≡ turn_name pair.now.naming.now.names.items fork.now.turn → (c : ℕ) → IsTrue (is_in c result) → IsTrue (is_in c h.codes) }
    ensures all { (c : ℕ) → c < 31
        → IsTrue (is_in c (slice_index_or pair.now.naming.now.possible.items (turn_name pair.now.naming.now.names.items fork.now.turn) all_codes))
        → IsLeft fork.now.node.now.held.items (turn_name pair.now.naming.now.names.items fork.now.turn) c → IsTrue (is_in c result) }
{
    let name = turn_name(pair.naming, fork.turn);
    held_codes(
        &fork.node.held,
        name,
        possible_at(&pair.naming.possible, name),
    )
}

/// Adds the nodes that follow, in the usual order of the answers.
pub(crate) fn expand(
    alloc: Global,
    pair: &Pair<'_>,
    nodes: &mut Nodes,
    fork: &Fork<'_>,
) -> Result<(), Memory>
    requires old { IsPlaceOf pair.now.old.now fork.now.node.now.old }
    requires new { IsPlaceOf pair.now.new.now fork.now.node.now.new }
    requires turn { IsTurn pair.now.naming.now.names.items (asked_module (rest_of pair.now.old.now fork.now.node.now.old))
        (asked_module (rest_of pair.now.new.now fork.now.node.now.new)) fork.now.turn }
    requires nodes { AreNodes pair.now.old.now pair.now.new.now nodes.old }
    requires naming { IsNaming pair.now.old.now pair.now.new.now pair.now.naming.now }
    requires reached { AreReached pair.now.old.now pair.now.new.now pair.now.naming.now.names.items pair.now.naming.now.possible.items nodes.old }
    requires within { fork.now.index < length nodes.old.situations.keys }
    requires way { IsWayTo pair.now.old.now pair.now.new.now pair.now.naming.now.names.items pair.now.naming.now.possible.items nodes.old.ways.items
        fork.now.index (rest_of pair.now.old.now fork.now.node.now.old) (rest_of pair.now.new.now fork.now.node.now.new) fork.now.node.now.held.items }
    requires held { AreHeldAt nodes.old fork.now.index fork.now.node.now.held.items }
    requires walked { AreWalked pair.now.old.now pair.now.new.now pair.now.naming.now nodes.old }
    requires ordered { AreOrdered nodes.old.ways.items fork.now.index }
    requires walk { IsWalkTo pair.now.old.now pair.now.new.now pair.now.naming.now nodes.old.ways.items fork.now.index
        (rest_of pair.now.old.now fork.now.node.now.old) (rest_of pair.now.new.now fork.now.node.now.new) fork.now.node.now.held.items }
    requires order { turn_of pair.now.naming.now.names.items (first_of pair.now.naming.now.ranks)
        (asked_module (rest_of pair.now.old.now fork.now.node.now.old)) (asked_module (rest_of pair.now.new.now fork.now.node.now.new)) ≡ Some fork.now.turn }
    ensures keeps { OnOk result (KeepsNodes nodes.old nodes.new) }
    ensures ordered { OnOk result (AreOrdered nodes.new.ways.items (fork.now.index + 1)) }
    ensures walked { OnOk result (AreWalked pair.now.old.now pair.now.new.now pair.now.naming.now nodes.new) }
    ensures nodes { OnOk result (AreNodes pair.now.old.now pair.now.new.now nodes.new) }
    ensures reached { OnOk result (AreReached pair.now.old.now pair.now.new.now pair.now.naming.now.names.items pair.now.naming.now.possible.items nodes.new) }
    ensures done { (a : Assignment) → IsPossible pair.now.naming.now.possible.items a → Holds a fork.now.node.now.held.items
        → OnOk result (IsFollowed pair.now.old.now pair.now.new.now pair.now.naming.now.names.items (first_of pair.now.naming.now.ranks) nodes.new a
        (rest_of pair.now.old.now fork.now.node.now.old) (rest_of pair.now.new.now fork.now.node.now.new)) }
{
    let name = turn_name(pair.naming, fork.turn);
    let mut left = codes_at(pair, fork);
    while let Some(code) = first_usual(left) {
        let class = class_of(pair, fork.node, fork.turn, code, left).intersection(left);
        let way = Way {
            parent: fork.index,
            name,
            code,
            class,
        };
        follow(alloc, pair, nodes, fork, way)?;
        left = left.without(class);
    }
    Ok(())
}

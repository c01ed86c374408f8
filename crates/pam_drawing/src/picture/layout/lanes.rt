//! The lanes of a picture: one for each state, from undef at the top over positive to negative.

ghost use Rattle.std.specs.Prelude.{◌≡◌, ℕ, ◌+◌, ◌^◌, ◌<◌, ◌≤◌, ◌&&◌, IfOk, OnOk, Some, map, slice_get, true};
ghost use Rattle.std.specs.List.{AllPairs};
ghost use Rattle.pam_codes.specs.Set.{is_in};
ghost use Rattle.pam_codes.specs.declared.code.TheConstants.{CODES};
ghost use Rattle.pam_dispatch.specs.Hashing.{same_state};
ghost use Rattle.pam_dispatch.specs.State.{state_with};
ghost use Rattle.pam_dispatch.specs.declared.state.State.{State};
ghost use Rattle.pam_drawing.specs.Drawing.{drawn_ends};
ghost use Rattle.pam_graph.specs.declared.node.Node.{Node};
ghost use Rattle.pam_drawing.specs.picture.Lanes.{IsNotAfter, end_state, has_state, own_state, rank};
ghost use Rattle.pam_drawing.specs.picture.inner.Laned.{AreFew, AreInOrder, HasRoom, IsLaneOfEnd, lanes_for, number_at, state_of};

use super::table::number_at;
use crate::drawn_ends;
use pam_codes::{CODES, Code, CodeSet};
use pam_dispatch::{Impression, State};
use pam_graph::{Graph, Node};
use std::alloc::{AllocError, Global};

/// The states of the lanes, from the top, and which lane each node and each end is in.
#[derive(Drop)]
pub(super) struct Lanes {
    pub states: Vec<State>,
    pub of_nodes: Vec<usize>,
    /// By code, also of ends that are not drawn.
    pub of_ends: Vec<usize>,
}

/// Returns how many nodes before this one ask the same module in the same state. Their entry states differ, so each has a
/// lane of its own.
fn twins_before(nodes: &[Node], index: usize) -> usize
    ensures { result ≤ index }
{
    let Some(node) = nodes.get(index) else {
        return 0;
    };
    let mut twins: usize = 0;
    for (earlier, other) in nodes.iter().enumerate() {
        if earlier < index
            && other.module_number == node.module_number
            && other.state == node.state
        {
            twins = twins.saturating_add(1);
        }
    }
    twins
}

fn all_twins(alloc: Global, nodes: &[Node]) -> Result<Vec<usize>, AllocError>
    ensures { IfOk result (λ twins. AreFew twins.items) }
{
    let mut twins = Vec::new(alloc);
    for index in 0..nodes.len() {
        twins.push(twins_before(nodes, index))?;
    }
    Ok(twins)
}

/// Whether two states are the same.
fn is_state(state: &State, other: &State) -> bool
    ensures { result ≡ same_state state.now other.now }
{
    state == other
}

/// Returns how many lanes are needed, with one for a node that has twins before it.
fn lanes_after(lanes: usize, twins: usize, needs_lane: bool) -> usize
    requires { twins + 1 < 2 ^ 64 }
    ensures kept { lanes ≤ result }
    ensures room { needs_lane ≡ true → twins < result }
{
    if needs_lane {
        lanes.max(twins + 1)
    } else {
        lanes
    }
}

/// Returns how many lanes the nodes in a state need.
fn lanes_of_state(nodes: &[Node], twins: &[usize], state: State) -> usize
    requires { AreFew twins.now }
    ensures { (index : ℕ) (node : Node) → slice_get nodes.now index ≡ Some node → node.state ≡ state → number_at twins.now index < result }
{
    let mut lanes = 0;
    for (index, node) in nodes.iter().enumerate() {
        let needs_lane = is_state(&node.state, &state);
        lanes = lanes_after(lanes, number_at(twins, index), needs_lane);
    }
    lanes
}

/// Whether some node is in the state with an impression and a status.
fn has_state(nodes: &[Node], impression: Impression, status: Code) -> bool
    ensures { result ≡ has_state nodes.now (state_with impression status) }
{
    let state = State { impression, status };
    for node in nodes {
        if is_state(&node.state, &state) {
            return true;
        }
    }
    false
}

fn state_with(impression: Impression, status: Code) -> State
    ensures { result ≡ state_with impression status }
{
    State { impression, status }
}

/// Returns the state of an end for which no node has a lane.
fn own_state(decision: Code) -> State
    ensures { result ≡ own_state decision }
{
    if decision == Code::SUCCESS {
        state_with(Impression::Positive, decision)
    } else {
        state_with(Impression::Negative, decision)
    }
}

/// Returns the state in whose lane the end with this decision is: one in which some node is, or else a state of its own.
fn state_of_end(nodes: &[Node], decision: Code) -> State
    ensures { result ≡ end_state nodes.now decision }
{
    if has_state(nodes, Impression::Positive, decision) {
        return state_with(Impression::Positive, decision);
    }
    if has_state(nodes, Impression::Negative, decision) {
        return state_with(Impression::Negative, decision);
    }
    if has_state(nodes, Impression::Undef, decision) {
        return state_with(Impression::Undef, decision);
    }
    own_state(decision)
}

/// Adds lanes for a state.
fn push_lanes(states: &mut Vec<State>, state: &State, lanes: usize) -> Result<(), AllocError>
    requires { AreInOrder (rank state.now + 1) states.old.items }
    ensures kept { OnOk result ((s : State) → lanes_for states.old.items s ≤ lanes_for states.new.items s) }
    ensures room { OnOk result (lanes ≤ lanes_for states.new.items state.now) }
    ensures order { OnOk result (AreInOrder (rank state.now + 1) states.new.items) }
{
    for lane in 0..lanes {
        states.push(*state)?;
    }
    Ok(())
}

/// Whether the end of a decision that is drawn is in the lane for a state.
fn has_end(nodes: &[Node], ends: CodeSet, state: &State) -> bool
    ensures { result ≡ (is_in state.now.status ends && same_state (end_state nodes.now state.now.status) state.now) }
{
    let own = state_of_end(nodes, state.status);
    ends.contains(state.status) && is_state(&own, state)
}

/// Returns how many lanes a state needs: those of its nodes, or one if it has only an end.
fn lanes_needed(nodes: &[Node], twins: &[usize], ends: CodeSet, state: State) -> usize
    requires { AreFew twins.now }
    ensures nodes { (index : ℕ) (node : Node) → slice_get nodes.now index ≡ Some node → node.state ≡ state → number_at twins.now index < result }
    ensures end { is_in state.status ends ≡ true → end_state nodes.now state.status ≡ state → 0 < result }
{
    let needs_lane = has_end(nodes, ends, &state);
    lanes_after(lanes_of_state(nodes, twins, state), 0, needs_lane)
}

/// Adds the lanes of the nodes and ends that are in a state.
fn add_lanes(
    states: &mut Vec<State>,
    nodes: &[Node],
    twins: &[usize],
    ends: CodeSet,
    state: State,
) -> Result<(), AllocError>
    requires few { AreFew twins.now }
    requires order { AreInOrder (rank state + 1) states.old.items }
    ensures kept { OnOk result ((s : State) → lanes_for states.old.items s ≤ lanes_for states.new.items s) }
    ensures room { OnOk result (HasRoom nodes.now twins.now ends states.new.items state) }
    ensures order { OnOk result (AreInOrder (rank state + 1) states.new.items) }
{
    let lanes = lanes_needed(nodes, twins, ends, state);
    push_lanes(states, &state, lanes)
}

/// Adds the lanes of the nodes and ends that are in the state with an impression and a status, by its number.
fn add_lanes_at(
    states: &mut Vec<State>,
    nodes: &[Node],
    twins: &[usize],
    ends: CodeSet,
    impression: Impression,
    number: u8,
) -> Result<(), AllocError>
    requires few { AreFew twins.now }
    requires number { number < CODES }
    requires order { AreInOrder (rank (state_with impression number) + 1) states.old.items }
    ensures kept { OnOk result ((s : State) → lanes_for states.old.items s ≤ lanes_for states.new.items s) }
    ensures room { OnOk result (HasRoom nodes.now twins.now ends states.new.items (state_with impression number)) }
    ensures order { OnOk result (AreInOrder (rank (state_with impression number) + 1) states.new.items) }
{
    match Code::new(number) {
        Some(status) => add_lanes(states, nodes, twins, ends, State { impression, status }),
        None => Ok(()),
    }
}

/// Adds the lanes of the nodes and ends that are in a state with an impression.
fn add_lanes_with(
    states: &mut Vec<State>,
    nodes: &[Node],
    twins: &[usize],
    ends: CodeSet,
    impression: Impression,
) -> Result<(), AllocError>
    requires few { AreFew twins.now }
    requires order { AreInOrder (rank (state_with impression 0)) states.old.items }
    ensures kept { OnOk result ((s : State) → lanes_for states.old.items s ≤ lanes_for states.new.items s) }
    ensures room { OnOk result ((number : ℕ) → number < CODES → HasRoom nodes.now twins.now ends states.new.items (state_with impression number)) }
    ensures order { OnOk result (AreInOrder (rank (state_with impression CODES)) states.new.items) }
{
    for number in 0..CODES as u8 {
        add_lanes_at(states, nodes, twins, ends, impression, number)?;
    }
    Ok(())
}

fn states_of_lanes(alloc: Global, graph: &Graph, twins: &[usize]) -> Result<Vec<State>, AllocError>
    requires { AreFew twins.now }
    ensures room { IfOk result (λ states. (s : State) → s.status < CODES → HasRoom graph.now.nodes twins.now (drawn_ends graph.now) states.items s) }
    ensures order { IfOk result (λ states. AllPairs IsNotAfter states.items) }
{
    let ends = drawn_ends(graph);
    let nodes = graph.nodes();
    let mut states = Vec::new(alloc);
    add_lanes_with(&mut states, nodes, twins, ends, Impression::Undef)?;
    add_lanes_with(&mut states, nodes, twins, ends, Impression::Positive)?;
    add_lanes_with(&mut states, nodes, twins, ends, Impression::Negative)?;
    Ok(states)
}

/// Returns the lane for a state that comes after as many others for it; 0 if there is none.
fn lane_of(states: &[State], state: State, others: usize) -> usize
    ensures lane { others < lanes_for states.now state → slice_get states.now result ≡ Some state }
    ensures status { state.status < CODES }
{
    let mut left = others;
    for (lane, other) in states.iter().enumerate() {
        if is_state(&state, other) {
            if left == 0 {
                return lane;
            }
            left -= 1;
        }
    }
    0
}

fn lanes_of_nodes(
    alloc: Global,
    nodes: &[Node],
    twins: &[usize],
    states: &[State],
) -> Result<Vec<usize>, AllocError>
    requires { (s : State) (index : ℕ) (node : Node) → s.status < CODES → slice_get nodes.now index ≡ Some node → node.state ≡ s
        → number_at twins.now index < lanes_for states.now s }
    ensures { IfOk result (λ lanes. map (slice_get states.now) lanes.items ≡ map state_of nodes.now) }
{
    let mut lanes = Vec::new(alloc);
    for (index, node) in nodes.iter().enumerate() {
        lanes.push(lane_of(states, node.state, number_at(twins, index)))?;
    }
    Ok(lanes)
}

/// Returns the lane of the end with a decision, by its number.
fn lane_of_end(nodes: &[Node], states: &[State], number: u8) -> usize
    requires { number < CODES }
    ensures { IsLaneOfEnd nodes.now states.now number result }
{
    match Code::new(number) {
        Some(decision) => lane_of(states, state_of_end(nodes, decision), 0),
        None => 0,
    }
}

fn lanes_of_ends(alloc: Global, nodes: &[Node], states: &[State]) -> Result<Vec<usize>, AllocError>
    ensures { IfOk result (λ lanes. (decision : ℕ) → decision < CODES → IsLaneOfEnd nodes.now states.now decision (number_at lanes.items decision)) }
{
    let mut lanes = Vec::new(alloc);
    for number in 0..CODES as u8 {
        lanes.push(lane_of_end(nodes, states, number))?;
    }
    Ok(lanes)
}

impl Lanes {
    ghost use Rattle.std.specs.Prelude.{IfOk};
    ghost use Rattle.pam_drawing.specs.picture.inner.Laned.{AreLanesOf};

    pub fn of(alloc: Global, graph: &Graph) -> Result<Lanes, AllocError>
        ensures { IfOk result (AreLanesOf graph.now) }
    {
        let nodes = graph.nodes();
        let twins = all_twins(alloc, nodes)?;
        let states = states_of_lanes(alloc, graph, &twins)?;
        let of_nodes = lanes_of_nodes(alloc, nodes, &twins, &states)?;
        let of_ends = lanes_of_ends(alloc, nodes, &states)?;
        Ok(Lanes {
            states,
            of_nodes,
            of_ends,
        })
    }
}

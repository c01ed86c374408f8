//! Builds the graph of the runs of a program.

ghost use Rattle.std.specs.Prelude.{◌≡◌, ◌∷◌, ◌++◌, ◌≤◌, ◌<◌, ℕ, [], IfErr, IfNone, IfOk, IfSome, IsSome, List, OnOk, Some, length, slice_get};
ghost use Rattle.pam_conf.specs.Stack.{Items};
ghost use Rattle.pam_conf.specs.declared.stack.TheConstants.{MAX_MODULES};
ghost use Rattle.pam_dispatch.specs.declared.flat_item.FlatItem.{FlatItem};
ghost use Rattle.pam_dispatch.specs.Flat.{IsPlaceOf, modules_of, rest_of, runs_of};
ghost use Rattle.pam_dispatch.specs.Keys.{AreDifferent, DiffersFrom, KeyValue, rest_at};
ghost use Rattle.pam_dispatch.specs.Representatives.{AreEqualRests};
ghost use Rattle.pam_dispatch.specs.Runs.{AsksRise, asked_module};
ghost use Rattle.pam_dispatch.specs.Tree.{runs_of_stack};
ghost use Rattle.pam_graph.specs.declared.node.Target.TheVariants.{At};
ghost use Rattle.pam_graph.specs.declared.error.GraphError.TheVariants.{TooManyNodes};
ghost use Rattle.pam_graph.specs.declared.graph.TheConstants.{MAX_NODES};
ghost use Rattle.pam_graph.specs.inner.Building.{Continues, IsDraft};
ghost use Rattle.pam_graph.specs.Places.{AreEdgesOf, AreNodesOf};
ghost use Rattle.pam_graph.specs.Reached.{IsReached, IsReason, node_key};
ghost use Rattle.pam_graph.specs.Walks.{walks};
ghost use Rattle.pam_paths.specs.Listing.{Allowance, IsListing};
ghost use Rattle.pam_paths.specs.Paths.{path_of, path_through};

use crate::caches::{fork_at, new_caches};
use crate::error::GraphError;
use crate::graph::{Graph, MAX_NODES};
use crate::last_nodes::LastNodes;
use crate::node::{Edge, Node, Target};
use pam_dispatch::{Place, PlaceTable, Program};
use pam_paths::{ClassCache, Knowledge};
use std::alloc::{AllocError, Global};

/// A graph while it is built.
#[derive(Drop)]
pub(crate) struct Draft {
    pub(crate) nodes: Vec<Node>,
    /// The place of each node, by the key of its representative.
    pub(crate) places: PlaceTable,
    /// The classes computed last for each module.
    pub(crate) caches: Vec<ClassCache>,
    pub(crate) last_nodes: LastNodes,
}

impl Draft {
    /// A draft with no nodes, for a program with this number of modules.
    // Apart from its caller, which would else own each part while the next one is allocated: that takes longer to prove.
    fn new(alloc: Global, modules: usize) -> Result<Draft, AllocError>
        ensures { (limit : ℕ) (allows : Allowance) (program : List FlatItem) → IfOk result (IsDraft limit allows program) }
    {
        Ok(Draft {
            nodes: Vec::new(alloc),
            places: PlaceTable::new(alloc),
            caches: new_caches(alloc)?,
            last_nodes: LastNodes::new(alloc, modules)?,
        })
    }
}

/// The index of the node for `place`, at which the module with this number is asked.
#[inline(always)]
fn find(
    program: &Program,
    places: &PlaceTable,
    last_nodes: &mut LastNodes,
    place: &Place,
    module_number: usize,
) -> Option<usize>
    ensures found { IfSome result (λ index. slice_get places.now index ≡ Some (node_key program.now place.now)) }
    ensures none { IfNone result (DiffersFrom (node_key program.now place.now) places.now) }
    ensures rests { AreEqualRests (rest_at program.now (node_key program.now place.now)) (rest_of program.now place.now) }
{
    let state = place.state();
    let last = last_nodes.get(module_number, &state);
    let found = places.find_at(program, place, last)?;
    if found != last {
        last_nodes.set(module_number, &state, u32::try_from(found).unwrap_or(0));
    }
    Some(found)
}

/// Adds a node for `place`, if there are fewer than `limit`.
#[inline(never)]
fn add(
    limit: u32,
    program: &Program,
    draft: &mut Draft,
    place: &Place,
    node: Node,
) -> Result<Target, GraphError>
    requires same { length draft.old.nodes.items ≡ length draft.old.places }
    requires new { DiffersFrom (node_key program.now place.now) draft.old.places }
    ensures target { IfOk result (λ target. target ≡ At (length draft.old.nodes.items)) }
    ensures node { OnOk result (draft.new.nodes.items ≡ draft.old.nodes.items ++ node ∷ []) }
    ensures place { OnOk result (draft.new.places ≡ draft.old.places ++ node_key program.now place.now ∷ []) }
    ensures caches { draft.new.caches.items ≡ draft.old.caches.items }
    ensures fits { OnOk result (length draft.new.places ≤ limit) }
    ensures many { IfErr result (λ e. e ≡ TooManyNodes → (keys : List KeyValue) × (keys ≡ draft.old.places ++ node_key program.now place.now ∷ [])
        × (limit < length keys) × AreDifferent keys) }
{
    draft.places.push(program.key_at(place))?;
    if draft.places.len() > limit as usize {
        return Err(GraphError::TooManyNodes);
    }
    let index = draft.nodes.len() as u32;
    draft.last_nodes.set(node.module_number, &node.state, index);
    draft.nodes.push(node)?;
    Ok(Target::At(index))
}

/// What a graph is built of: the runs of a program that a knowledge allows, in at most `limit` nodes.
#[derive(Drop)]
struct Builder<'a, K: Knowledge> {
    alloc: Global,
    program: &'a Program,
    knowledge: &'a K,
    limit: u32,
}

impl<K: Knowledge> Builder<'_, K> {
    /// Where a run that has come to `place` continues: a node, added after all that it leads to if it is not there yet, or an
    /// end.
    // Inlined into the loop below, since most edges lead to a node that is there.
    #[cycle(building)]
    #[inline(always)]
    fn target_of(&self, place: &Place, draft: &mut Draft) -> Result<Target, GraphError>
        requires few { modules_of self.now.program.now ≤ MAX_MODULES }
        requires place { IsPlaceOf self.now.program.now place.now }
        requires rise { AsksRise 0 (modules_of self.now.program.now) (rest_of self.now.program.now place.now) }
        requires reached { IsReached (K.allows self.now.knowledge.now) self.now.program.now place.now }
        requires draft { IsDraft self.now.limit (K.allows self.now.knowledge.now) self.now.program.now draft.old }
        ensures draft { OnOk result (IsDraft self.now.limit (K.allows self.now.knowledge.now) self.now.program.now draft.new) }
        ensures continues { IfOk result (Continues (K.allows self.now.knowledge.now) self.now.program.now place.now draft.old draft.new) }
        ensures reason { IfErr result (IsReason self.now.limit (K.allows self.now.knowledge.now) self.now.program.now) }
    {
        let Some(module_number) = place.module() else {
            return Ok(Target::End(self.program.decision(place).code()));
        };
        if let Some(index) = find(
            self.program,
            &draft.places,
            &mut draft.last_nodes,
            place,
            module_number,
        ) {
            // The limit says that a node's index fits.
            let _limit = self.limit;
            return Ok(Target::At(index as u32));
        }
        self.node_at(place, draft)
    }

    /// Adds the node for `place`, after all that it leads to.
    // It calls itself once for each module of a path, so its frame is small and what else it calls is not inlined.
    #[cycle(building)]
    #[inline(never)]
    fn node_at(&self, place: &Place, draft: &mut Draft) -> Result<Target, GraphError>
        requires few { modules_of self.now.program.now ≤ MAX_MODULES }
        requires place { IsPlaceOf self.now.program.now place.now }
        requires rise { AsksRise 0 (modules_of self.now.program.now) (rest_of self.now.program.now place.now) }
        requires reached { IsReached (K.allows self.now.knowledge.now) self.now.program.now place.now }
        requires draft { IsDraft self.now.limit (K.allows self.now.knowledge.now) self.now.program.now draft.old }
        requires asking { IsSome (asked_module (rest_of self.now.program.now place.now)) }
        requires rests { AreEqualRests (rest_at self.now.program.now (node_key self.now.program.now place.now)) (rest_of self.now.program.now place.now) }
        requires new { DiffersFrom (node_key self.now.program.now place.now) draft.old.places }
        ensures draft { OnOk result (IsDraft self.now.limit (K.allows self.now.knowledge.now) self.now.program.now draft.new) }
        ensures continues { IfOk result (Continues (K.allows self.now.knowledge.now) self.now.program.now place.now draft.old draft.new) }
        ensures reason { IfErr result (IsReason self.now.limit (K.allows self.now.knowledge.now) self.now.program.now) }
    {
        let Some(module_number) = place.module() else {
            unreachable!()
        };
        let fork = fork_at(
            self.program,
            self.knowledge,
            &mut draft.caches,
            place,
            module_number,
        );
        let mut edges = Vec::with_capacity(self.alloc, fork.choices())?;
        let mut bound = 0;
        while let Some(choice) = fork.choice(self.program, bound) {
            let target = self.target_of(&choice.place, draft)?;
            edges.push(Edge {
                class: choice.class,
                target,
            })?;
            bound = choice.next;
        }
        let state = place.state();
        let node = Node {
            module_number,
            state,
            edges,
        };
        add(self.limit, self.program, draft, place, node)
    }
}

impl Graph {
    /// The graph of the runs that a knowledge allows. Returns `TooManyNodes` if the runs come to more places than `MAX_NODES`,
    /// and `Memory` if allocation fails.
    pub fn of<K: Knowledge>(
        alloc: Global,
        program: &Program,
        knowledge: &K,
    ) -> Result<Graph, GraphError>
        ensures listing { IfOk result (λ graph.
            IsListing (K.allows knowledge.now) (modules_of program.now) (path_of (runs_of program.now)) (walks graph)) }

        // The same for the tree of the program's stack.
        ensures stack { (items : Items) → runs_of program.now ≡ runs_of_stack items → IfOk result (λ graph.
            IsListing (K.allows knowledge.now) (modules_of program.now) (path_through items) (walks graph)) }
        ensures nodes { IfOk result (λ graph. AreNodesOf (K.allows knowledge.now) program.now graph.nodes) }
        ensures edges { IfOk result (AreEdgesOf (K.allows knowledge.now) program.now) }
        ensures few { IfOk result (λ graph. length graph.nodes ≤ MAX_NODES) }
        ensures reason { IfErr result (IsReason MAX_NODES (K.allows knowledge.now) program.now) }
    {
        let mut draft = Draft::new(alloc, program.modules())?;
        let builder = Builder {
            alloc,
            program,
            knowledge,
            limit: MAX_NODES,
        };
        let first = program.first();
        let start = builder.target_of(&first, &mut draft)?;
        // A table says with its length that its places differ.
        let _count = draft.places.len();
        Ok(Graph {
            nodes: draft.nodes,
            start,
        })
    }
}

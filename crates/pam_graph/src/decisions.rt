//! The decisions of the walks of a graph: how many come to each, and the first.

ghost use Rattle.std.specs.Prelude.{◌≡◌, ◌≢◌, ◌<◌, [], ◌∷◌, IfNone, IfOk, IfSome, List, None, Some, ℕ, length, map, slice_get};
ghost use Rattle.std.specs.List.{flat_map};
ghost use Rattle.std.specs.Option.{option_map};
ghost use Rattle.pam_codes.specs.declared.code.TheConstants.{CODES};
ghost use Rattle.pam_graph.specs.inner.Deciding.{decided_of, first_deciding, leads_to, with_edges, with_target};
ghost use Rattle.pam_graph.specs.Goals.{decided, fit, meeting};
ghost use Rattle.pam_graph.specs.Order.{AreAbove, AreNodes, IsAbove, IsStart};
ghost use Rattle.pam_graph.specs.Walks.{walks, walks_by, walks_of, walks_to};
ghost use Rattle.pam_graph.specs.inner.Within.{AreWithin, IsWithin};
ghost use Rattle.pam_graph.specs.declared.goal.Goal.TheVariants.{Decides};
ghost use Rattle.pam_paths.specs.Computed.{after_step};
ghost use Rattle.pam_paths.specs.Paths.{PathValue};

use crate::graph::Graph;
use crate::node::{Edge, Node, Target};
use crate::tally::sum_of;
use crate::ways::counts_of;
use pam_codes::{Code, CodeSet};
use pam_paths::Path;
use std::alloc::{AllocError, Global};
use std::marker::Model;

/// What the walks of a graph decide.
#[derive(Drop)]
pub struct Decisions<'a> {
    graph: &'a Graph,
    /// The codes that the walks from each node on decide.
    known: Vec<CodeSet>,
    /// The number of the walks that decide each code; `None` is a number that does not fit.
    counts: Vec<Option<u128>>,
}

/// Contracts see the walks of the graph.
impl<'a> Model for Decisions<'a> {
    ghost use Rattle.pam_graph.specs.inner.Accounts.{AreCounts};
    ghost use Rattle.pam_graph.specs.inner.Deciding.{decided_of};
    ghost use Rattle.pam_graph.specs.Walks.{walks};
    ghost use Rattle.pam_paths.specs.Paths.{PathValue};
    ghost use Rattle.std.specs.Prelude.{◌≡◌, List};

    ghost Value = { List PathValue };

    ghost view = { λ d. walks d.graph.now };

    ghost invariant = { λ d. (d.known.items ≡ decided_of d.graph.now.nodes) × AreCounts d.counts.items (walks d.graph.now) };
}

/// Adds to `codes` those that the walks from `target` on decide.
fn with_target(codes: CodeSet, known: &[CodeSet], target: &Target) -> CodeSet
    requires { IsWithin (length known.now) target.now }
    ensures { result ≡ with_target known.now codes target.now }
{
    match target {
        Target::At(index) => codes.union(known[*index as usize]),
        Target::End(decision) => {
            let mut more = codes;
            more.insert(*decision);
            more
        }
    }
}

/// The codes that the walks by one of `edges` decide.
fn decided_by(known: &[CodeSet], edges: &[Edge]) -> CodeSet
    requires { AreWithin (length known.now) edges.now }
    ensures { result ≡ with_edges known.now [] edges.now }
{
    let mut codes = CodeSet::empty();
    for edge in edges {
        codes = with_target(codes, known, &edge.target);
    }
    codes
}

/// The codes that the walks from each node on decide.
fn decided_of(alloc: Global, nodes: &[Node]) -> Result<Vec<CodeSet>, AllocError>
    requires { AreNodes [] nodes.now }
    ensures { IfOk result (λ known. known.items ≡ decided_of nodes.now) }
{
    let mut known = Vec::new(alloc);
    for node in nodes {
        let codes = decided_by(&known, &node.edges);
        known.push(codes)?;
    }
    Ok(known)
}

/// Whether a walk from `target` on decides `code`.
fn leads_to(known: &[CodeSet], code: Code, target: &Target) -> bool
    requires { IsWithin (length known.now) target.now }
    ensures leads { result ≡ leads_to known.now code target.now }
    ensures code { code < CODES }
{
    // A code says with its number that it is one of these.
    let _number = code.number();
    match target {
        Target::At(index) => known[*index as usize].contains(code),
        Target::End(decision) => code == *decision,
    }
}

/// The first of `edges` by which a walk begins that decides `code`.
fn edge_to(known: &[CodeSet], code: Code, edges: &[Edge]) -> Option<Edge>
    requires { AreWithin (length known.now) edges.now }
    ensures none { (walks : List (List PathValue)) (number : ℕ) → known.now ≡ map decided walks
        → IfNone result (first_deciding code (flat_map (walks_by walks number) edges.now) ≡ None) }
    ensures some { (walks : List (List PathValue)) (number : ℕ) → known.now ≡ map decided walks
        → IfSome result (λ edge. first_deciding code (flat_map (walks_by walks number) edges.now)
        ≡ option_map (after_step (record { module_number = number; class = edge.class })) (first_deciding code (walks_to walks edge.target))) }
    ensures leads { (walks : List (List PathValue)) → known.now ≡ map decided walks
        → IfSome result (λ edge. first_deciding code (walks_to walks edge.target) ≢ None) }
    ensures above { (numbers : List ℕ) (low : ℕ) → AreAbove numbers low edges.now → IfSome result (λ edge. IsAbove numbers low edge.target) }
{
    for edge in edges {
        if leads_to(known, code, &edge.target) {
            return Some(*edge);
        }
    }
    None
}

/// The first walk from `start` on that decides `code`.
fn first_from(nodes: &[Node], known: &[CodeSet], code: Code, start: Target) -> Path
    requires order { AreNodes [] nodes.now }
    requires known { known.now ≡ decided_of nodes.now }
    requires start { IsStart nodes.now start }
    requires leads { first_deciding code (walks_to (walks_of nodes.now) start) ≢ None }
    ensures { first_deciding code (walks_to (walks_of nodes.now) start) ≡ Some result }
{
    let mut path = Path::new();
    let mut target = start;
    loop {
        match target {
            Target::End(decision) => {
                path.decide(decision);
                return path;
            }
            Target::At(index) => {
                let node = &nodes[index as usize];
                let Some(edge) = edge_to(known, code, &node.edges) else {
                    unreachable!()
                };
                path.push(node.module_number, edge.class);
                target = edge.target;
            }
        }
    }
}

impl Graph {
    /// What the walks decide.
    pub fn decisions(&self, alloc: Global) -> Result<Decisions<'_>, AllocError>
        ensures { IfOk result (λ decisions. decisions ≡ walks self.now) }
    {
        let known = decided_of(alloc, &self.nodes)?;
        let counts = counts_of(alloc, &self.nodes, &self.start)?;
        Ok(Decisions {
            graph: self,
            known,
            counts,
        })
    }
}

impl Decisions<'_> {
    /// The codes that some walk decides.
    pub fn codes(&self) -> CodeSet
        ensures { result ≡ decided self.now }
    {
        let start = self.graph.start();
        with_target(CodeSet::empty(), &self.known, &start)
    }

    /// The first walk that decides `code`, if there is one.
    pub fn first(&self, code: Code) -> Option<Path>
        ensures { result ≡ slice_get (meeting (Decides (code ∷ [])) self.now) 0 }
    {
        let start = self.graph.start();
        if leads_to(&self.known, code, &start) {
            return Some(first_from(self.graph.nodes(), &self.known, code, start));
        }
        None
    }

    /// The number of the walks that decide `code`; `None` if it is 2^128 or more.
    pub fn count(&self, code: Code) -> Option<u128>
        ensures { result ≡ fit (length (meeting (Decides (code ∷ [])) self.now)) }
    {
        self.counts[usize::from(code.number())]
    }

    /// The number of all walks; `None` if it is 2^128 or more.
    pub fn total(&self) -> Option<u128>
        ensures { result ≡ fit (length self.now) }
    {
        sum_of(&self.counts)
    }
}

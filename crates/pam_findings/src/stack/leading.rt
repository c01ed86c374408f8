//! Which module is asked after which: whether some run asks a module, gets one of some answers from it, and then asks another module.

ghost use Rattle.std.specs.Prelude.{◌≡◌, IfOk};
ghost use Rattle.std.specs.List.{list_any};
ghost use Rattle.pam_conf.specs.Stack.{module_count};
ghost use Rattle.pam_graph.specs.Walks.{walks};
ghost use Rattle.pam_paths.specs.Known.{may_answer};
ghost use Rattle.pam_paths.specs.Listing.{IsListing};
ghost use Rattle.pam_paths.specs.Paths.{path_through};
ghost use Rattle.pam_findings.specs.stack.inner.Leading.{SaysLeads, codes_of, edge_asks, edge_goes_on, edge_leads, have_common};
ghost use Rattle.pam_findings.specs.stack.inner.Leading.{node_onward, onward_at, onwards};

use crate::stack::marks::{Marks, is_marked};
use pam_codes::CodeSet;
use pam_conf::Stack;
use pam_graph::{Edge, Graph, Node, Target};
use pam_paths::{Knowledge, Known};
use std::alloc::{AllocError, Global};

/// Which runs are sought: those that ask one of the first modules, which gives one of the codes, and then one of the later modules.
#[derive(Clone, Copy)]
pub(crate) struct Sought<'s> {
    pub first: &'s Marks,
    pub codes: CodeSet,
    pub later: &'s Marks,
}

/// What the walks from a place on come to.
#[derive(Clone, Copy)]
pub(crate) struct Onward {
    /// Whether there is one.
    pub goes_on: bool,
    /// Whether some walk asks a later module.
    pub asks: bool,
    /// Whether some walk asks a first module, which gives one of the codes, and then a later one.
    pub leads: bool,
}

/// Whether one of these codes is one of the others.
fn have_common(one: CodeSet, other: CodeSet) -> bool
    ensures { result ≡ have_common one other }
{
    one.meets(other)
}

/// What the walks from `target` on come to; `known` says it of the walks from each node on.
fn onward_at(known: &[Onward], target: &Target) -> Onward
    ensures { result ≡ onward_at known.now target.now }
{
    match target {
        Target::At(index) => match known.get(*index as usize) {
            Some(onward) => *onward,
            None => Onward {
                goes_on: false,
                asks: false,
                leads: false,
            },
        },
        Target::End(_) => Onward {
            goes_on: true,
            asks: false,
            leads: false,
        },
    }
}

/// Whether some walk begins with one of `edges`.
fn some_goes_on(known: &[Onward], edges: &[Edge]) -> bool
    ensures { result ≡ list_any (edge_goes_on known.now) edges.now }
{
    edges
        .iter()
        .any(|edge| onward_at(known, &edge.target).goes_on)
}

/// Whether some walk by an edge asks a later module, as that of its own node may be.
fn edge_asks(known: &[Onward], is_later: bool, edge: &Edge) -> bool
    ensures { result ≡ edge_asks known.now is_later edge.now }
{
    let onward = onward_at(known, &edge.target);
    is_later && onward.goes_on || onward.asks
}

/// Whether it is so at one of `edges`.
fn some_asks(known: &[Onward], is_later: bool, edges: &[Edge]) -> bool
    ensures { result ≡ list_any (edge_asks known.now is_later) edges.now }
{
    edges.iter().any(|edge| edge_asks(known, is_later, edge))
}

/// Whether some walk by an edge asks a first module, as that of its own node may be, which gives one of the codes, and then a later
/// one.
fn edge_leads(known: &[Onward], is_first: bool, codes: CodeSet, edge: &Edge) -> bool
    ensures { result ≡ edge_leads known.now is_first codes edge.now }
{
    let onward = onward_at(known, &edge.target);
    is_first && (have_common(edge.class, codes) && onward.asks) || onward.leads
}

/// Whether it is so at one of `edges`.
fn some_leads(known: &[Onward], is_first: bool, codes: CodeSet, edges: &[Edge]) -> bool
    ensures { result ≡ list_any (edge_leads known.now is_first codes) edges.now }
{
    edges
        .iter()
        .any(|edge| edge_leads(known, is_first, codes, edge))
}

/// The codes that the module with this number may answer, of these.
fn codes_of(answers: &Known, codes: CodeSet, number: usize) -> CodeSet
    ensures { result ≡ codes_of (may_answer answers.now) codes number }
{
    codes.intersection(answers.allowed(number))
}

/// What the walks from a node on come to.
fn node_onward(sought: &Sought<'_>, answers: &Known, known: &[Onward], node: &Node) -> Onward
    ensures { result ≡ node_onward (may_answer answers.now) sought.now.first.now sought.now.codes sought.now.later.now known.now node.now }
{
    let number = node.module_number;
    let codes = codes_of(answers, sought.codes, number);
    Onward {
        goes_on: some_goes_on(known, &node.edges),
        asks: some_asks(known, is_marked(sought.later, number), &node.edges),
        leads: some_leads(known, is_marked(sought.first, number), codes, &node.edges),
    }
}

/// What the walks from each node on come to.
fn onwards(
    alloc: Global,
    sought: &Sought<'_>,
    answers: &Known,
    nodes: &[Node],
) -> Result<Vec<Onward>, AllocError>
    ensures { IfOk result (λ known. known.items ≡ onwards (may_answer answers.now) sought.now.first.now sought.now.codes sought.now.later.now nodes.now) }
{
    let mut known = Vec::with_capacity(alloc, nodes.len())?;
    for node in nodes {
        let onward = node_onward(sought, answers, &known, node);
        known.push(onward)?;
    }
    Ok(known)
}

/// Whether some run is sought, of those of a stack that `answers` allows, which `graph` has.
pub(crate) fn leads(
    alloc: Global,
    stack: &Stack,
    answers: &Known,
    graph: &Graph,
    sought: &Sought<'_>,
) -> Result<bool, AllocError>
    requires { IsListing (may_answer answers.now) (module_count stack.now) (path_through stack.now) (walks graph.now) }
    ensures { IfOk result (SaysLeads (may_answer answers.now) stack.now sought.now.first.now sought.now.codes sought.now.later.now) }
{
    // The items say that the modules are numbered in order, and so asked in order.
    let _items = stack.items();
    let known = onwards(alloc, sought, answers, graph.nodes())?;
    Ok(onward_at(&known, &graph.start()).leads)
}

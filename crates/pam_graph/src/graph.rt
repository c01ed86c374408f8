//! Graphs of runs.

use crate::node::{Node, Target};
use std::marker::Model;

/// The most nodes that a graph may have.
pub const MAX_NODES: u32 = 65_536;

/// The graph of all runs of a stack.
#[derive(Drop)]
pub struct Graph {
    /// Each after those to which its edges lead.
    pub(crate) nodes: Vec<Node>,
    pub(crate) start: Target,
}

impl Model for Graph {
    ghost use Rattle.pam_graph.specs.Order.{AreNodes, IsStart};
    ghost use Rattle.pam_graph.specs.Walks.{GraphValue};
    ghost use Rattle.std.specs.Prelude.{[]};

    ghost Value = { GraphValue };

    ghost view = { λ g. record { nodes = g.nodes.items; start = g.start } };

    ghost invariant = { λ g. AreNodes [] g.nodes.items × IsStart g.nodes.items g.start };
}

impl Graph {
    ghost use Rattle.std.specs.Prelude.{◌≡◌, []};
    ghost use Rattle.pam_graph.specs.Order.{AreNodes, IsStart};

    /// The nodes, each after those to which its edges lead.
    pub fn nodes(&self) -> &[Node]
        ensures nodes { result.now ≡ self.now.nodes }
        ensures order { AreNodes [] self.now.nodes }
    {
        &self.nodes
    }

    /// Where a run begins.
    pub fn start(&self) -> Target
        ensures start { result ≡ self.now.start }
        ensures order { IsStart self.now.nodes result }
    {
        self.start
    }
}

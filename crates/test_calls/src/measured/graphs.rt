//! Makes the graph of one stack, and follows its walks.

use anyhow::Error;
use pam_codes::{Code, CodeSet};
use pam_dispatch::Program;
use pam_graph::{Goal, Graph};
use pam_paths::Free;
use std::alloc::Global;

/// The number of decisions, which are counted and whose first walks are found.
fn decided(alloc: Global, graph: &Graph) -> Result<usize, Error> {
    let decisions = graph.decisions(alloc)?;
    Ok(decisions.codes().len())
}

/// The numbers of walks followed, and of steps on them.
#[derive(Clone, Copy, Debug, Default)]
struct Followed {
    walks: u64,
    steps: u64,
}

/// Follows the walks to decisions other than success, up to `limit`.
fn follow(alloc: Global, graph: &Graph, limit: u64) -> Result<Followed, Error> {
    let failures = CodeSet::all().without(CodeSet::single(Code::SUCCESS));
    let mut walks = graph.walks(alloc, Goal::Decides(failures))?;
    let mut followed = Followed::default();
    for _ in 0..limit {
        if walks.follow().is_none() {
            break;
        }
        followed.walks = followed.walks.saturating_add(1);
        followed.steps = followed
            .steps
            .saturating_add(walks.path().steps().len() as u64);
    }
    Ok(followed)
}

/// Prints the number of nodes and of decisions, which are counted, and of up to `limit` walks that are followed.
pub(crate) fn measure(rt: &HostRuntime, limit: u64, program: &Program) -> Result<(), Error> {
    let alloc = rt.alloc();
    let graph = Graph::of(alloc, program, &Free)?;
    let decisions = decided(alloc, &graph)?;
    let followed = follow(alloc, &graph, limit)?;
    println!(rt;
        "{} nodes, {} decisions, {} walks followed, {} steps",
        graph.nodes().len(),
        decisions,
        followed.walks,
        followed.steps
    )?;
    Ok(())
}

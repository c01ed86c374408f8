//! The search of the runs of a stack.

ghost use Rattle.std.specs.Prelude.{IfOk};
ghost use Rattle.pam_conf.specs.Stack.{Items};
ghost use Rattle.pam_paths.specs.Known.{may_answer};
ghost use Rattle.pam_policy.specs.search.Witness.{IsGraphOf, SaysWitness};

use crate::search::distances::{FAR, Search, distances};
use crate::search::query::Query;
use crate::search::run::Run;
use pam_graph::Graph;
use pam_paths::Known;
use std::alloc::{AllocError, Global};

/// The run of a stack that does what a query asks for: of all those that ask the fewest modules, the one whose answers come first
/// in turn, in the order success, auth_err, perm_denied, user_unknown, authinfo_unavail, ignore, and then by number. `graph` is
/// that of the stack's runs under the same knowledge.
pub fn search(
    alloc: Global,
    graph: &Graph,
    known: &Known,
    query: &Query,
) -> Result<Option<Run>, AllocError>
    ensures { (items : Items) → IsGraphOf (may_answer known.now) items graph.now → IfOk result (SaysWitness (may_answer known.now) items query.now) }
{
    let far = distances(alloc, graph.nodes(), known, query)?;
    let search = Search {
        known,
        query,
        far: &far,
    };
    let start = graph.start();
    if search.distance_to(&start, query.first_state()) == FAR {
        return Ok(None);
    }
    Ok(Some(search.first_run(alloc, graph.nodes(), start)?))
}

//! The first way to success.

ghost use Rattle.std.specs.Prelude.{◌≡◌, ◌∷◌, [], IfErr, IfOk};
ghost use Rattle.pam_conf.specs.Stack.{Items};
ghost use Rattle.pam_dispatch.specs.State.{success};
ghost use Rattle.pam_graph.specs.declared.goal.Goal.TheVariants.{Decides};
ghost use Rattle.pam_graph.specs.declared.graph.TheConstants.{MAX_NODES};
ghost use Rattle.pam_graph.specs.Reached.{IsReason};
ghost use Rattle.pam_paths.specs.Known.{may_answer};
ghost use Rattle.pam_findings.specs.stack.inner.Marks.{IsProgramOf};
ghost use Rattle.pam_findings.specs.stack.Soundness.{SaysWayIn};

use pam_codes::{Code, CodeSet};
use pam_dispatch::Program;
use pam_graph::{Goal, Graph, GraphError};
use pam_paths::{Known, Path};
use std::alloc::Global;

/// The goal that the stack decides success.
pub(crate) fn success() -> Goal
    ensures { result ≡ Decides (success ∷ []) }
{
    Goal::Decides(CodeSet::single(Code::SUCCESS))
}

/// The first path that decides success, if there is one.
pub(crate) fn first_way_in(
    alloc: Global,
    program: &Program,
    known: &Known,
) -> Result<Option<Path>, GraphError>
    ensures way { (items : Items) → IsProgramOf program.now items → IfOk result (SaysWayIn (may_answer known.now) items) }
    ensures reason { IfErr result (IsReason MAX_NODES (may_answer known.now) program.now) }
{
    let graph = Graph::of(alloc, program, known)?;
    Ok(graph.first(alloc, success())?)
}

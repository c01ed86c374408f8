//! What `benches/README.md` measures of the libraries alone: one stack, again and again.

mod decisions;
mod graphs;
mod paths;

use crate::stacks::stack_in;
use anyhow::Error;
use pam_dispatch::Program;

/// Measures a stack, as often as `count` says. The first of `names` is the file of the service, the others are its includes. WHAT is
/// `decisions`, `paths` or `graphs`, or `all` for one after another.
pub(crate) fn measure(
    rt: &HostRuntime,
    what: &str,
    count: u64,
    names: &[&str],
) -> Result<(), Error> {
    let stack = stack_in(rt, names)?;
    let program = Program::of(rt.alloc(), &stack)?;
    let is_all = what == "all";
    if is_all || what == "decisions" {
        decisions::measure(rt, count, &program)?;
    }
    if is_all || what == "paths" {
        paths::measure(rt, count, &program)?;
    }
    if is_all || what == "graphs" {
        graphs::measure(rt, count, &program)?;
    }
    Ok(())
}

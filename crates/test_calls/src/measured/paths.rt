//! Explores the paths of one stack, again and again.

use anyhow::Error;
use pam_dispatch::Program;
use pam_paths::{Explorer, Free};

/// The numbers of paths returned, of modules asked on them, and of steps.
#[derive(Clone, Copy, Debug, Default)]
struct Explored {
    paths: u64,
    modules: u64,
    steps: u64,
}

/// Explores a stack once, up to `limit` paths.
fn explore(program: &Program, limit: u64, explored: &mut Explored) {
    let mut explorer = Explorer::start(program, &Free);
    for _ in 0..limit {
        let Some(path) = explorer.next() else {
            break;
        };
        explored.paths = explored.paths.saturating_add(1);
        explored.modules = explored.modules.saturating_add(path.steps().len() as u64);
    }
    explored.steps = explored.steps.saturating_add(explorer.work());
}

/// Explores a stack again and again, up to `limit` paths in all.
fn explore_to(program: &Program, limit: u64) -> Explored {
    let mut explored = Explored::default();
    for _ in 0..limit {
        let left = limit.saturating_sub(explored.paths);
        if left == 0 {
            break;
        }
        explore(program, left, &mut explored);
    }
    explored
}

/// Explores until `limit` paths were returned, and prints the numbers of paths, of modules asked on them, and of steps.
pub(crate) fn measure(rt: &HostRuntime, limit: u64, program: &Program) -> Result<(), Error> {
    let explored = explore_to(program, limit);
    println!(rt;
        "{} paths, {} modules asked, {} steps",
        explored.paths, explored.modules, explored.steps
    )?;
    Ok(())
}

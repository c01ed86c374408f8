//! The end of a path on which the answers no longer matter.

ghost use Rattle.std.specs.Prelude.{◌≡◌, ◌+◌, ◌-◌, ◌≤◌, map};
ghost use Rattle.pam_conf.specs.declared.stack.TheConstants.{MAX_MODULES};
ghost use Rattle.pam_paths.specs.Steps.{step_seen};
ghost use Rattle.pam_paths.specs.Tail.{tail_from};

use crate::path::PathStep;
use arrayvec::ArrayVec;
use pam_codes::CodeSet;
use pam_dispatch::MAX_MODULES;

/// The steps of as many modules as a stack can have, in order, each with every code.
#[derive(Drop)]
pub(crate) struct TailSteps {
    pub(crate) steps: ArrayVec<PathStep, MAX_MODULES>,
    pub ghost numbered: { map step_seen steps.items ≡ tail_from 1 MAX_MODULES },
}

impl TailSteps {
    pub(crate) fn new() -> TailSteps {
        let mut steps = ArrayVec::new();
        for index in 0..MAX_MODULES {
            steps.push(PathStep {
                number: index as u16 + 1,
                class: CodeSet::all(),
            });
        }
        TailSteps { steps }
    }

    /// The steps of the last `count` of `modules` modules.
    pub(crate) fn last(&self, modules: usize, count: usize) -> &[PathStep]
        requires within { count ≤ modules }
        requires few { modules ≤ MAX_MODULES }
        ensures { map step_seen result.now ≡ tail_from (modules + 1 - count) count }
    {
        &self.steps.as_slice()[modules - count..modules]
    }
}

//! The trace of a run: the modules that it asks, and the decision.

ghost use Rattle.std.specs.Prelude.{◌≡◌};
ghost use Rattle.pam_report.specs.Decide.{path_at as path_in_items};

use pam_codes::{Action, Code};
use pam_conf::Stack;
use pam_dispatch::{Decision, Program, State, Work};
use std::alloc::{AllocError, Global};

/// A module that is asked, and what its answer makes of the run.
#[derive(Drop)]
pub struct AskedModule {
    pub number: usize,
    pub path: Vec<u8>,
    pub code: Code,
    pub action: Action,
    /// After the action.
    pub state: State,
}

/// A run of a stack under given codes.
#[derive(Drop)]
pub struct Trace {
    pub asked: Vec<AskedModule>,
    pub decision: Decision,
}

/// Returns the path of a module, by number.
#[tactic(auto, unfolding(crate::specs::Decide::path_at))]
pub fn path_at(stack: &Stack, number: usize) -> &[u8]
    ensures { result.now ≡ path_in_items number stack.now }
{
    match stack.module(number) {
        Some(module) => module.path.as_slice(),
        None => b"",
    }
}

impl Trace {
    ghost use Rattle.std.specs.Prelude.{◌≡◌, IfOk, length, map};
    ghost use Rattle.pam_dispatch.specs.Decision.{decision_of};
    ghost use Rattle.pam_dispatch.specs.Flat.{modules_of, runs_of};
    ghost use Rattle.pam_dispatch.specs.Runs.{answers_of, asked_by, final_state};
    ghost use Rattle.pam_report.specs.Decide.{asked_modules};
    ghost use Rattle.pam_report.specs.ReplyViews.{asked_view};

    /// Runs a stack. There is a code for each of its modules.
    pub(super) fn of(
        alloc: Global,
        stack: &Stack,
        program: &Program,
        codes: &[Code],
    ) -> Result<Trace, AllocError>
        requires { length codes.now ≡ modules_of program.now }
        ensures asked { IfOk result (λ trace. map asked_view trace.asked.items
            ≡ asked_modules stack.now (answers_of codes.now) (asked_by (runs_of program.now) (answers_of codes.now))) }
        ensures decision { IfOk result (λ trace. trace.decision ≡ decision_of (final_state (runs_of program.now) (answers_of codes.now))) }
    {
        let mut asked = Vec::new(alloc);
        let mut work = Work::new();
        let mut place = program.first();
        while let Some(number) = place.module() {
            let code = codes[number - 1];
            let step = program.step(&place, code, &mut work);
            asked.push(AskedModule {
                number,
                path: Vec::from_slice(alloc, path_at(stack, number))?,
                code,
                action: program.control(number).action(code),
                state: step.outcome().state,
            })?;
            place = step.place();
        }
        Ok(Trace {
            asked,
            decision: program.decision(&place),
        })
    }
}

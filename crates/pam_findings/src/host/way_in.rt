//! A way in, by which anybody gets in.

ghost use Rattle.std.specs.Prelude.{◌≡◌, IfOk};
ghost use Rattle.pam_paths.specs.Known.{may_answer};
ghost use Rattle.pam_paths.specs.Steps.{step_seen};
ghost use Rattle.pam_findings.specs.host.Verdicts.{answer_among, answer_on, answers_on};

use pam_codes::{Code, CodeSet};
use pam_conf::Stack;
use pam_paths::{Knowledge, Known, Path, PathStep};
use std::alloc::{AllocError, Global};

/// The answer of a module.
#[derive(Clone, Copy, Debug, PartialEq, Eq)]
pub struct Answered {
    /// The number of the module, from 1.
    pub number: usize,
    pub code: Code,
}

/// A stack, and answers of the modules that are asked, in order, after which it decides success although each module that
/// checks who logs in fails.
#[derive(Drop)]
pub struct WayIn {
    pub stack: Stack,
    pub answers: Vec<Answered>,
}

/// `auth_err` if it is among these codes, else the first of them.
fn answer_among(codes: CodeSet) -> Code
    ensures { result ≡ answer_among codes }
{
    if codes.contains(Code::AUTH_ERR) {
        Code::AUTH_ERR
    } else {
        codes.least().unwrap_or(Code::SUCCESS)
    }
}

/// A code of a step's class that the module may answer.
fn answer_on(known: &Known, step: &PathStep) -> Answered
    ensures { result ≡ answer_on (may_answer known.now) (step_seen step.now) }
{
    let codes = step.class().intersection(known.allowed(step.number()));
    Answered {
        number: step.number(),
        code: answer_among(codes),
    }
}

/// The answers on a path.
pub(crate) fn answers_on(
    alloc: Global,
    known: &Known,
    path: &Path,
) -> Result<Vec<Answered>, AllocError>
    ensures { IfOk result (λ answers. answers.items ≡ answers_on (may_answer known.now) path.now) }
{
    let mut answers = Vec::new(alloc);
    for step in path.steps() {
        answers.push(answer_on(known, step))?;
    }
    Ok(answers)
}

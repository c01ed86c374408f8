//! The `decide` command: the modules that a run asks, and the decision.

ghost use Rattle.std.specs.Prelude.{◌≡◌, true};
ghost use Rattle.pam_conf.specs.Resolution.{resolved};
ghost use Rattle.pam_report.specs.Answer.{decided_by, with_stack};
ghost use Rattle.pam_report.specs.Finds.{Finds};
ghost use Rattle.pam_report.specs.Memory.{WantsOnly, of_stack};

use super::replies::Reply;
use super::trace::Trace;
use crate::fault::Fault;
use pam_codes::Code;
use pam_conf::{Files, Kind, Stack, resolve};
use pam_dispatch::{Program, WrongCount};
use std::alloc::Global;

/// A run of the stack of a service under given codes.
#[derive(Drop)]
pub struct RunReply<'a> {
    pub service: &'a str,
    pub kind: Kind,
    /// The number of the modules of the stack, also of those never asked.
    pub modules: usize,
    pub trace: Trace,
}

/// Runs a resolved stack under these codes.
fn decided_stack<'a>(
    alloc: Global,
    service: &'a str,
    kind: Kind,
    codes: &[Code],
    stack: &Stack,
) -> Result<Reply<'a>, Fault>
    ensures answer { Finds result (λ answer. decided_by service.now kind codes.now stack.now ≡ answer) }
    ensures wants { WantsOnly (of_stack true) result }
{
    let program = match Program::of(alloc, stack) {
        Ok(program) => program,
        Err(_) => return Err(Fault::Memory),
    };
    let modules = program.modules();
    if codes.len() != modules {
        return Err(Fault::Count(WrongCount { modules }));
    }
    match Trace::of(alloc, stack, &program, codes) {
        Ok(trace) => Ok(Reply::Run(RunReply {
            service,
            kind,
            modules,
            trace,
        })),
        Err(_) => Err(Fault::Memory),
    }
}

/// Runs the stack of a service under these codes.
pub(super) fn decided<'a>(
    alloc: Global,
    service: &'a str,
    kind: Kind,
    codes: &[Code],
    files: &Files,
) -> Result<Reply<'a>, Fault>
    ensures answer { Finds result (λ answer.
        with_stack (resolved files.now service.now kind) (decided_by service.now kind codes.now) ≡ answer) }
    ensures wants { WantsOnly (of_stack true) result }
{
    match resolve(alloc, files, service.as_bytes(), kind) {
        Ok(stack) => decided_stack(alloc, service, kind, codes, &stack),
        Err(error) => Err(Fault::Conf(error)),
    }
}

//! Decides one stack many times.

use anyhow::Error;
use pam_codes::Code;
use pam_dispatch::Program;
use std::alloc::{AllocError, Global};

/// Returns an answer of success for each module.
fn answers(alloc: Global, modules: usize) -> Result<Vec<Code>, AllocError> {
    let mut codes = Vec::new(alloc);
    for _ in 0..modules {
        codes.push(Code::SUCCESS)?;
    }
    Ok(codes)
}

/// The number of decisions that are success, where the first module answers each code in turn.
fn successes(program: &Program, codes: &mut Vec<Code>, times: u64) -> u64 {
    let mut successes: u64 = 0;
    for round in 0..times {
        if let (Some(first), Some(code)) = (codes.first_mut(), Code::new((round % 31) as u8)) {
            *first = code;
        }
        if let Ok(decision) = program.decide(codes) {
            if decision.code() == Code::SUCCESS {
                successes = successes.saturating_add(1);
            }
        }
    }
    successes
}

/// Prints how many of `times` decisions are success.
pub(crate) fn measure(rt: &HostRuntime, times: u64, program: &Program) -> Result<(), Error> {
    let mut codes = answers(rt.alloc(), program.modules())?;
    let count = successes(program, &mut codes, times);
    println!(rt; "{count} of {times} decisions are success")?;
    Ok(())
}

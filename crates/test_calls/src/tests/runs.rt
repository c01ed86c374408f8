//! The number of steps of a run, and where no answer changes it any more.

use crate::tests::files::put;
use crate::tests::same::same;
use pam_codes::{CODES, Code};
use pam_conf::{Files, Form, Kind, Stack, resolve};
use pam_dispatch::{Program, Work};
use pam_paths::{Explorer, Free};
use std::alloc::Global;
use std::test::Fail;

fn stack_of(alloc: Global, text: &[u8]) -> Result<Stack, Fail> {
    let mut files = Files::new(alloc, Form::Dir);
    put(alloc, &mut files, b"login", text)?;
    let stack = resolve(alloc, &files, b"login", Kind::Auth)?;
    Ok(stack)
}

#[test]
fn work_counts_steps(rt: HostRuntime) -> Result<(), Fail> {
    let stack = stack_of(rt.alloc(), b"auth required a.so")?;
    let program = Program::of(rt.alloc(), &stack)?;
    let place = program.first();
    let mut work = Work::new();
    if let (Some(_), Some(code)) = (place.module(), Code::new(0)) {
        program.step(&place, code, &mut work);
        program.step(&place, code, &mut work);
    }
    same(&rt, "steps", &work.steps(), &2);
    Ok(())
}

/// The number of modules that are still asked, if the run of these rules is settled after `code`.
fn settled_after(alloc: Global, rules: &[u8], code: u8) -> Result<Option<usize>, Fail> {
    let stack = stack_of(alloc, rules)?;
    let program = Program::of(alloc, &stack)?;
    let place = program.first();
    let (Some(_), Some(code)) = (place.module(), Code::new(code)) else {
        return Ok(None);
    };
    let next = program.step(&place, code, &mut Work::new()).place();
    Ok(program.settled(&next).map(|rest| rest.modules))
}

/// Rules, the code of the first module, and the number of modules that are asked after the run is settled.
static SETTLED: [(&str, u8, Option<usize>); 3] = [
    (
        "auth required a.so\nauth required b.so\nauth optional c.so",
        7,
        Some(2),
    ),
    (
        "auth required a.so\nauth required b.so\nauth optional c.so",
        0,
        None,
    ),
    (
        "auth required a.so\nauth requisite b.so\nauth required c.so",
        7,
        None,
    ),
];

#[test]
fn no_answer_changes_a_failed_stack(rt: HostRuntime) -> Result<(), Fail> {
    for (rules, code, modules) in &SETTLED {
        let settled = settled_after(rt.alloc(), rules.as_bytes(), *code)?;
        same(&rt, rules, &settled, modules);
    }
    Ok(())
}

#[test]
fn the_tail_of_a_path_begins_after_a_failure(rt: HostRuntime) -> Result<(), Fail> {
    let stack = stack_of(rt.alloc(), b"auth required a.so\nauth required b.so")?;
    let program = Program::of(rt.alloc(), &stack)?;
    let mut explorer = Explorer::start(&program, &Free);
    let mut longest = 0;
    for _ in 0..CODES * CODES {
        if explorer.follow().is_none() {
            break;
        }
        longest = longest.max(explorer.path().tail().len());
    }
    same(&rt, "the longest tail", &longest, &1);
    Ok(())
}

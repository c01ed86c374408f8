//! Refusals of words that no command line shows.

ghost use Rattle.pam_report.specs.Fault.{IsNumbered};

use crate::tests::same::same;
use pam_report::{usage_status, usage_text};
use pam_words::Usage;
use std::alloc::Global;
use std::process::Abort;
use std::test::Fail;

/// Asserts the line and the exit status of a refusal.
fn is_told(
    rt: &impl Abort,
    alloc: Global,
    usage: &Usage,
    line: &str,
    status: u8,
) -> Result<(), Fail>
    requires { IsNumbered usage.now }
{
    let text = usage_text(alloc, usage)?;
    same(rt, line, &text.as_slice(), &line.as_bytes());
    same(rt, line, &usage_status(usage), &status);
    Ok(())
}

#[test]
fn refusals_where_the_words_are_gathered(rt: HostRuntime) -> Result<(), Fail> {
    is_told(&rt, rt.alloc(), &Usage::Login, "pamcheck: U5 Login\n", 2)?;
    is_told(&rt, rt.alloc(), &Usage::Memory, "pamcheck: U7 Memory\n", 6)?;
    is_told(
        &rt,
        rt.alloc(),
        &Usage::NotUtf8,
        "pamcheck: U1 NotUtf8\n",
        2,
    )
}

//! Cursors that a stack accepts and refuses.

use crate::stacks::program_of;
use anyhow::Error;
use pam_dispatch::Program;
use pam_paths::{Cursor, CursorError, Explorer, Free};

/// The errors of exploring the paths after and before a cursor; both are the error of reading it, if there is one.
fn refusals(program: &Program, text: &str) -> (Option<CursorError>, Option<CursorError>) {
    match Cursor::read(text.as_bytes()) {
        Err(error) => (Some(error), Some(error)),
        Ok(cursor) => (
            Explorer::after(program, &Free, &cursor).err(),
            Explorer::before(program, &Free, &cursor).err(),
        ),
    }
}

/// Prints whether a cursor is accepted, or its error.
pub(crate) fn cursor(rt: &HostRuntime, service: &str, text: &str) -> Result<(), Error> {
    let program = program_of(rt, service)?;
    let (after, before) = refusals(&program, text);
    if after != before {
        println!(rt; "after and before differ")?;
    }
    match after {
        None => println!(rt; "accepted")?,
        Some(error) => println!(rt; "{error:?}")?,
    }
    Ok(())
}

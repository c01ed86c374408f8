//! A path as a line of text.

use anyhow::Error;
use pam_codes::Out;
use pam_paths::{Cursor, Path, PathStep};
use std::alloc::Global;

/// The text of a step, with a leading blank.
fn step_text(alloc: Global, step: &PathStep) -> Result<Vec<u8>, Error> {
    let mut text = Vec::new(alloc);
    let mut out = Out::new(&mut text);
    out.put(b" ")?;
    out.put_number(step.number() as u64)?;
    out.put(b"=")?;
    step.class().write_text(&mut out)?;
    Ok(text)
}

/// The text of a cursor.
pub(crate) fn cursor_text(alloc: Global, cursor: &Cursor) -> Result<Vec<u8>, Error> {
    let mut text = Vec::new(alloc);
    cursor.write_text(&mut Out::new(&mut text))?;
    Ok(text)
}

/// A path as `CURSOR DECISION NUMBER=CLASS...`.
pub(crate) fn line_of(alloc: Global, path: &Path) -> Result<Vec<u8>, Error> {
    let mut line = cursor_text(alloc, &path.cursor())?;
    line.push(b' ')?;
    line.extend_from_slice(path.decision().name().as_bytes())?;
    for step in path.steps() {
        line.extend_from_slice(&step_text(alloc, step)?)?;
    }
    Ok(line)
}

//! The line of a path, from the texts of its steps.

ghost use Rattle.std.specs.List.{flat_map};
ghost use Rattle.std.specs.Prelude.{◌≡◌, ◌++◌, if◌then◌else◌, IsTrue, codes, length, take};
ghost use Rattle.pam_page.specs.inner.KeptSteps.{code_text, undotted};
ghost use Rattle.pam_page.specs.Page.{code_name, path_line, step_text};

use crate::buffer::Buffer;
use crate::code_texts::append_name;
use pam_codes::Code;
use pam_paths::Path;

/// As many bytes as are copied at once for the cursor of a path of a few steps.
const CURSOR_BYTES: usize = 64;

/// As many bytes as are copied at once for a few steps.
const STEPS_BYTES: usize = 128;

/// Returns the text of a cursor, from the codes with a dot before each.
fn undotted(codes: &[u8]) -> &[u8]
    ensures { result.now ≡ undotted codes.now }
{
    match codes.split_first() {
        Some((_, cursor)) => cursor,
        None => b"-",
    }
}

/// Appends the text of a cursor, from the codes of its first and its last steps. Returns whether there was room.
fn append_cursor(lines: &mut Buffer, first: &Buffer, last: &[u8]) -> bool
    ensures kept { take (length lines.old) lines.new ≡ lines.old }
    ensures ok { IsTrue result → lines.new ≡ lines.old ++ undotted (first.now ++ last.now) }
{
    if first.len() == 0 {
        return lines.append(undotted(last));
    }
    lines.append_part::<CURSOR_BYTES>(first, 1, first.len()) && lines.append(last)
}

/// Appends a blank and the name of a decision. Returns whether there was room.
fn append_decision(lines: &mut Buffer, decision: Code) -> bool
    ensures kept { take (length lines.old) lines.new ≡ lines.old }
    ensures ok { IsTrue result → lines.new ≡ (lines.old ++ codes " ") ++ code_name decision }
{
    lines.push(b' ') && append_name(lines, decision)
}

/// Appends the texts of steps, and the end of the line. Returns whether there was room.
fn append_steps(lines: &mut Buffer, first: &Buffer, last: &[u8]) -> bool
    ensures kept { take (length lines.old) lines.new ≡ lines.old }
    ensures ok { IsTrue result → lines.new ≡ ((lines.old ++ first.now) ++ last.now) ++ codes "\n" }
{
    lines.append_part::<STEPS_BYTES>(first, 0, first.len())
        && lines.append(last)
        && lines.push(b'\n')
}

/// Appends the line of a path, part by part. Returns whether there was room.
fn append_parts(
    lines: &mut Buffer,
    first_codes: &Buffer,
    last_codes: &[u8],
    decision: Code,
    first_steps: &Buffer,
    last_steps: &[u8],
) -> bool
    ensures kept { take (length lines.old) lines.new ≡ lines.old }
    ensures ok { IsTrue result → lines.new ≡ (((((lines.old ++ undotted (first_codes.now ++ last_codes.now)) ++ codes " ")
        ++ code_name decision) ++ first_steps.now) ++ last_steps.now) ++ codes "\n" }
{
    append_cursor(lines, first_codes, last_codes)
        && append_decision(lines, decision)
        && append_steps(lines, first_steps, last_steps)
}

/// Appends the line of a path by the texts of its first and its last steps, if there is room. Returns whether there was.
pub(crate) fn append_line(
    lines: &mut Buffer,
    first_codes: &Buffer,
    last_codes: &[u8],
    first_steps: &Buffer,
    last_steps: &[u8],
    path: &Path,
) -> bool
    requires cursor { first_codes.now ++ last_codes.now ≡ flat_map code_text path.now.steps }
    requires steps { first_steps.now ++ last_steps.now ≡ flat_map step_text path.now.steps }
    ensures { lines.new ≡ (if result then lines.old ++ path_line path.now else lines.old) }
{
    let end = lines.len();
    let decision = path.decision();
    if append_parts(
        lines,
        first_codes,
        last_codes,
        decision,
        first_steps,
        last_steps,
    ) {
        return true;
    }
    lines.truncate(end);
    false
}

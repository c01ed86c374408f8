//! The lines of a page, written part by part.

ghost use Rattle.std.specs.Prelude.{◌-◌, ◌<◌, None, Some, map};
ghost use Rattle.std.specs.List.{flat_map};
ghost use Rattle.pam_codes.specs.Out.{Writes};
ghost use Rattle.pam_page.specs.Page.{last_line, path_line, step_text};
ghost use Rattle.pam_paths.specs.Steps.{step_seen};

use pam_codes::{Device, Out, Piece};
use pam_paths::{Cursor, Path, PathStep};
use std::io::Write;

/// Writes ` NUMBER=CLASS`.
#[tactic(auto, unfolding(crate::specs::Page::step_text))]
fn put_step<W: Write>(step: &PathStep, out: &mut Out<W>) -> Result<(), Device>
    ensures { Writes W.contents out.old out.new result (step_text (step_seen step.now)) }
{
    out.put_line(&[
        Piece::Bytes(b" "),
        Piece::Number(step.number() as u64),
        Piece::Bytes(b"="),
    ])?;
    step.class().write_text(out)
}

fn put_steps<W: Write>(steps: &[PathStep], out: &mut Out<W>) -> Result<(), Device>
    ensures { Writes W.contents out.old out.new result (flat_map step_text (map step_seen steps.now)) }
{
    for step in steps {
        put_step(step, out)?;
    }
    Ok(())
}

/// Writes the line of a path.
#[tactic(auto, unfolding(crate::specs::Page::path_line))]
pub(crate) fn put_path<W: Write>(path: &Path, out: &mut Out<W>) -> Result<(), Device>
    ensures { Writes W.contents out.old out.new result (path_line path.now) }
{
    path.cursor().write_text(out)?;
    out.put_line(&[
        Piece::Bytes(b" "),
        Piece::Bytes(path.decision().name().as_bytes()),
    ])?;
    put_steps(path.steps(), out)?;
    out.put(b"\n")
}

/// Writes the last line of a page, if no path follows it.
#[tactic(auto, unfolding(crate::specs::Page::last_line))]
pub(crate) fn put_end<W: Write>(side: &[u8], count: u64, out: &mut Out<W>) -> Result<(), Device>
    ensures { Writes W.contents out.old out.new result (last_line side.now count None) }
{
    out.put_line(&[
        Piece::Bytes(b"end "),
        Piece::Number(count),
        Piece::Bytes(b" paths\n"),
    ])
}

/// Writes the last line of a page, if more paths follow it. `cursor` is that of its last path.
#[tactic(auto, unfolding(crate::specs::Page::last_line))]
pub(crate) fn put_more<W: Write>(
    side: &[u8],
    count: u64,
    cursor: &Cursor,
    out: &mut Out<W>,
) -> Result<(), Device>
    ensures { Writes W.contents out.old out.new result (last_line side.now count (Some cursor.now)) }
{
    out.put_line(&[
        Piece::Bytes(b"more "),
        Piece::Number(count),
        Piece::Bytes(b" paths "),
        Piece::Bytes(side),
        Piece::Bytes(b" "),
    ])?;
    cursor.write_text(out)?;
    out.put(b"\n")
}

//! The text of `explain`: what a fault or a finding means.

ghost use Rattle.std.specs.Prelude.{◌≡◌};
ghost use Rattle.std.specs.List.{flat_map};
ghost use Rattle.pam_codes.specs.Out.{Writes, WritesAndFlushes};
ghost use Rattle.pam_explain.specs.Views.{explanation_view};
ghost use Rattle.pam_render.specs.text.Explain.{example_line, example_text, explanation_text, explanations_text, head_text, lines_of};
ghost use Rattle.pam_render.specs.text.Explain.{rest_text, row_text};

use crate::sentences::level_name;
use pam_codes::{Device, Out, Piece};
use pam_explain::{Explanation, explanations};
use pam_text::cut;
use std::io::Write;

/// Writes `NUMBER NAME (LEVEL)`, and the meaning.
#[tactic(auto, unfolding(crate::specs::text::Explain::head_text))]
fn put_head<W: Write>(explanation: &Explanation, out: &mut Out<W>) -> Result<(), Device>
    ensures { Writes W.contents out.old out.new result (head_text (explanation_view explanation.now)) }
{
    out.put_line(&[
        Piece::Bytes(explanation.number.as_bytes()),
        Piece::Bytes(b" "),
        Piece::Bytes(explanation.name.as_bytes()),
        Piece::Bytes(b" ("),
        Piece::Bytes(level_name(explanation.level).as_bytes()),
        Piece::Bytes(b")\n"),
        Piece::Bytes(explanation.meaning.as_bytes()),
        Piece::Bytes(b"\n"),
    ])
}

fn put_example_line<W: Write>(line: &[u8], out: &mut Out<W>) -> Result<(), Device>
    ensures { Writes W.contents out.old out.new result (example_line line.now) }
{
    out.put_line(&[
        Piece::Bytes(b"    "),
        Piece::Bytes(line),
        Piece::Bytes(b"\n"),
    ])
}

fn put_example_lines<W: Write>(text: &[u8], out: &mut Out<W>) -> Result<(), Device>
    ensures { Writes W.contents out.old out.new result (flat_map example_line (lines_of text.now)) }
{
    let mut rest = text;
    while let Some((line, after)) = cut(rest, b'\n') {
        put_example_line(line, out)?;
        rest = after;
    }
    put_example_line(rest, out)
}

/// Writes the heading and the lines of an example, indented, unless it is empty.
#[tactic(auto, unfolding(crate::specs::text::Explain::example_text))]
fn put_example<W: Write>(example: &str, out: &mut Out<W>) -> Result<(), Device>
    ensures { Writes W.contents out.old out.new result (example_text example.now) }
{
    if example.is_empty() {
        return Ok(());
    }
    out.put(b"\nExample:\n")?;
    put_example_lines(example.as_bytes(), out)
}

/// Writes what Linux-PAM does, and what to do.
#[tactic(auto, unfolding(crate::specs::text::Explain::rest_text))]
fn put_rest<W: Write>(explanation: &Explanation, out: &mut Out<W>) -> Result<(), Device>
    ensures { Writes W.contents out.old out.new result (rest_text (explanation_view explanation.now)) }
{
    out.put_line(&[
        Piece::Bytes(b"\nLinux-PAM: "),
        Piece::Bytes(explanation.linux_pam.as_bytes()),
        Piece::Bytes(b"\nTo mend it: "),
        Piece::Bytes(explanation.mending.as_bytes()),
        Piece::Bytes(b"\n"),
    ])
}

/// Writes an explanation.
pub(crate) fn write_explanation<W: Write>(
    explanation: &Explanation,
    out: &mut Out<W>,
) -> Result<(), Device>
    ensures { WritesAndFlushes W.contents out.old out.new result (explanation_text (explanation_view explanation.now)) }
{
    put_head(explanation, out)?;
    put_example(explanation.example, out)?;
    put_rest(explanation, out)?;
    out.finish()
}

/// Writes `NUMBER NAME LEVEL`.
#[tactic(auto, unfolding(crate::specs::text::Explain::row_text))]
fn put_row<W: Write>(explanation: &Explanation, out: &mut Out<W>) -> Result<(), Device>
    ensures { Writes W.contents out.old out.new result (row_text (explanation_view explanation.now)) }
{
    out.put_line(&[
        Piece::Bytes(explanation.number.as_bytes()),
        Piece::Bytes(b" "),
        Piece::Bytes(explanation.name.as_bytes()),
        Piece::Bytes(b" "),
        Piece::Bytes(level_name(explanation.level).as_bytes()),
        Piece::Bytes(b"\n"),
    ])
}

fn put_rows<W: Write>(out: &mut Out<W>) -> Result<(), Device>
    ensures { Writes W.contents out.old out.new result explanations_text }
{
    for explanation in explanations() {
        put_row(&explanation, out)?;
    }
    Ok(())
}

/// Writes the list of all explanations.
pub(crate) fn write_explanations<W: Write>(out: &mut Out<W>) -> Result<(), Device>
    ensures { WritesAndFlushes W.contents out.old out.new result explanations_text }
{
    put_rows(out)?;
    out.finish()
}

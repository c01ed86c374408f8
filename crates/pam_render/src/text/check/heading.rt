//! What a line of `check` begins with, after its place.

ghost use Rattle.pam_codes.specs.Out.{Writes};
ghost use Rattle.pam_explain.specs.Views.{explanation_view};
ghost use Rattle.pam_render.specs.text.Check.{heading_text};

use crate::sentences::level_name;
use pam_codes::{Device, Out, Piece};
use pam_explain::{Explanation, Level};
use std::io::Write;

/// Writes `LEVEL: NUMBER NAME: `.
#[tactic(auto, unfolding(crate::specs::text::Check::heading_text))]
pub(super) fn put_heading<W: Write>(
    level: Level,
    row: &Explanation,
    out: &mut Out<W>,
) -> Result<(), Device>
    ensures { Writes W.contents out.old out.new result (heading_text level (explanation_view row.now)) }
{
    out.put_line(&[
        Piece::Bytes(level_name(level).as_bytes()),
        Piece::Bytes(b": "),
        Piece::Bytes(row.number.as_bytes()),
        Piece::Bytes(b" "),
        Piece::Bytes(row.name.as_bytes()),
        Piece::Bytes(b": "),
    ])
}

//! The first line of an answer.

ghost use Rattle.std.specs.Prelude.{map};
ghost use Rattle.std.specs.Char.{to_ascii_lowercase};
ghost use Rattle.pam_codes.specs.Out.{Writes};
ghost use Rattle.pam_render.specs.text.Header.{header_text};

use pam_codes::{Device, Out, Piece};
use pam_conf::Kind;
use pam_report::kind_name;
use std::io::Write;

pub(crate) fn put_lowercase<W: Write>(text: &[u8], out: &mut Out<W>) -> Result<(), Device>
    ensures { Writes W.contents out.old out.new result (map to_ascii_lowercase text.now) }
{
    for byte in text {
        out.put(&[byte.to_ascii_lowercase()])?;
    }
    Ok(())
}

/// Writes `SERVICE KIND N modules`, with the service in lowercase.
#[tactic(auto, unfolding(crate::specs::text::Header::header_text))]
pub(crate) fn put_header<W: Write>(
    service: &str,
    kind: Kind,
    modules: usize,
    out: &mut Out<W>,
) -> Result<(), Device>
    ensures { Writes W.contents out.old out.new result (header_text service.now kind modules) }
{
    put_lowercase(service.as_bytes(), out)?;
    out.put_line(&[
        Piece::Bytes(b" "),
        Piece::Bytes(kind_name(kind).as_bytes()),
        Piece::Bytes(b" "),
        Piece::Number(modules as u64),
        Piece::Bytes(b" modules\n"),
    ])
}

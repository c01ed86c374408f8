//! The texts about the program itself.

ghost use Rattle.pam_codes.specs.Out.{WritesAndFlushes};
ghost use Rattle.pam_facts.specs.Table.{facts_text};
ghost use Rattle.pam_render.specs.text.About.{version_text};

use pam_codes::{Device, Out, Piece};
use pam_facts::write_facts;
use pam_words::version;
use std::io::Write;

/// Writes what is known of modules, in the form of a facts file.
pub(crate) fn write_known<W: Write>(out: &mut Out<W>) -> Result<(), Device>
    ensures { WritesAndFlushes W.contents out.old out.new result facts_text }
{
    write_facts(out)?;
    out.finish()
}

/// Writes the name and the version of the program.
pub(crate) fn write_version<W: Write>(out: &mut Out<W>) -> Result<(), Device>
    ensures { WritesAndFlushes W.contents out.old out.new result version_text }
{
    out.put_line(&[
        Piece::Bytes(b"pamcheck "),
        Piece::Bytes(version().as_bytes()),
        Piece::Bytes(b"\n"),
    ])?;
    out.finish()
}

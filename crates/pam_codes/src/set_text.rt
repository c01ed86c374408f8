//! The text of a set of codes.

ghost use Rattle.pam_text.specs.Out.{Writes};
ghost use Rattle.pam_codes.specs.SetText.{names_text, set_text};

use crate::code::CODES;
use crate::set::CodeSet;
use pam_text::{Device, Out, Piece};
use std::io::Write;

/// The size of the largest set that is written by its own codes; a larger one is written by the missing codes.
const MAX_NAMED: usize = 15;

impl CodeSet {
    /// Writes the names in order, comma-separated: for 16 to 30 codes `but:` and the missing ones, for all 31 `any`.
    pub fn write_text<W: Write>(self, out: &mut Out<W>) -> Result<(), Device>
        ensures { Writes W.contents out.old out.new result (set_text self) }
    {
        let count = self.len();
        if count == CODES {
            return out.put(b"any");
        }
        if count > MAX_NAMED {
            out.put(b"but:")?;
            return CodeSet::all().without(self).write_names(out);
        }
        self.write_names(out)
    }

    /// Writes the names of the codes, separated by commas.
    fn write_names<W: Write>(self, out: &mut Out<W>) -> Result<(), Device>
        ensures { Writes W.contents out.old out.new result (names_text self) }
    {
        let mut separator = b"".as_slice();
        let mut remaining = self;
        while let Some(code) = remaining.take_least() {
            let name = code.name().as_bytes();
            out.put_line(&[Piece::Bytes(separator), Piece::Bytes(name)])?;
            separator = b",".as_slice();
        }
        Ok(())
    }
}

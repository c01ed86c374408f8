//! Writing a line piece by piece.

ghost use Rattle.pam_text.specs.Out.{Writes};
ghost use Rattle.pam_text.specs.Piece.{line_text, piece_text};

use crate::out::{Device, Out};
use std::io::Write;

/// A piece of a line.
#[derive(Clone, Copy, Debug)]
pub enum Piece<'a> {
    Bytes(&'a [u8]),
    /// Written in decimal digits.
    Number(u64),
}

impl<W: Write> Out<W> {
    fn put_piece(&mut self, piece: Piece<'_>) -> Result<(), Device>
        ensures { Writes W.contents self.old self.new result (piece_text piece.entry) }
    {
        match piece {
            Piece::Bytes(bytes) => self.put(bytes),
            Piece::Number(number) => self.put_number(number),
        }
    }

    /// Writes `pieces` in order, as `put` writes bytes. Adds no line feed.
    pub fn put_line(&mut self, pieces: &[Piece<'_>]) -> Result<(), Device>
        ensures { Writes W.contents self.old self.new result (line_text pieces.now) }
    {
        for piece in pieces {
            self.put_piece(*piece)?;
        }
        Ok(())
    }
}

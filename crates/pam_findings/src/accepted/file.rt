//! The findings that an accept file accepts.

ghost use Rattle.std.specs.Prelude.{◌≡◌, IfOk, List, ℕ, map};
ghost use Rattle.std.specs.List.{list_any};
ghost use Rattle.std.specs.Str.{bytes_eq};
ghost use Rattle.pam_findings.specs.accepted.Error.{Gives};
ghost use Rattle.pam_findings.specs.accepted.Lines.{accepted_lines};
ghost use Rattle.pam_findings.specs.accepted.Views.{line_view};
ghost use Rattle.pam_findings.specs.accepted.inner.Views.{HasKeys};

use crate::accepted::error::AcceptError;
use crate::accepted::lines::{AcceptLine, read_lines};
use indexmap::IndexSet;
use std::alloc::{AllocError, Global};
use std::marker::Model;

/// The lines of an accept file, each with the key of a finding that is meant to be.
///
/// A line is the number of a finding and its place, separated by spaces, tabs and carriage returns: `S6`, `L1 login:3`,
/// `S2 gdm-autologin auth`. A number is `E`, `L`, `S`, `A`, `T` or `TE` and one or two digits. A word that begins with `#`
/// begins a comment, up to the end of the line. Lines without words are skipped.
#[derive(Drop)]
pub struct AcceptFile {
    lines: Vec<AcceptLine>,
    /// The keys of the lines, each once.
    keys: IndexSet<Vec<u8>>,
}

impl Model for AcceptFile {
    ghost use Rattle.std.specs.Prelude.{ℕ, List, map};
    ghost use Rattle.pam_findings.specs.accepted.Views.{line_view};
    ghost use Rattle.pam_findings.specs.accepted.inner.Views.{HasKeys};

    ghost Value = { List (ℕ × List ℕ) };

    ghost view = { λ f. map line_view f.lines.items };

    ghost invariant = { λ f. HasKeys (map (λ key. key.items) f.keys.keys) f.lines.items };
}

/// The keys of lines, each once.
fn keys_of(alloc: Global, lines: &[AcceptLine]) -> Result<IndexSet<Vec<u8>>, AllocError>
    ensures { IfOk result (λ keys. HasKeys (map (λ key. key.items) keys.keys) lines.now) }
{
    let mut keys = IndexSet::new(alloc);
    for line in lines {
        keys.insert(Vec::from_slice(alloc, &line.key)?)?;
    }
    Ok(keys)
}

impl AcceptFile {
    /// Reads an accept file, or returns its first fault. An empty file accepts nothing.
    ///
    /// `Source` comes first, then the lines from the top. A failed allocation is `Memory`.
    pub fn read(alloc: Global, bytes: &[u8]) -> Result<AcceptFile, AcceptError>
        ensures { Gives (λ file. file) result (accepted_lines bytes.now) }
    {
        let lines = read_lines(alloc, bytes)?;
        let keys = keys_of(alloc, &lines)?;
        Ok(AcceptFile { lines, keys })
    }

    /// The lines that have words, from the top.
    pub fn lines(&self) -> &[AcceptLine]
        ensures { map line_view result.now ≡ self.now }
    {
        self.lines.as_slice()
    }

    /// Whether a line accepts the finding with this key: its number and its place, with one space between words.
    pub fn accepts(&self, key: &[u8]) -> bool
        ensures { result ≡ list_any (λ line. bytes_eq key.now line.1) self.now }
    {
        self.keys.contains(key)
    }
}

//! The limits of every file: its length, and no NUL byte.

ghost use Rattle.std.specs.Prelude.{◌≡◌, ◌≤◌, ◌<◌, ◌==◌, IfSome, MatchResult, None, Some, count_by, length, position};
ghost use Rattle.std.specs.List.{list_any};
ghost use Rattle.pam_text.specs.Source.{source_fault};
ghost use Rattle.pam_text.specs.declared.source.TheConstants.{MAX_FILE_BYTES};

use thiserror::Error;

/// The maximum length of a file, in bytes.
pub const MAX_FILE_BYTES: usize = 1_048_576;

/// Why a file is not read at all.
#[derive(Clone, Copy, Debug, PartialEq, Eq, Error)]
pub enum SourceFault {
    #[error("the file is longer than 1,048,576 bytes")]
    TooLong,
    /// The line of the first one, from 1.
    #[error("line {0}: a NUL byte")]
    NulByte(u32),
}

/// The bytes of a file that is not too long and has no NUL byte.
#[derive(Clone, Copy)]
pub struct Source<'a> {
    pub bytes: &'a [u8],
    ghost short: { length bytes.now ≤ MAX_FILE_BYTES },
}

fn has_nul(bytes: &[u8]) -> bool
    ensures { result ≡ list_any (λ b. b == 0) bytes.now }
{
    bytes.contains(&0)
}

fn nul_position(bytes: &[u8]) -> Option<usize>
    ensures value { result ≡ position (λ b. b == 0) bytes.now }
    ensures bound { IfSome result (λ n. n < length bytes.now) }
{
    bytes.iter().position(|byte| *byte == 0)
}

fn line_feeds(bytes: &[u8]) -> usize
    ensures value { result ≡ count_by (λ b. b == 10) bytes.now }
    ensures bound { result ≤ length bytes.now }
{
    bytes.iter().filter(|byte| **byte == b'\n').count()
}

impl<'a> Source<'a> {
    /// Checks the limits. `TooLong` comes before `NulByte`.
    #[tactic(auto, unfolding(crate::specs::Source::source_fault))]
    pub fn of(bytes: &'a [u8]) -> Result<Source<'a>, SourceFault>
        ensures { MatchResult result
            (λ source. (source_fault bytes.now ≡ None) × (source.bytes.now ≡ bytes.now))
            (λ fault. source_fault bytes.now ≡ Some fault) }
    {
        if bytes.len() > MAX_FILE_BYTES {
            return Err(SourceFault::TooLong);
        }
        if !has_nul(bytes) {
            return Ok(Source { bytes });
        }
        match nul_position(bytes) {
            Some(index) => Err(SourceFault::NulByte(line_feeds(&bytes[..index]) as u32 + 1)),
            None => Ok(Source { bytes }),
        }
    }
}

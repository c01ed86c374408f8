//! The words of a line.

ghost use Rattle.std.specs.Prelude.{◌≡◌, IfOk, map};
ghost use Rattle.pam_findings.specs.accepted.Words.{words_of};

use pam_text::is_text_blank;
use std::alloc::{AllocError, Global};

/// The words of a line before its comment.
pub(crate) fn words(alloc: Global, line: &[u8]) -> Result<Vec<&[u8]>, AllocError>
    ensures { IfOk result (λ words. map (λ word. word.now) words.items ≡ words_of line.now) }
{
    let mut words = Vec::new(alloc);
    for part in line.split(|byte| is_text_blank(*byte)) {
        if part.starts_with(b"#") {
            return Ok(words);
        }
        if part.is_empty() {
            continue;
        }
        words.push(part)?;
    }
    Ok(words)
}

//! The bytes of a file with its mendings.

ghost use Rattle.std.specs.Prelude.{◌≡◌, ◌∷◌, ◌++◌, IfOk, List};
ghost use Rattle.pam_render.specs.patch_text.Mended as spec;
ghost use Rattle.pam_render.specs.patch_text.Mended.{mended};
ghost use Rattle.pam_render.specs.patch_text.inner.Views.{mending_view, mendings_view};

use crate::full_text::{bytes_after, first_bytes};
use crate::patch_text::mending::Mending;
use std::alloc::{AllocError, Global};

/// Appends the bytes up to a mending and its text, and returns those after it. One that begins before these bytes is left out.
#[tactic(auto, unfolding(crate::specs::patch_text::Mended::mended))]
fn push_mending<'x>(
    mending: &Mending<'_>,
    rest: &'x [u8],
    text: &mut Vec<u8>,
) -> Result<&'x [u8], AllocError>
    ensures { IfOk result (λ left. (mendings : List spec.Mending) → text.new.items ++ mended mendings left.now
        ≡ text.old.items ++ mended (mending_view mending.now ∷ mendings) rest.now) }
{
    if rest.len() < mending.from {
        return Ok(rest);
    }
    text.extend_from_slice(first_bytes(rest.len() - mending.from, rest))?;
    text.extend_from_slice(mending.text)?;
    Ok(bytes_after(rest.len().saturating_sub(mending.after), rest))
}

/// The bytes of a file with these mendings.
#[tactic(auto, unfolding(crate::specs::patch_text::Mended::mended))]
pub(super) fn mended(
    alloc: Global,
    mendings: &[Mending<'_>],
    bytes: &[u8],
) -> Result<Vec<u8>, AllocError>
    ensures { IfOk result (λ text. text.items ≡ mended (mendings_view mendings.now) bytes.now) }
{
    let mut text = Vec::new(alloc);
    let mut rest = bytes;
    for mending in mendings {
        rest = push_mending(mending, rest, &mut text)?;
    }
    text.extend_from_slice(rest)?;
    Ok(text)
}

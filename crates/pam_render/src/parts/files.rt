//! Names of files.

ghost use Rattle.std.specs.Prelude.{◌≡◌};
ghost use Rattle.pam_render.specs.parts.Files.{name_at};

use pam_conf::Files;

/// Returns the name of the file at a position, empty if there is none.
#[tactic(auto, unfolding(crate::specs::parts::Files::name_at))]
pub fn name_at(files: &Files, position: usize) -> &[u8]
    ensures { result.now ≡ name_at files.now position }
{
    match files.name(position) {
        Some(name) => name,
        None => b"",
    }
}

//! The names of files that no program asks for.

ghost use Rattle.std.specs.Prelude.{◌≡◌};
ghost use Rattle.pam_findings.specs.host.FolderProblems.{is_unreachable};

use pam_conf::{has_capital, is_left_over};

/// Whether no program asks for the file with this name, although it is not left over.
pub(crate) fn is_unreachable(name: &[u8]) -> bool
    ensures { result ≡ is_unreachable name.now }
{
    has_capital(name) && !is_left_over(name)
}

//! Modules that read an access table without separators.

ghost use Rattle.std.specs.Prelude.{◌≡◌};
ghost use Rattle.pam_conf.specs.ItemsOf.{module_text};
ghost use Rattle.pam_findings.specs.host.Separators.{lacks_separator};

use pam_conf::Module;
use pam_facts::known::name_of_path;
use pam_released::tables::has_empty_separator;

/// Whether an argument of pam_access names no separators: A5.
pub(crate) fn lacks_separator(module: &Module) -> bool
    ensures { result ≡ lacks_separator (module_text «module».now) }
{
    name_of_path(&module.path) == b"pam_access.so".as_slice()
        && has_empty_separator(&module.arguments)
}

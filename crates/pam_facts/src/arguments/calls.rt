//! What is known of the arguments of a rule.

ghost use Rattle.std.specs.Prelude.{◌≡◌};
ghost use Rattle.std.specs.Option.{option_map};
ghost use Rattle.pam_conf.specs.ItemsOf.{module_text};
ghost use Rattle.pam_facts.specs.arguments.Calls.{known_of, lack_in};
ghost use Rattle.pam_facts.specs.arguments.Views.{module_view};

use crate::arguments::index::Arguments;
use crate::arguments::lacks::{Lack, lack_of};
use crate::arguments::modules::Module as Known;
use crate::paths::module_name;
use pam_conf::{Kind, Module};

/// What is known of the arguments of a rule's module.
pub fn known_of(arguments: &Arguments, module: &Module) -> Option<Known<'static>>
    ensures { option_map module_view result ≡ known_of (module_text «module».now) }
{
    match module_name(&module.path) {
        Some(name) => arguments.of(name),
        None => None,
    }
}

/// What the arguments of a rule lack as a whole.
pub fn lack_in(kind: Kind, module: &Module) -> Option<Lack>
    ensures { result ≡ lack_in kind (module_text «module».now) }
{
    match module_name(&module.path) {
        Some(name) => lack_of(name, kind, &module.arguments),
        None => None,
    }
}

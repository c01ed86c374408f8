//! The codes of modules that are not there.

ghost use Rattle.std.specs.Prelude.{◌≡◌, ◌≢◌, ℕ, [], IfSome, List};
ghost use Rattle.std.specs.Option.{option_map};
ghost use Rattle.pam_conf.specs.ItemsOf.{module_text};
ghost use Rattle.pam_conf.specs.Stack.{module_count};
ghost use Rattle.pam_facts.specs.Answers.{Allows};
ghost use Rattle.pam_facts.specs.Missing.{if_missing, missing_at, where_there};

use crate::answers::{is_there, module_unknown};
use crate::replacing::replace_codes;
use pam_codes::CodeSet;
use pam_conf::{Module, NameList, Stack};
use pam_paths::Known;

fn if_missing(there: Option<&NameList>, module: &Module) -> Option<CodeSet>
    ensures codes { result ≡ if_missing (option_map (λ t. t.now) there.entry) (module_text «module».now) }
    ensures some { IfSome result (λ codes. codes ≢ []) }
{
    if is_there(there, &module.path) {
        None
    } else {
        Some(module_unknown())
    }
}

/// The codes of a module that is not there, by its number.
#[tactic(auto, unfolding(crate::specs::Missing::missing_at))]
fn missing_at(there: Option<&NameList>, stack: &Stack, number: usize) -> Option<CodeSet>
    ensures codes { result ≡ missing_at (option_map (λ t. t.now) there.entry) stack.now number }
    ensures some { IfSome result (λ codes. codes ≢ []) }
{
    match stack.module(number) {
        Some(module) => if_missing(there, module),
        None => None,
    }
}

/// Sets the codes of the modules that are not there: each answers `module_unknown` alone. The other modules keep theirs.
///
/// `there` has the paths at which a module is there, as rules write them; `None` if that is not known, and then each is taken to be
/// there.
pub fn set_missing(there: Option<&NameList>, stack: &Stack, known: &mut Known)
    ensures { (codes : ℕ → List ℕ) → Allows (module_count stack.now) known.old codes
        → Allows (module_count stack.now) known.new (where_there (option_map (λ t. t.now) there.entry) stack.now codes) }
{
    for index in 0..stack.modules() {
        replace_codes(known, index + 1, missing_at(there, stack, index + 1));
    }
}

//! Codes that are set for modules in place of those that they had.

ghost use Rattle.std.specs.Prelude.{◌≡◌, ◌≢◌, ◌==◌, ◌<◌, ◌≤◌, [], IfSome, if◌then◌else◌, ℕ};
ghost use Rattle.std.specs.Option.{option_map_or};
ghost use Rattle.pam_codes.specs.Set.{is_in};
ghost use Rattle.pam_conf.specs.declared.stack.TheConstants.{MAX_MODULES};
ghost use Rattle.pam_paths.specs.Known.{may_answer};

use pam_codes::CodeSet;
use pam_paths::Known;

/// Sets the codes of the module with this number in place of those that it had, if there are some to set.
pub fn replace_codes(known: &mut Known, number: usize, codes: Option<CodeSet>)
    requires first { 1 ≤ number }
    requires last { number ≤ MAX_MODULES }
    requires some { IfSome codes (λ codes. codes ≢ []) }
    ensures { (n code : ℕ) → 1 ≤ n → n ≤ MAX_MODULES → code < 31 → may_answer known.new n code
        ≡ (if n == number then option_map_or (is_in code) codes (may_answer known.old n code) else may_answer known.old n code) }
{
    if let Some(codes) = codes {
        // A set says with its length that its codes are in order.
        let _count = codes.len();
        known.set(number, codes);
    }
}

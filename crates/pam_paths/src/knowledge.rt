//! Knowledge of the answers of modules.

ghost use Rattle.std.specs.Prelude.{◌≡◌, ◌≢◌, ◌≤◌, ◌<◌, ◌==◌, ◌-◌, [], if◌then◌else◌, slice_index_or, ℕ};
ghost use Rattle.pam_codes.specs.Set.{codes_where};
ghost use Rattle.pam_paths.specs.Known.{answers_by};

use pam_codes::CodeSet;
use pam_dispatch::MAX_MODULES;

/// Knowledge of the answers of modules.
pub trait Knowledge {
    ghost use Rattle.pam_conf.specs.declared.stack.TheConstants.{MAX_MODULES};
    ghost use Rattle.std.specs.Prelude.{ℕ, Bool, true, ◌≡◌, ◌<◌, ◌≤◌};

    /// Whether the module with this number may answer a code.
    ghost allows: { Self → ℕ → ℕ → Bool };

    /// The codes that the module with this number may answer.
    fn allowed(&self, number: usize) -> CodeSet
        ensures { result ≡ codes_where (allows self.now number) };

    /// Each module may answer some code.
    ghost lawful: { (known : Self) (number : ℕ) → 1 ≤ number → number ≤ MAX_MODULES → (code : ℕ) × (code < 31) × (allows known number code ≡ true) };
}

/// No knowledge: every module may answer every code.
#[derive(Clone, Copy, Debug, Default, PartialEq, Eq)]
pub struct Free;

impl Knowledge for Free {
    ghost use Rattle.std.specs.Prelude.{refl, true};
    ghost use Rattle.std.proofs.Common.{lit<};

    ghost allows = { λ known number code. true };

    ghost lawful = { λ known number first last. (0, lit< tt, refl) };

    fn allowed(&self, number: usize) -> CodeSet {
        CodeSet::all()
    }
}

/// The codes that each module may answer: every code for a module that was not set.
#[derive(Clone, Copy, Debug)]
pub struct Known {
    /// By the number of the module less 1; an empty set means every code.
    sets: [CodeSet; MAX_MODULES],
}

impl Default for Known {
    ghost use Rattle.pam_paths.specs.Known.{KnowsNothing};

    ghost is_default = { λ k. KnowsNothing k };

    fn default() -> Known {
        Known::new()
    }
}

impl Known {
    ghost use Rattle.std.specs.Prelude.{◌≡◌, ◌≢◌, ◌≤◌, ◌==◌, ℕ, [], if◌then◌else◌};
    ghost use Rattle.pam_paths.specs.Known.{KnowsNothing, set_for};

    /// No module is set.
    pub fn new() -> Known
        ensures { KnowsNothing result }
    {
        Known {
            sets: [CodeSet::empty(); MAX_MODULES],
        }
    }

    /// Sets the codes that the module with this number may answer, in place of earlier ones.
    pub fn set(&mut self, number: usize, codes: CodeSet)
        requires first { 1 ≤ number }
        requires last { number ≤ MAX_MODULES }
        requires some { codes ≢ [] }
        ensures { (n : ℕ) → 1 ≤ n → n ≤ MAX_MODULES → set_for self.new n ≡ (if n == number then codes else set_for self.old n) }
    {
        put_set(&mut self.sets, number, codes);
    }
}

impl Knowledge for Known {
    ghost use Rattle.pam_paths.specs.Known.{may_answer};
    ghost use Rattle.pam_paths.specs.inner.Known.{some_code};

    ghost allows = { may_answer };

    ghost lawful = { λ known number first last. some_code known number };

    fn allowed(&self, number: usize) -> CodeSet {
        known_codes(&self.sets, number.saturating_sub(1))
    }
}

/// Stores the set of the module with this number.
fn put_set(sets: &mut [CodeSet; MAX_MODULES], number: usize, codes: CodeSet)
    requires first { 1 ≤ number }
    requires last { number ≤ MAX_MODULES }
    ensures { (n : ℕ) → 1 ≤ n → slice_index_or sets.new (n - 1) [] ≡ (if n == number then codes else slice_index_or sets.old (n - 1) []) }
{
    sets[number - 1] = codes;
}

/// The set at `index`; every code if it is empty, or if there is none.
fn known_codes(sets: &[CodeSet; MAX_MODULES], index: usize) -> CodeSet
    ensures { result ≡ codes_where (answers_by (slice_index_or sets.now index [])) }
{
    if index >= MAX_MODULES {
        return CodeSet::all();
    }
    let codes = sets[index];
    if codes.len() == 0 {
        return CodeSet::all();
    }
    codes
}

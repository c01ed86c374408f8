//! The answers by which an event happens.

ghost use Rattle.std.specs.Prelude.{◌≡◌, ◌≤◌, ◌==◌, ◌||◌, [], if◌then◌else◌, ℕ};
ghost use Rattle.pam_codes.specs.Set.{codes_where, is_in};
ghost use Rattle.pam_policy.specs.search.Marks.{codes_at};

use pam_codes::{Code, CodeSet};
use pam_dispatch::MAX_MODULES;

/// An event of a stack: for each module, by its number, the answers by which it happens there.
#[derive(Clone, Copy, Debug)]
pub struct Marks {
    /// By the number of the module less 1.
    codes: [CodeSet; MAX_MODULES],
}

impl Default for Marks {
    ghost use Rattle.std.specs.Prelude.{◌≡◌, ℕ, []};
    ghost use Rattle.pam_policy.specs.search.Marks.{codes_at};

    ghost is_default = { λ marks. (number : ℕ) → codes_at marks number ≡ [] };

    fn default() -> Marks {
        Marks::new()
    }
}

impl Marks {
    /// An event that never happens.
    pub fn new() -> Marks
        ensures { (number : ℕ) → codes_at result number ≡ [] }
    {
        Marks {
            codes: [CodeSet::empty(); MAX_MODULES],
        }
    }

    /// Lets the event happen by these answers of the module with this number too.
    pub fn add(&mut self, number: usize, codes: CodeSet)
        requires first { 1 ≤ number }
        requires last { number ≤ MAX_MODULES }
        ensures { (n : ℕ) → 1 ≤ n → codes_at self.new n
            ≡ (if n == number then codes_where (λ c. is_in c (codes_at self.old n) || is_in c codes) else codes_at self.old n) }
    {
        let index = number - 1;
        self.codes[index] = self.codes[index].union(codes);
    }

    /// The answers of the module with this number by which the event happens.
    pub fn codes(&self, number: usize) -> CodeSet
        ensures { result ≡ codes_at self.now number }
    {
        let index = number.saturating_sub(1);
        if index >= MAX_MODULES {
            return CodeSet::empty();
        }
        self.codes[index]
    }

    /// Whether the event happens by this answer of the module with this number.
    pub(crate) fn have(&self, number: usize, code: Code) -> bool
        ensures { result ≡ is_in code (codes_at self.now number) }
    {
        self.codes(number).contains(code)
    }
}

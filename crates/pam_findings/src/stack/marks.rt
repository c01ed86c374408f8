//! Marks of modules.

ghost use Rattle.std.specs.Prelude.{◌≡◌, ℕ, ◌≤◌, ◌==◌, ◌||◌};
ghost use Rattle.pam_conf.specs.declared.stack.TheConstants.{MAX_MODULES};
ghost use Rattle.pam_findings.specs.stack.inner.Marks.{mark_of};

use pam_dispatch::MAX_MODULES;

/// A mark for each module, by its number less 1.
pub(crate) type Marks = [bool; MAX_MODULES];

/// Whether the module with this number is marked.
pub(crate) fn is_marked(marks: &Marks, number: usize) -> bool
    ensures { result ≡ mark_of marks.now number }
{
    let index = number.saturating_sub(1);
    if index >= MAX_MODULES {
        return false;
    }
    marks[index]
}

/// Marks the module with this number.
pub(crate) fn mark(marks: &mut Marks, number: usize)
    requires first { 1 ≤ number }
    requires last { number ≤ MAX_MODULES }
    ensures { (n : ℕ) → 1 ≤ n → mark_of marks.new n ≡ (n == number || mark_of marks.old n) }
{
    marks[number - 1] = true;
}

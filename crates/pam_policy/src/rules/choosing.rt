//! The first of two runs.

ghost use Rattle.std.specs.Prelude.{◌≡◌};
ghost use Rattle.pam_policy.specs.rules.inner.Choosing.{comes_before, first_of, is_before};

use crate::search::{Run, Step, rank};

/// Whether steps come before others that are as many: where they first differ, the answer is shown before the other.
fn comes_before(steps: &[Step], others: &[Step]) -> bool
    ensures { result ≡ comes_before steps.now others.now }
{
    for index in 0..steps.len().min(others.len()) {
        let one = rank(steps[index].code);
        let other = rank(others[index].code);
        if one < other {
            return true;
        }
        if other < one {
            return false;
        }
    }
    false
}

/// Whether a run asks fewer modules than another, or as many with answers that come first.
fn is_before(run: &Run, other: &Run) -> bool
    ensures { result ≡ is_before run.now other.now }
{
    let count = run.steps.len();
    let others = other.steps.len();
    count < others || (count == others && comes_before(&run.steps, &other.steps))
}

/// The first of two runs, if there is one.
pub(crate) fn first_of(one: Option<Run>, other: Option<Run>) -> Option<Run>
    ensures { result ≡ first_of one other }
{
    match one {
        None => other,
        Some(a) => match other {
            None => Some(a),
            Some(b) => if is_before(&b, &a) { Some(b) } else { Some(a) },
        },
    }
}

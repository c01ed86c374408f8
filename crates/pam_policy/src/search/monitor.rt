//! What is watched on a run, module after module.

ghost use Rattle.std.specs.Prelude.{◌≡◌, ◌≤◌, ◌<◌, IfSome, length};
ghost use Rattle.pam_policy.specs.declared.search.monitor.TheConstants.{STATES};
ghost use Rattle.pam_policy.specs.declared.search.query.TheConstants.{MAX_TOGETHER};
ghost use Rattle.pam_policy.specs.search.inner.Monitor.{after, first_state, is_good, missing_after};

use crate::search::marks::Marks;
use crate::search::query::{MAX_TOGETHER, Query};
use pam_codes::Code;

/// The most states of a query: which of its events are missing.
pub(crate) const STATES: usize = 1 << MAX_TOGETHER;

/// The state in which nothing is missing.
const DONE: u8 = 0;

/// The state of a query of events in order in which the second has not happened.
const WAITING: u8 = 1;

/// Which of these events are missing after an answer, if `missing` were before. Each has a binary digit, the first the last one.
fn missing_after(wanted: &[Marks], number: usize, code: Code, missing: u8) -> u8
    requires { length wanted.now ≤ MAX_TOGETHER }
    ensures { result ≡ missing_after wanted.now number code missing }
{
    let mut left = 0;
    let mut bit = 1;
    let mut digits = missing;
    for marks in wanted {
        if !marks.have(number, code) {
            left += bit * (digits % 2);
        }
        digits /= 2;
        bit *= 2;
    }
    left
}

impl Query {
    /// The state before the first answer. Each state is at most this.
    pub(crate) fn first_state(&self) -> u8
        ensures value { result ≡ first_state self.now }
        ensures few { result < STATES }
    {
        match self {
            Query::Together { wanted, .. } => (1 << wanted.len()) - 1,
            Query::Before { .. } => WAITING,
        }
    }

    /// The state after an answer of the module with this number; `None` if the answer is not wanted.
    pub(crate) fn after(&self, number: usize, code: Code, state: u8) -> Option<u8>
        requires { state ≤ first_state self.now }
        ensures value { result ≡ after self.now number code state }
        ensures few { IfSome result (λ next. next ≤ first_state self.now) }
    {
        match self {
            Query::Together { wanted, barred, .. } => {
                if barred.have(number, code) {
                    return None;
                }
                Some(missing_after(wanted.as_slice(), number, code, state))
            }
            Query::Before { first, second } => {
                if state == DONE || second.have(number, code) {
                    return Some(DONE);
                }
                if first.have(number, code) {
                    return None;
                }
                Some(WAITING)
            }
        }
    }

    /// Whether a run that decides this code may end in a state.
    pub(crate) fn is_good(&self, state: u8, decision: Code) -> bool
        ensures { result ≡ is_good self.now state decision }
    {
        match self {
            Query::Together { decisions, .. } => state == DONE && decisions.contains(decision),
            Query::Before { .. } => state == DONE,
        }
    }
}

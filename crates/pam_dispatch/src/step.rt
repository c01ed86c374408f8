//! The outcome of an answer, and the step that it makes.

ghost use Rattle.std.specs.Prelude.{◌≡◌, ◌-◌, nat_le, if◌then◌else◌};
ghost use Rattle.pam_dispatch.specs.State.{act, left_of, left_unless_positive, state_with, perm_denied};

use crate::place::Place;
use crate::state::{Impression, State};
use pam_codes::{Action, Code};

/// The outcome of an answer: the new state, and the number of items left in the module's own list.
#[derive(Clone, Copy, Debug, Default, PartialEq, Eq)]
pub struct Outcome {
    pub state: State,
    pub left: usize,
}

impl Outcome {
    /// The outcome of `action` for `code` in `state`; the list was entered in `entry`, and `items_after` items of it follow.
    pub(crate) fn of(
        action: Action,
        code: Code,
        state: State,
        entry: State,
        items_after: usize,
    ) -> Outcome
        ensures state { result.state ≡ act action code state entry items_after }
        ensures left { result.left ≡ left_of action code state items_after }
    {
        match action {
            Action::Ignore => Outcome {
                state,
                left: items_after,
            },
            Action::Ok => Outcome {
                state: state.accept(code),
                left: items_after,
            },
            Action::Done => done(state.accept(code), items_after),
            Action::Bad => Outcome {
                state: state.refuse(code),
                left: items_after,
            },
            Action::Die => Outcome {
                state: state.refuse(code),
                left: 0,
            },
            Action::Reset => Outcome {
                state: entry,
                left: items_after,
            },
            Action::Jump(items) => jump(items as usize, state, items_after),
        }
    }
}

/// The outcome of `done`, after which the state is `state`.
fn done(state: State, items_after: usize) -> Outcome
    ensures state { result.state ≡ state }
    ensures left { result.left ≡ left_unless_positive state.impression items_after }
{
    let left = match state.impression {
        Impression::Positive => 0,
        Impression::Undef | Impression::Negative => items_after,
    };
    Outcome { state, left }
}

/// The outcome of a jump. One past the end of the list fails as perm_denied.
fn jump(items: usize, state: State, items_after: usize) -> Outcome
    ensures state { result.state ≡ (if nat_le items items_after then state else state_with Impression.Negative perm_denied) }
    ensures left { result.left ≡ (if nat_le items items_after then items_after - items else 0) }
{
    if items <= items_after {
        return Outcome {
            state,
            left: items_after - items,
        };
    }
    Outcome {
        state: State {
            impression: Impression::Negative,
            status: Code::PERM_DENIED,
        },
        left: 0,
    }
}

/// A step of a run.
#[derive(Clone, Copy, Debug)]
pub struct Step {
    pub(crate) place: Place,
    pub(crate) action: Action,
    pub(crate) outcome: Outcome,
}

impl Step {
    /// The place after the step.
    pub fn place(&self) -> Place
        ensures { result ≡ self.now.place }
    {
        self.place
    }

    /// The action of the answer in the control of the module.
    pub fn action(&self) -> Action
        ensures { result ≡ self.now.action }
    {
        self.action
    }

    /// The outcome of the answer.
    pub fn outcome(&self) -> Outcome
        ensures { result ≡ self.now.outcome }
    {
        self.outcome
    }

    /// The number of items left in the module's own list.
    pub fn left(&self) -> usize
        ensures { result ≡ self.now.outcome.left }
    {
        self.outcome.left
    }
}

//! A module that is asked.

ghost use Rattle.std.specs.Prelude.{◌≡◌, Some, slice_get};
ghost use Rattle.pam_dispatch.specs.Runs.{outcome_of, situation_of};
ghost use Rattle.pam_dispatch.specs.Situations.{entry_told, representative, status_told};
ghost use Rattle.pam_dispatch.specs.declared.state.Impression.TheVariants.{Negative};

use crate::state::{Impression, State};
use crate::step::Outcome;
use pam_codes::{Action, Code, Control};
use std::marker::Model;

/// What the outcome of an answer depends on, besides the module's control.
#[derive(Clone, Copy, Debug, PartialEq, Eq)]
pub struct Situation {
    pub(crate) state: State,
    /// The state in which the module's list was entered.
    pub(crate) entry: State,
    pub(crate) items_after: usize,
}

/// The status as far as answers differ by it, for a module asked in `state`, whose list was entered in `entry`.
#[inline(always)]
fn status_told(state: State, entry: State) -> Code
    ensures { result ≡ status_told state.impression entry.impression state.status }
{
    match state.impression {
        Impression::Undef | Impression::Positive => state.status,
        Impression::Negative => failure_told(state.status, entry),
    }
}

/// The same once the stack has failed. Never inlined, so that other states take only a test.
#[inline(never)]
fn failure_told(status: Code, entry: State) -> Code
    ensures { result ≡ status_told Negative entry.impression status }
{
    match entry.impression {
        Impression::Negative => status,
        Impression::Undef | Impression::Positive if status == Code::PERM_DENIED =>
            Code::PERM_DENIED,
        Impression::Undef | Impression::Positive => Code::SUCCESS,
    }
}

/// The state in which a list was entered, as far as the answers of a module depend on it.
#[inline(always)]
fn entry_told(resets: bool, entry: State) -> State
    ensures { result ≡ entry_told resets entry }
{
    if resets { entry } else { State::start() }
}

impl Situation {
    /// The situation that represents all those in which the same answers of a module are alike; `resets` says whether its
    /// control has the action `reset`. After most failures its status is one and the same.
    #[inline(always)]
    pub fn representative(&self, resets: bool) -> Situation
        ensures { result ≡ representative resets self.now }
    {
        Situation {
            state: State {
                impression: self.state.impression,
                status: status_told(self.state, entry_told(resets, self.entry)),
            },
            entry: entry_told(resets, self.entry),
            ..*self
        }
    }
}

/// A module as it is asked: what the outcomes of its answers depend on.
#[derive(Debug, Drop)]
pub struct Question<'a> {
    pub(crate) module_number: usize,
    pub(crate) control: &'a Control,
    pub(crate) situation: Situation,
}

impl<'a> Model for Question<'a> {
    ghost use Rattle.pam_dispatch.specs.Runs.{Ask};

    ghost Value = { Ask };

    ghost view = { λ a. record {
      module_number = a.module_number;
      control = a.control.now;
      state = a.situation.state;
      entry = a.situation.entry;
      after = a.situation.items_after;
    } };
}

impl Question<'_> {
    /// The state of the run before the answer.
    pub fn state(&self) -> State
        ensures { result ≡ self.now.state }
    {
        self.situation.state
    }

    /// The situation in which it is asked.
    pub fn situation(&self) -> Situation
        ensures { result ≡ situation_of self.now }
    {
        self.situation
    }

    /// The outcome of `code`, whose action is `action`.
    pub fn outcome(&self, action: Action, code: Code) -> Outcome
        requires { slice_get self.now.control code ≡ Some action }
        ensures { outcome_of self.now code ≡ result }
    {
        let situation = &self.situation;
        Outcome::of(
            action,
            code,
            situation.state,
            situation.entry,
            situation.items_after,
        )
    }
}

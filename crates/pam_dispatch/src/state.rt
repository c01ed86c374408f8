//! The state of a run.

ghost use Rattle.std.specs.Prelude.{◌≡◌, IsTrue};
ghost use Rattle.pam_dispatch.specs.Alike.{looks_at_code, takes_refused, takes_accepted};
ghost use Rattle.pam_dispatch.specs.State.{start_state, accepted, impression_number, refused};
ghost use Rattle.pam_dispatch.specs.declared.state.Impression.TheVariants.{Negative};

use pam_codes::{Action, Code};
use std::hash::{Hash, Hasher};

/// The impression that the modules so far have made.
#[derive(Clone, Copy, Debug, PartialEq, Eq)]
pub enum Impression {
    Undef,
    Positive,
    Negative,
}

impl Impression {
    /// Its number: 0 for `Undef`, 1 for `Positive` and 2 for `Negative`.
    #[inline(always)]
    pub fn number(self) -> u8
        ensures { result ≡ impression_number self }
    {
        match self {
            Impression::Undef => 0,
            Impression::Positive => 1,
            Impression::Negative => 2,
        }
    }
}

/// The state of a run through a stack: pam.conf(5).
#[derive(Clone, Copy, Debug, PartialEq, Eq)]
pub struct State {
    pub impression: Impression,
    pub status: Code,
}

impl State {
    /// The state in which a run begins.
    pub(crate) fn start() -> State
        ensures { result ≡ start_state }
    {
        State {
            impression: Impression::Undef,
            status: Code::PERM_DENIED,
        }
    }

    /// Whether the status after `action` comes from the code of the answer, and not from this state alone.
    pub fn looks_at_code(self, action: Action) -> bool
        ensures { result ≡ looks_at_code action self }
    {
        match action {
            Action::Ignore | Action::Reset | Action::Jump(_) => false,
            Action::Ok | Action::Done => self.takes_accepted(),
            Action::Bad | Action::Die => self.takes_refused(),
        }
    }

    /// Whether the stack has failed.
    pub fn has_failed(self) -> bool
        ensures failed { IsTrue result → self.impression ≡ Negative }
        ensures only { self.impression ≡ Negative → IsTrue result }
    {
        match self.impression {
            Impression::Negative => true,
            Impression::Undef | Impression::Positive => false,
        }
    }

    /// Whether the code of `ok` or `done` becomes the status.
    fn takes_accepted(&self) -> bool
        ensures { result ≡ takes_accepted self.now.impression self.now.status }
    {
        match self.impression {
            Impression::Undef => true,
            Impression::Positive => self.status == Code::SUCCESS,
            Impression::Negative => false,
        }
    }

    /// Whether the code of `bad` or `die` becomes the status.
    fn takes_refused(&self) -> bool
        ensures { result ≡ takes_refused self.now.impression }
    {
        self.impression != Impression::Negative
    }

    /// The state after `ok` or `done` with this code.
    pub(crate) fn accept(self, code: Code) -> State
        ensures { result ≡ accepted self.impression self.status code }
    {
        if !self.takes_accepted() {
            return self;
        }
        State {
            impression: Impression::Positive,
            status: code,
        }
    }

    /// The state after `bad` or `die` with this code; ignore counts as perm_denied.
    pub(crate) fn refuse(self, code: Code) -> State
        ensures { result ≡ refused self.impression self.status code }
    {
        if !self.takes_refused() {
            return self;
        }
        State {
            impression: Impression::Negative,
            status: if code == Code::IGNORE {
                Code::PERM_DENIED
            } else {
                code
            },
        }
    }
}

/// A state is one number: places are looked up often.
impl Hash for State {
    ghost use Rattle.pam_dispatch.specs.Hashing.{state_input};
    ghost use Rattle.pam_dispatch.specs.inner.Hashing.{same-state_input};

    ghost hash_input = { state_input };

    ghost respects_eq = { same-state_input };

    fn hash<H: Hasher>(&self, state: &mut H) {
        let status = self.status.number();
        state.write_u8(status * 4 + self.impression.number());
    }
}

impl Default for State {
    ghost is_default = { λ s. s ≡ start_state };

    fn default() -> State {
        State::start()
    }
}

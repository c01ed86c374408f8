//! The decision of a stack.

ghost use Rattle.std.specs.Prelude.{◌≡◌};
ghost use Rattle.pam_dispatch.specs.Decision.{decision_of};

use crate::state::{Impression, State};
use pam_codes::Code;
use std::marker::Model;

/// The decision of a stack: the code that the application gets.
#[derive(Clone, Copy, Debug, PartialEq, Eq)]
pub struct Decision {
    code: Code,
}

impl Model for Decision {
    ghost use Rattle.std.specs.Prelude.{ℕ};

    ghost Value = { ℕ };

    ghost view = { λ d. d.code };

    ghost inverse = { λ n. record { code = n } };
}

impl Decision {
    /// The decision at the end of a run.
    pub(crate) fn of(state: State) -> Decision
        ensures { result ≡ decision_of state }
    {
        match state.impression {
            Impression::Positive => Decision { code: state.status },
            Impression::Undef | Impression::Negative if state.status == Code::SUCCESS => Decision {
                code: Code::PERM_DENIED,
            },
            Impression::Undef | Impression::Negative => Decision { code: state.status },
        }
    }

    /// The code of the decision.
    pub fn code(&self) -> Code
        ensures { result ≡ self.now }
    {
        self.code
    }
}

//! The places of a run.

ghost use Rattle.std.specs.Prelude.{◌≤◌};
ghost use Rattle.pam_dispatch.specs.declared.entered.TheConstants.{LISTS};

use crate::entered::{Entered, LISTS};
use crate::state::State;

/// A place of a run: at the module asked next, or at the end.
#[derive(Clone, Copy, Debug)]
pub struct Place {
    pub(crate) position: usize,
    pub(crate) entered: Entered,
    pub(crate) module_number: Option<u16>,
    pub(crate) state: State,
    pub(crate) depth: u8,
    pub ghost shallow: { depth ≤ LISTS },
}

/// The place of a stack without modules.
impl Default for Place {
    ghost use Rattle.std.specs.Prelude.{[]};
    ghost use Rattle.pam_dispatch.specs.Flat.{IsPlaceOf};

    ghost is_default = { λ p. IsPlaceOf [] p };

    #[tactic(auto, unfolding(crate::specs::Flat::IsPlaceOf))]
    fn default() -> Place {
        Place {
            position: 0,
            entered: Entered {
                states: [State::start(); LISTS],
            },
            module_number: None,
            state: State::start(),
            depth: 0,
        }
    }
}

impl Place {
    ghost use Rattle.std.specs.Prelude.{◌≡◌, List};
    ghost use Rattle.pam_dispatch.specs.declared.flat_item.FlatItem.{FlatItem};
    ghost use Rattle.pam_dispatch.specs.Flat.{IsPlaceOf, rest_of};
    ghost use Rattle.pam_dispatch.specs.Runs.{asked_module, state_in};

    /// The number of the module asked here; `None` at the end.
    pub fn module(&self) -> Option<usize>
        ensures { (program : List FlatItem) → IsPlaceOf program self.now → result ≡ asked_module (rest_of program self.now) }
    {
        match self.module_number {
            Some(number) => Some(usize::from(number)),
            None => None,
        }
    }

    /// The state of the run here.
    pub fn state(&self) -> State
        ensures { (program : List FlatItem) → IsPlaceOf program self.now → result ≡ state_in (rest_of program self.now) }
    {
        self.state
    }
}

//! The positions of a list of events in a sentence, and what each allows.

ghost use Rattle.std.specs.Prelude.{◌≡◌};
ghost use Rattle.pam_policy.specs.text.Lists.{allows, bare_codes, has_room, is_limited};

use crate::text::codes::{Codes, failures};
use crate::text::list::MAX_TOGETHER;
use pam_codes::CodeSet;

/// The word between the events of a list.
#[derive(Clone, Copy, Debug, PartialEq, Eq)]
pub(crate) enum Joint {
    Or,
    And,
}

/// The position of a list: the words before it.
#[derive(Clone, Copy, Debug, PartialEq, Eq)]
pub(crate) enum Place {
    Needs,
    Obeys,
    /// After `asks` or `always asks`, and after `before`.
    Asks,
    NeverOrCanAsk,
    With,
    Without,
}

impl Place {
    /// The codes by which an event of a bare name happens. `None` if they have to be given.
    pub(crate) fn bare_codes(self) -> Option<Codes>
        ensures { result ≡ bare_codes self }
    {
        match self {
            Place::Needs => Some(Codes::LetsGoOn),
            Place::Obeys => Some(Codes::Given(failures())),
            Place::Asks | Place::NeverOrCanAsk => Some(Codes::Given(CodeSet::all())),
            Place::With | Place::Without => None,
        }
    }

    /// Whether a list here can have this joint.
    pub(crate) fn allows(self, joint: Joint) -> bool
        ensures { result ≡ allows self joint }
    {
        match (self, joint) {
            (Place::Obeys, Joint::Or) => false,
            _ => true,
        }
    }

    fn is_limited(self, joint: Joint) -> bool
        ensures { result ≡ is_limited self joint }
    {
        match (self, joint) {
            (Place::NeverOrCanAsk | Place::With, Joint::And) => true,
            _ => false,
        }
    }

    /// Whether a list of this many events can have another one.
    pub(crate) fn has_room(self, joint: Joint, count: usize) -> bool
        ensures { result ≡ has_room self joint count }
    {
        !self.is_limited(joint) || count < MAX_TOGETHER
    }
}

//! How the decisions of two stacks differ.

ghost use Rattle.std.specs.Prelude.{◌≡◌};
ghost use Rattle.pam_compare.specs.Changes.{change_of};

use pam_codes::Code;

/// How the decision of a new stack differs from that of the old one.
#[derive(Clone, Copy, Debug, PartialEq, Eq)]
pub enum Change {
    /// Success, where it was a failure.
    Admits,
    /// A failure, where it was success.
    Refuses,
    /// Another failure.
    Tells,
}

impl Change {
    /// How the decision `new` differs from `old`; `None` if they are equal.
    pub fn of(old: Code, new: Code) -> Option<Change>
        ensures { result ≡ change_of old new }
    {
        if old == new {
            return None;
        }
        if new == Code::SUCCESS {
            return Some(Change::Admits);
        }
        if old == Code::SUCCESS {
            return Some(Change::Refuses);
        }
        Some(Change::Tells)
    }
}

//! The direction in which a listing is explored.

ghost use Rattle.std.specs.Prelude.{◌≡◌, ◌<◌, ◌≤◌, ℕ, IfNone, IfSome, IsTrue, false};
ghost use Rattle.pam_codes.specs.declared.code.TheConstants.{CODES};
ghost use Rattle.pam_codes.specs.Set.{is_in};
ghost use Rattle.pam_paths.specs.Directions.{past};
ghost use Rattle.pam_paths.specs.inner.Directions.{IsAhead, IsNearer, outset};

use pam_codes::{CODES, Code, CodeSet};

/// The direction in which a listing is explored.
#[derive(Clone, Copy, Debug, PartialEq, Eq)]
pub(crate) enum Direction {
    /// In the order of the least codes.
    Forward,
    /// In the reverse order.
    Backward,
}

impl Direction {
    /// The bound with every code ahead.
    pub(crate) fn outset(self) -> u8
        ensures value { result ≡ outset self }
        ensures range { result ≤ CODES }
    {
        match self {
            Direction::Forward => 0,
            Direction::Backward => CODES as u8,
        }
    }

    /// The bound with exactly the codes after `code` ahead.
    pub(crate) fn past(self, code: Code) -> u8
        ensures value { result ≡ past self code }
        ensures range { result ≤ CODES }
    {
        match self {
            Direction::Forward => code.number() + 1,
            Direction::Backward => code.number(),
        }
    }

    /// The first of `codes` that is ahead of `bound`.
    pub(crate) fn first(self, codes: CodeSet, bound: u8) -> Option<Code>
        requires { bound ≤ CODES }
        ensures found { IfSome result (λ found. IsAhead self bound found × (found < CODES) × IsTrue (is_in found codes)) }
        ensures nearest { IfSome result (λ found. (c : ℕ) → IsAhead self bound c → IsNearer self c found → is_in c codes ≡ false) }
        ensures none { IfNone result ((c : ℕ) → c < CODES → IsAhead self bound c → is_in c codes ≡ false) }
    {
        match self {
            Direction::Forward => codes.least_from(bound),
            Direction::Backward => codes.greatest_below(bound),
        }
    }
}

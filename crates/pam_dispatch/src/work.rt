//! The work of runs, in steps.

ghost use Rattle.std.specs.Prelude.{◌≡◌, ◌+◌, ◌-◌, ◌^◌, min};

use std::marker::Model;

/// A count of steps.
#[derive(Debug, Drop)]
pub struct Work {
    steps: u64,
}

impl Model for Work {
    ghost use Rattle.std.specs.Prelude.{ℕ};

    ghost Value = { ℕ };

    ghost view = { λ w. w.steps };
}

impl Work {
    /// Returns a count of 0.
    pub fn new() -> Work
        ensures { result ≡ 0 }
    {
        Work { steps: 0 }
    }

    /// The number of steps. Saturates at `u64::MAX`.
    pub fn steps(&self) -> u64
        ensures { result ≡ self.now }
    {
        self.steps
    }

    pub(crate) fn count(&mut self)
        ensures { self.new ≡ min (self.old + 1) (2 ^ 64 - 1) }
    {
        self.steps = self.steps.saturating_add(1);
    }
}

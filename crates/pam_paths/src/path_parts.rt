//! Paths that are made step by step.

ghost use Rattle.std.specs.Prelude.{◌≡◌, ◌<◌, ◌≤◌, ◌++◌, ◌∷◌, [], length, take};
ghost use Rattle.pam_conf.specs.declared.stack.TheConstants.{MAX_MODULES};

use crate::path::{Path, PathStep};
use pam_codes::{Code, CodeSet};

impl Path {
    /// A path without steps, to which steps can be added.
    pub fn new() -> Path
        ensures { result.steps ≡ [] }
    {
        Path::empty()
    }

    /// Keeps the first `count` steps.
    pub fn truncate(&mut self, count: usize)
        ensures steps { self.new.steps ≡ take count self.old.steps }
        ensures decision { self.new.decision ≡ self.old.decision }
    {
        self.steps.truncate(count);
        self.tail = 0;
    }

    /// Adds a step at the end: the module with this number is asked, and its answer is in `class`.
    pub fn push(&mut self, number: usize, class: CodeSet)
        requires room { length self.old.steps < MAX_MODULES }
        requires last { number ≤ MAX_MODULES }
        ensures steps { self.new.steps ≡ self.old.steps ++ record { module_number = number; class = class } ∷ [] }
        ensures decision { self.new.decision ≡ self.old.decision }
    {
        self.tail = 0;
        self.steps.push(PathStep {
            number: number as u16,
            class,
        });
    }

    /// Makes `decision` the decision of the stack.
    pub fn decide(&mut self, decision: Code)
        ensures steps { self.new.steps ≡ self.old.steps }
        ensures decision { self.new.decision ≡ decision }
    {
        self.decision = decision;
    }
}

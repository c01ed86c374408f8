//! The paths through a stack.

ghost use Rattle.std.specs.Prelude.{◌≡◌, ◌-◌, ◌<◌, ◌≤◌, drop, length, map};
ghost use Rattle.pam_paths.specs.CursorText.{IsCursor};
ghost use Rattle.pam_paths.specs.Paths.{key};
ghost use Rattle.pam_paths.specs.Tail.{IsTail};

use crate::bounded_list::BoundedList;
use crate::cursor::Cursor;
use pam_codes::{Code, CodeSet};
use std::marker::Model;

/// A module asked on a path, with the class of its answer.
#[derive(Clone, Copy, Debug)]
pub struct PathStep {
    pub(crate) number: u16,
    pub(crate) class: CodeSet,
}

/// The step of no module: its number is 0, and no code is in its class.
impl Default for PathStep {
    ghost use Rattle.std.specs.Prelude.{◌≡◌, []};
    ghost use Rattle.pam_paths.specs.Steps.{step_seen};

    ghost is_default = { λ s. step_seen s ≡ record { module_number = 0; class = [] } };

    fn default() -> PathStep {
        PathStep {
            number: 0,
            class: CodeSet::empty(),
        }
    }
}

impl PathStep {
    /// The number of the module, from 1.
    pub fn number(&self) -> usize
        ensures { result ≡ self.now.number }
    {
        usize::from(self.number)
    }

    /// The class of the answer: the codes after which the run continues in the same way.
    pub fn class(&self) -> CodeSet
        ensures { result ≡ self.now.class }
    {
        self.class
    }
}

/// A path through a stack: the modules asked, each with the class of its answer, and the decision.
#[derive(Drop)]
pub struct Path {
    pub(crate) steps: BoundedList<PathStep>,
    /// The number of last steps at which the answers no longer matter.
    pub(crate) tail: usize,
    pub(crate) decision: Code,
}

impl Model for Path {
    ghost use Rattle.std.specs.Prelude.{◌≤◌, length, map};
    ghost use Rattle.pam_paths.specs.Paths.{PathValue};

    ghost Value = { PathValue };

    ghost use Rattle.pam_paths.specs.Steps.{step_seen};

    ghost view = { λ p. record { steps = map step_seen p.steps.items; decision = p.decision } };

    ghost use Rattle.pam_paths.specs.inner.Tail.{EndsInTail};

    ghost invariant = { λ p. EndsInTail p.tail (map step_seen p.steps.items) };
}

impl Path {
    ghost use Rattle.std.specs.Prelude.{[]};
    ghost use Rattle.pam_paths.specs.Steps.{step_seen};

    /// A path without steps.
    pub(crate) fn empty() -> Path
        ensures { result.steps ≡ [] }
    {
        Path {
            steps: BoundedList::new(),
            tail: 0,
            decision: Code::SUCCESS,
        }
    }

    /// The same path again.
    pub fn copied(&self) -> Path
        ensures { result ≡ self.now }
    {
        let mut steps = BoundedList::new();
        steps.extend(self.steps.as_slice());
        Path {
            steps,
            tail: self.tail,
            decision: self.decision,
        }
    }

    /// The modules asked, in order.
    pub fn steps(&self) -> &[PathStep]
        ensures { map step_seen result.now ≡ self.now.steps }
    {
        self.steps.as_slice()
    }

    /// The last steps, from one on after which no answer changes the path. Each has every code in its class.
    pub fn tail(&self) -> &[PathStep]
        ensures within { length result.now ≤ length self.now.steps }
        ensures last { map step_seen result.now ≡ drop (length self.now.steps - length result.now) self.now.steps }
        ensures tail { IsTail (map step_seen result.now) }
    {
        let steps = self.steps.as_slice();
        &steps[steps.len() - self.tail..]
    }

    /// The decision of the stack.
    pub fn decision(&self) -> Code
        ensures { result ≡ self.now.decision }
    {
        self.decision
    }

    /// The cursor of this path: the least codes of its classes.
    pub fn cursor(&self) -> Cursor
        ensures key { result ≡ key self.now }
        ensures cursor { IsCursor result }
    {
        Cursor::of_steps(self.steps.as_slice())
    }
}

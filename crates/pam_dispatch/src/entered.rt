//! The states in which the open lists were entered.

ghost use Rattle.std.specs.Prelude.{◌≡◌, ◌<◌, IsTrue, List, min, slice_index_or, slice_set, take};
ghost use Rattle.pam_dispatch.specs.declared.entered.TheConstants.{LISTS};
ghost use Rattle.pam_dispatch.specs.declared.flat_item.FlatItem.{FlatItem};
ghost use Rattle.pam_dispatch.specs.inner.ReadLevels.{AreReadLevels};
ghost use Rattle.pam_dispatch.specs.Representatives.{read_states};

use crate::read_levels::ReadLevels;
use crate::state::State;

/// The maximum number of lists open at once.
pub(crate) const LISTS: usize = 16;

/// The states in which the open lists were entered, outermost first.
#[derive(Clone, Copy, Debug, PartialEq, Eq)]
pub struct Entered {
    pub(crate) states: [State; LISTS],
}

/// Of the first `count` lists, keeps the states of those at some levels; each other one becomes the state in which a run begins.
fn keep_levels(states: &mut [State; LISTS], count: usize, levels: &ReadLevels)
    ensures { (rest : List FlatItem) → AreReadLevels rest levels.now
        → take (min count LISTS) states.new ≡ take (min count LISTS) (read_states 0 rest states.old) }
{
    for level in 0..count.min(LISTS) {
        if !levels[level] {
            states[level] = State::start();
        }
    }
}

/// Whether the first `count` states in `kept` are those that `keep_levels` makes of `states`.
#[inline(always)]
fn are_kept(
    kept: &[State; LISTS],
    states: &[State; LISTS],
    count: usize,
    levels: &ReadLevels,
) -> bool
    ensures { (rest : List FlatItem) → AreReadLevels rest levels.now → IsTrue result
        → take (min count LISTS) kept.now ≡ take (min count LISTS) (read_states 0 rest states.now) }
{
    for level in 0..count.min(LISTS) {
        let state = if levels[level] {
            states[level]
        } else {
            State::start()
        };
        if kept[level] != state {
            return false;
        }
    }
    true
}

impl Entered {
    ghost use Rattle.pam_dispatch.specs.State.{start_state};

    /// The state in which the list at `level` was entered.
    pub(crate) fn at(&self, level: usize) -> State
        requires { level < LISTS }
        ensures { result ≡ slice_index_or self.now.states level start_state }
    {
        self.states[level]
    }

    /// Of the first `count` lists, the states of those at some levels; for each other one the state in which a run begins.
    pub(crate) fn at_levels(&self, count: usize, levels: &ReadLevels) -> Entered
        ensures { (rest : List FlatItem) → AreReadLevels rest levels.now
            → take (min count LISTS) result.states ≡ take (min count LISTS) (read_states 0 rest self.now.states) }
    {
        let mut kept = *self;
        keep_levels(&mut kept.states, count, levels);
        kept
    }

    /// Whether the states of the first `count` lists are those that `at_levels` keeps of `other`.
    #[inline(always)]
    pub(crate) fn are_at_levels(&self, other: &Entered, count: usize, levels: &ReadLevels) -> bool
        ensures { (rest : List FlatItem) → AreReadLevels rest levels.now → IsTrue result
            → take (min count LISTS) self.now.states ≡ take (min count LISTS) (read_states 0 rest other.now.states) }
    {
        are_kept(&self.states, &other.states, count, levels)
    }

    /// Enters the list at `level` in this state.
    pub(crate) fn enter(&mut self, level: usize, state: &State)
        requires { level < LISTS }
        ensures { self.new.states ≡ slice_set self.old.states level state.now }
    {
        self.states[level] = *state;
    }
}

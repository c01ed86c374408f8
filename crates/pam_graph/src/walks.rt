//! The walks of a graph that meet a goal, one after another.

ghost use Rattle.std.specs.Prelude.{◌≡◌, ◌≢◌, ◌-◌, ◌≤◌, ◌∷◌, ◌++◌, [], All, IfNone, IfOk, IfSome, MatchOption, None, length, map, slice_get, take};
ghost use Rattle.pam_conf.specs.declared.stack.TheConstants.{MAX_MODULES};
ghost use Rattle.pam_graph.specs.Frames.{ahead, along, coming, ordered, step_in, under};
ghost use Rattle.pam_graph.specs.inner.Frames.{AreFirstSteps, AreFrames, IsExploring, IsSearch};
ghost use Rattle.pam_graph.specs.Goals.{meeting};
ghost use Rattle.pam_graph.specs.Order.{IsAbove, numbers_of};
ghost use Rattle.pam_graph.specs.inner.Parts.{part};
ghost use Rattle.pam_graph.specs.Walks.{walks};
ghost use Rattle.pam_paths.specs.Pages.{after, before};

use crate::direction::Direction;
use crate::frames::{Frame, Frames, Search, Way};
use crate::goal::Goal;
use crate::graph::Graph;
use crate::tally::{Tally, tallies};
use arrayvec::ArrayVec;
use pam_paths::{Cursor, Path};
use std::alloc::{AllocError, Global};
use std::marker::Model;

/// An iterator over the walks of a graph that meet a goal.
#[derive(Drop)]
pub struct Walks<'a> {
    graph: &'a Graph,
    goal: Goal,
    direction: Direction,
    /// The numbers of the walks from each node on.
    tallies: Vec<Tally>,
    /// Where the next walks lead on from, after the steps of the frames, if it is no edge of theirs.
    pending: Option<Way>,
    /// The nodes on the walk followed last.
    frames: Frames,
    /// The walk followed last.
    path: Path,
}

impl<'a> Model for Walks<'a> {
    ghost use Rattle.pam_graph.specs.Frames.{coming};
    ghost use Rattle.pam_graph.specs.inner.Frames.{AreFirstSteps, IsExploring};
    ghost use Rattle.pam_graph.specs.inner.Tallies.{tallies_of};
    ghost use Rattle.pam_graph.specs.WalksLeft.{WalksLeft};
    ghost use Rattle.std.specs.Prelude.{◌≡◌, []};

    ghost Value = { WalksLeft };

    ghost view = { λ w. record {
      coming = coming w.direction w.goal w.graph.now.nodes w.pending w.frames.items;
      path = w.path;
    } };

    ghost invariant = { λ w. IsExploring w.graph.now.nodes w.pending w.frames.items × AreFirstSteps w.frames.items w.path.steps
        × (w.tallies.items ≡ tallies_of w.goal w.graph.now.nodes) };
}

impl Search<'_> {
    /// Where the next walk leads on from, after the steps of `frames`; `None` if no wanted walk is left.
    fn go_on(&self, pending: Option<Way>, frames: &mut Frames) -> Option<Way>
        requires search { IsSearch self.now }
        requires exploring { IsExploring self.now.nodes.now pending frames.old.items }
        ensures none { IfNone result (coming self.now.direction self.now.goal.now self.now.nodes.now pending frames.old.items ≡ []) }
        ensures emptied { IfNone result (frames.new.items ≡ []) }
        ensures frames { AreFrames self.now.nodes.now 0 frames.new.items }
        ensures walks { IfSome result (λ way. coming self.now.direction self.now.goal.now self.now.nodes.now pending frames.old.items
            ≡ under frames.new.items (along self.now.direction self.now.goal.now self.now.nodes.now way)
            ++ ahead self.now.direction self.now.goal.now self.now.nodes.now frames.new.items) }
        ensures wanted { IfSome result (λ way. along self.now.direction self.now.goal.now self.now.nodes.now way ≢ []) }
        ensures above { IfSome result (λ way. IsAbove (numbers_of self.now.nodes.now) (length frames.new.items) way.target) }
        ensures earlier { take (length frames.new.items - 1) frames.new.items ≡ take (length frames.new.items - 1) frames.old.items }
    {
        match self.begin(pending) {
            Some(way) => Some(way),
            None => self.advance(frames),
        }
    }

    /// Makes `path` the next walk. Returns the number of its first steps that it shares with the walk before it; `None` if no
    /// wanted walk is left, and then `path` has no steps.
    fn follow(&self, pending: Option<Way>, frames: &mut Frames, path: &mut Path) -> Option<usize>
        requires search { IsSearch self.now }
        requires exploring { IsExploring self.now.nodes.now pending frames.old.items }
        requires steps { AreFirstSteps frames.old.items path.old.steps }
        ensures exploring { IsExploring self.now.nodes.now None frames.new.items }
        ensures steps { AreFirstSteps frames.new.items path.new.steps }
        ensures none { IfNone result (coming self.now.direction self.now.goal.now self.now.nodes.now pending frames.old.items ≡ []) }
        ensures stays { IfNone result (coming self.now.direction self.now.goal.now self.now.nodes.now None frames.new.items ≡ []) }
        ensures path { IfSome result (λ _. coming self.now.direction self.now.goal.now self.now.nodes.now pending frames.old.items
            ≡ path.new ∷ coming self.now.direction self.now.goal.now self.now.nodes.now None frames.new.items) }
        ensures no_steps { IfNone result (path.new.steps ≡ []) }
        ensures shared { IfSome result (λ shared. take shared path.new.steps ≡ take shared path.old.steps) }
    {
        let Some(way) = self.go_on(pending, frames) else {
            path.truncate(0);
            return None;
        };
        let shared = shared_count(path.steps().len(), frames.len());
        let decision = self.descend(way, frames);
        path.truncate(shared);
        push_steps(frames.as_slice(), shared, path);
        path.decide(decision);
        Some(shared)
    }
}

/// The number of first steps that stay, of `steps` steps, if only the last of `frames` frames may have changed.
fn shared_count(steps: usize, frames: usize) -> usize
    ensures within { result ≤ steps }
    ensures unchanged { result ≤ frames - 1 }
{
    steps.min(frames.saturating_sub(1))
}

/// Adds the steps of the frames after the first `shared`.
fn push_steps(frames: &[Frame], shared: usize, path: &mut Path)
    requires few { length frames.now ≤ MAX_MODULES }
    requires numbers { All (λ frame. frame.module_number ≤ MAX_MODULES) frames.now }
    requires within { shared ≤ length frames.now }
    requires same { path.old.steps ≡ take shared (map step_in frames.now) }
    ensures { path.new.steps ≡ map step_in frames.now }
{
    for index in shared..frames.len() {
        let frame = &frames[index];
        path.push(frame.module_number, frame.class);
    }
}

impl Graph {
    /// The walks that meet `goal`, in order.
    pub fn walks(&self, alloc: Global, goal: Goal) -> Result<Walks<'_>, AllocError>
        ensures walks { IfOk result (λ w. w.coming ≡ meeting goal (walks self.now)) }
        ensures path { IfOk result (λ w. w.path.steps ≡ []) }
    {
        let tallies = tallies(alloc, &goal, &self.nodes)?;
        let start = Way {
            target: self.start(),
            is_met: false,
        };
        Ok(Walks {
            graph: self,
            goal,
            direction: Direction::Forward,
            tallies,
            pending: Some(start),
            frames: ArrayVec::new(),
            path: Path::new(),
        })
    }

    /// The walks that meet `goal` and come after `cursor`, in order. `cursor` need not be that of a walk.
    pub fn walks_after(
        &self,
        alloc: Global,
        goal: Goal,
        cursor: &Cursor,
    ) -> Result<Walks<'_>, AllocError>
        ensures walks { IfOk result (λ w. w.coming ≡ meeting goal (after cursor.now (walks self.now))) }
        ensures path { IfOk result (λ w. w.path.steps ≡ []) }
    {
        self.walks_past(alloc, goal, Direction::Forward, cursor)
    }

    /// The walks that meet `goal` and come before `cursor`, the last one first. `cursor` need not be that of a walk.
    pub fn walks_before(
        &self,
        alloc: Global,
        goal: Goal,
        cursor: &Cursor,
    ) -> Result<Walks<'_>, AllocError>
        ensures walks { IfOk result (λ w. w.coming ≡ meeting goal (before cursor.now (walks self.now))) }
        ensures path { IfOk result (λ w. w.path.steps ≡ []) }
    {
        self.walks_past(alloc, goal, Direction::Backward, cursor)
    }

    /// The walks that meet `goal` and come after `cursor` in a direction.
    fn walks_past(
        &self,
        alloc: Global,
        goal: Goal,
        direction: Direction,
        cursor: &Cursor,
    ) -> Result<Walks<'_>, AllocError>
        ensures walks { IfOk result (λ w. w.coming ≡ part direction cursor.now (meeting goal (ordered direction (walks self.now)))) }
        ensures path { IfOk result (λ w. w.path.steps ≡ []) }
    {
        let tallies = tallies(alloc, &goal, &self.nodes)?;
        let search = Search {
            direction,
            goal: &goal,
            nodes: self.nodes(),
            tallies: &tallies,
        };
        let mut frames = ArrayVec::new();
        let pending = search.retrace(self.start(), cursor.codes(), &mut frames);
        Ok(Walks {
            graph: self,
            goal,
            direction,
            tallies,
            pending,
            frames,
            path: Path::new(),
        })
    }

    /// The first walk that meets `goal`, if there is one.
    pub fn first(&self, alloc: Global, goal: Goal) -> Result<Option<Path>, AllocError>
        ensures { IfOk result (λ walk. walk ≡ slice_get (meeting goal (walks self.now)) 0) }
    {
        let mut walks = self.walks(alloc, goal)?;
        Ok(walks.next())
    }
}

impl Walks<'_> {
    /// Follows the next walk, as `next` does, and keeps it: `path` gives it. Returns the number of its first steps that it
    /// shares with the walk followed before; `None` if no walk is left.
    pub fn follow(&mut self) -> Option<usize>
        ensures path { MatchOption result ((self.old.coming ≡ []) × (self.new.coming ≡ [])) (λ _. self.old.coming ≡ self.new.path ∷ self.new.coming) }
        ensures no_steps { IfNone result (self.new.path.steps ≡ []) }
        ensures shared { IfSome result (λ shared. take shared self.new.path.steps ≡ take shared self.old.path.steps) }
    {
        let pending = self.pending;
        self.pending = None;
        let search = Search {
            direction: self.direction,
            goal: &self.goal,
            nodes: self.graph.nodes(),
            tallies: &self.tallies,
        };
        search.follow(pending, &mut self.frames, &mut self.path)
    }

    /// The walk followed last. It has no steps before the first one is followed, and when none is left.
    pub fn path(&self) -> &Path
        ensures { result.now ≡ self.now.path }
    {
        &self.path
    }
}

impl Iterator for Walks<'_> {
    ghost use Rattle.std.specs.Iterator.{MakesProgress, YieldsFirst, item_count};
    ghost use Rattle.std.specs.Prelude.{◌≡◌, [], MatchOption};

    type Item = Path;

    ghost can_next = { λ w. Unit {0} };

    ghost next_gives = { YieldsFirst (λ w. w.coming) };

    ghost remaining = { item_count (λ w. w.coming) };

    fn next(&mut self) -> Option<Path>
        ensures first { YieldsFirst (λ w. w.coming) self.old result self.new }
        ensures goes { MakesProgress (λ w. Unit {0}) (item_count (λ w. w.coming)) self.old result self.new }
        ensures path { MatchOption result (self.new.path.steps ≡ []) (λ path. path ≡ self.new.path) }
    {
        match self.follow() {
            Some(_) => Some(self.path.copied()),
            None => None,
        }
    }
}

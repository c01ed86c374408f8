//! The explorer of the paths that allowed answers can follow.

ghost use Rattle.std.specs.Prelude.{◌≡◌, ◌+◌, ◌-◌, ◌*◌, ◌≤◌, ◌∷◌, [], take};
ghost use Rattle.std.specs.Prelude.{false, IfSome, IfNone, IfOk, MatchOption, MatchResult, OnOk};
ghost use Rattle.std.specs.Iterator.{MakesProgress, YieldsFirst, item_count};
ghost use Rattle.pam_conf.specs.Stack.{Items};
ghost use Rattle.pam_dispatch.specs.Flat.{modules_of, runs_of};
ghost use Rattle.pam_dispatch.specs.Tree.{runs_of_stack};
ghost use Rattle.pam_paths.specs.declared.direction.Direction.{Direction};
ghost use Rattle.pam_paths.specs.Computed.{listing};
ghost use Rattle.pam_paths.specs.Cursor.{IsAccepted, IsRefusal};
ghost use Rattle.pam_paths.specs.inner.Directions.{IsListingFrom};
ghost use Rattle.pam_paths.specs.Frames.{coming};
ghost use Rattle.pam_paths.specs.inner.Frames.{AreFirstSteps, IsExploring};
ghost use Rattle.pam_paths.specs.Cached.{AreCached};
ghost use Rattle.pam_paths.specs.Listing.{IsListing, IsListingAfter};
ghost use Rattle.pam_paths.specs.Paths.{path_of, path_through};

use crate::bounded_list::BoundedList;
use crate::class_cache::ClassCache;
use crate::cursor::{Cursor, CursorError};
use crate::direction::Direction;
use crate::frames::Frames;
use crate::knowledge::Knowledge;
use crate::path::Path;
use crate::progress::Progress;
use crate::retrace::retrace;
use crate::scope::Scope;
use crate::tail_steps::TailSteps;
use pam_dispatch::{MAX_MODULES, Place, Program, Work};
use std::marker::Model;

/// An iterator over the paths that allowed answers can follow: all of them or those after a cursor, in the order of the
/// least codes of their classes, or those before a cursor, last first.
#[derive(Drop)]
pub struct Explorer<'a, K: Knowledge> {
    scope: Scope<'a, K>,
    /// Whether the next path is the first of all.
    at_start: bool,
    progress: Progress,
    /// The path returned last.
    path: Path,
    /// The steps at which the answers no longer matter are copied from here.
    tail_steps: TailSteps,
}

impl<'a, K: Knowledge> Model for Explorer<'a, K> {
    ghost use Rattle.std.specs.Prelude.{◌-◌, ◌≤◌, ◌^◌};
    ghost use Rattle.pam_dispatch.specs.Flat.{modules_of};
    ghost use Rattle.pam_paths.specs.Exploration.{Exploration};
    ghost use Rattle.pam_paths.specs.Frames.{coming};
    ghost use Rattle.pam_paths.specs.inner.Frames.{AreFirstSteps, IsExploring};
    ghost use Rattle.pam_paths.specs.Cached.{AreCached};

    ghost Value = { Exploration };

    ghost view = { λ e. record {
      coming = coming e.scope.direction (K.allows e.scope.knowledge.now) e.scope.program.now e.at_start e.progress.frames.items;
      path = e.path;
      work = e.progress.work;
      modules = modules_of e.scope.program.now;
    } };

    ghost invariant = { λ e. IsExploring (K.allows e.scope.knowledge.now) e.scope.program.now e.at_start e.progress.frames.items
        × AreFirstSteps e.progress.frames.items e.path.steps
        × AreCached (K.allows e.scope.knowledge.now) e.scope.program.now e.progress.cache.modules
        × (e.progress.work ≤ 2 ^ 64 - 1) };
}

/// Pushes the frames from which the paths after `cursor` follow, and those before it. Refuses it like `after`.
fn frames_at<K: Knowledge>(
    scope: &Scope<'_, K>,
    cursor: &Cursor,
    frames: &mut Frames,
    work: &mut Work,
) -> Result<(), CursorError>
    requires none { frames.old.items ≡ [] }
    ensures verdict { MatchResult result
        (λ _. IsAccepted (modules_of scope.now.program.now) (path_of (runs_of scope.now.program.now)) cursor.now)
        (IsRefusal (modules_of scope.now.program.now) (path_of (runs_of scope.now.program.now)) cursor.now) }
    ensures tree { (items : Items) → runs_of scope.now.program.now ≡ runs_of_stack items → MatchResult result
        (λ _. IsAccepted (modules_of scope.now.program.now) (path_through items) cursor.now)
        (IsRefusal (modules_of scope.now.program.now) (path_through items) cursor.now) }
    ensures exploring { OnOk result (IsExploring (K.allows scope.now.knowledge.now) scope.now.program.now false frames.new.items) }
    ensures listing { (direction : Direction) → OnOk result (IsListingFrom direction (K.allows scope.now.knowledge.now) (modules_of scope.now.program.now)
        (path_of (runs_of scope.now.program.now)) cursor.now
        (coming direction (K.allows scope.now.knowledge.now) scope.now.program.now false frames.new.items)) }
    ensures work { work.new ≤ work.old + 64 * (modules_of scope.now.program.now + 1) }
{
    retrace(scope, cursor.codes(), frames, work)
}

impl<'a, K: Knowledge> Explorer<'a, K> {
    /// Explores all paths that allowed answers can follow.
    #[inline(never)]
    pub fn start(program: &'a Program, knowledge: &'a K) -> Explorer<'a, K>
        ensures listing { IsListing (K.allows knowledge.now) (modules_of program.now) (path_of (runs_of program.now)) result.coming }

        // The same for the tree of the program's stack.
        ensures stack { (items : Items) → runs_of program.now ≡ runs_of_stack items
            → IsListing (K.allows knowledge.now) (modules_of program.now) (path_through items) result.coming }
        ensures path { result.path.steps ≡ [] }
        ensures modules { result.modules ≡ modules_of program.now }
        ensures work { result.work ≡ 0 }
    {
        // So there is room for the frames of each path.
        let modules = program.modules();
        prove!(modules <= MAX_MODULES);
        Explorer {
            scope: Scope {
                program,
                knowledge,
                direction: Direction::Forward,
            },
            at_start: true,
            progress: Progress {
                frames: BoundedList::new(),
                place: Place::default(),
                cache: ClassCache::new(),
                work: Work::new(),
            },
            path: Path::empty(),
            tail_steps: TailSteps::new(),
        }
    }

    /// Explores the paths after `cursor`, whose own path need not be allowed. Returns `NotLeast` at the first step
    /// whose code is not the least of its class, `TooShort` if a module is still asked at the end of the cursor, and
    /// `TooLong` if codes are left at the end of the run.
    #[inline(never)]
    pub fn after(
        program: &'a Program,
        knowledge: &'a K,
        cursor: &Cursor,
    ) -> Result<Explorer<'a, K>, CursorError>
        ensures verdict { MatchResult result
            (λ _. IsAccepted (modules_of program.now) (path_of (runs_of program.now)) cursor.now)
            (IsRefusal (modules_of program.now) (path_of (runs_of program.now)) cursor.now) }
        ensures listing { IfOk result (λ e. IsListingAfter (K.allows knowledge.now) (modules_of program.now) (path_of (runs_of program.now))
            cursor.now e.coming) }

        // The same for the tree of the program's stack.
        ensures tree { (items : Items) → runs_of program.now ≡ runs_of_stack items → MatchResult result
            (λ _. IsAccepted (modules_of program.now) (path_through items) cursor.now)
            (IsRefusal (modules_of program.now) (path_through items) cursor.now) }
        ensures stack { (items : Items) → runs_of program.now ≡ runs_of_stack items
            → IfOk result (λ e. IsListingAfter (K.allows knowledge.now) (modules_of program.now) (path_through items) cursor.now e.coming) }
        ensures path { IfOk result (λ e. e.path.steps ≡ []) }
        ensures modules { IfOk result (λ e. e.modules ≡ modules_of program.now) }
        ensures work { IfOk result (λ e. e.work ≤ 64 * (modules_of program.now + 1)) }
    {
        Explorer::at(program, knowledge, Direction::Forward, cursor)
    }

    /// Explores the paths after `cursor`, or those before it. Refuses it like `after`.
    // Inlined: else the stack has room for the explorer twice.
    #[inline(always)]
    pub(crate) fn at(
        program: &'a Program,
        knowledge: &'a K,
        direction: Direction,
        cursor: &Cursor,
    ) -> Result<Explorer<'a, K>, CursorError>
        ensures verdict { MatchResult result
            (λ _. IsAccepted (modules_of program.now) (path_of (runs_of program.now)) cursor.now)
            (IsRefusal (modules_of program.now) (path_of (runs_of program.now)) cursor.now) }
        ensures listing { IfOk result (λ e. IsListingFrom direction (K.allows knowledge.now) (modules_of program.now) (path_of (runs_of program.now))
            cursor.now e.coming) }

        // The same for the tree of the program's stack.
        ensures tree { (items : Items) → runs_of program.now ≡ runs_of_stack items → MatchResult result
            (λ _. IsAccepted (modules_of program.now) (path_through items) cursor.now)
            (IsRefusal (modules_of program.now) (path_through items) cursor.now) }
        ensures stack { (items : Items) → runs_of program.now ≡ runs_of_stack items → IfOk result (λ e.
            IsListingFrom direction (K.allows knowledge.now) (modules_of program.now) (path_through items) cursor.now e.coming) }
        ensures path { IfOk result (λ e. e.path.steps ≡ []) }
        ensures modules { IfOk result (λ e. e.modules ≡ modules_of program.now) }
        ensures work { IfOk result (λ e. e.work ≤ 64 * (modules_of program.now + 1)) }
    {
        let scope = Scope {
            program,
            knowledge,
            direction,
        };
        let mut frames = BoundedList::new();
        let mut work = Work::new();
        match frames_at(&scope, cursor, &mut frames, &mut work) {
            Err(refusal) => Err(refusal),
            Ok(()) => Ok(Explorer {
                scope,
                at_start: false,
                progress: Progress {
                    frames,
                    place: Place::default(),
                    cache: ClassCache::new(),
                    work,
                },
                path: Path::empty(),
                tail_steps: TailSteps::new(),
            }),
        }
    }

    /// Follows the next path, as `next` does, and keeps it: `path` gives it. Returns the number of its first steps that
    /// it shares with the path followed before; `None` if no path is left.
    pub fn follow(&mut self) -> Option<usize>
        ensures path { MatchOption result ((self.old.coming ≡ []) × (self.new.coming ≡ [])) (λ _. self.old.coming ≡ self.new.path ∷ self.new.coming) }
        ensures no_steps { IfNone result (self.new.path.steps ≡ []) }
        ensures shared { IfSome result (λ shared. take shared self.new.path.steps ≡ take shared self.old.path.steps) }
        ensures modules { self.new.modules ≡ self.old.modules }
        ensures work { self.new.work ≤ self.old.work + 64 * (self.old.modules + 1) }
        ensures grows { self.old.work ≤ self.new.work }
    {
        let at_start = self.at_start;
        self.at_start = false;
        self.progress
            .follow(&self.scope, at_start, &mut self.path, &self.tail_steps)
    }

    /// The path followed last. It has no steps before the first one is followed, and when none is left.
    pub fn path(&self) -> &Path
        ensures { result.now ≡ self.now.path }
    {
        &self.path
    }

    /// The number of steps of the program so far.
    pub fn work(&self) -> u64
        ensures { result ≡ self.now.work }
    {
        self.progress.work.steps()
    }
}

impl<'a, K: Knowledge> Iterator for Explorer<'a, K> {
    ghost use Rattle.std.specs.Iterator.{MakesProgress, YieldsFirst, item_count};
    ghost use Rattle.std.specs.Prelude.{◌≡◌, ◌+◌, ◌*◌, ◌≤◌, [], MatchOption};

    type Item = Path;

    ghost can_next = { λ e. Unit {0} };

    ghost next_gives = { YieldsFirst (λ e. e.coming) };

    ghost remaining = { item_count (λ e. e.coming) };

    fn next(&mut self) -> Option<Path>
        ensures first { YieldsFirst (λ e. e.coming) self.old result self.new }
        ensures goes { MakesProgress (λ e. Unit {0}) (item_count (λ e. e.coming)) self.old result self.new }
        ensures path { MatchOption result (self.new.path.steps ≡ []) (λ path. path ≡ self.new.path) }
        ensures modules { self.new.modules ≡ self.old.modules }
        ensures work { self.new.work ≤ self.old.work + 64 * (self.old.modules + 1) }
        ensures grows { self.old.work ≤ self.new.work }
    {
        match self.follow() {
            Some(_) => Some(self.path.copied()),
            None => None,
        }
    }
}

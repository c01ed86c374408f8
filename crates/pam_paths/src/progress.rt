//! How far an exploration has come.

ghost use Rattle.std.specs.Prelude.{◌≡◌, ◌+◌, ◌-◌, ◌*◌, ◌≤◌, ◌∷◌, ◌++◌, [], false, length, take};
ghost use Rattle.std.specs.Prelude.{IfNone, IfSome};
ghost use Rattle.pam_conf.specs.declared.stack.TheConstants.{MAX_MODULES};
ghost use Rattle.pam_dispatch.specs.Flat.{IsPlaceOf, modules_of, rest_of};
ghost use Rattle.pam_dispatch.specs.Runs.{AsksRise};
ghost use Rattle.pam_paths.specs.Computed.{listing};
ghost use Rattle.pam_paths.specs.Directions.{ordered};
ghost use Rattle.pam_paths.specs.Frames.{ahead, coming};
ghost use Rattle.pam_paths.specs.inner.Frames.{AreFirstSteps, AreFrames, ComesTo, IsExploring, path_to, under};
ghost use Rattle.pam_paths.specs.Cached.{AreCached};
ghost use Rattle.pam_paths.specs.inner.Work.{CountsOn};

use crate::class_cache::ClassCache;
use crate::frames::{Frame, Frames, retell};
use crate::knowledge::Knowledge;
use crate::path::Path;
use crate::scope::Scope;
use crate::tail_steps::TailSteps;
use pam_dispatch::{Place, SettledRun, Work};

/// How far an exploration has come.
#[derive(Drop)]
pub(crate) struct Progress {
    /// The modules asked on the path found last, at first on that of the cursor.
    pub(crate) frames: Frames,
    /// The place from which the next path continues.
    pub(crate) place: Place,
    /// The classes of the modules asked so far.
    pub(crate) cache: ClassCache,
    pub(crate) work: Work,
}

/// The number of first steps that stay, of `steps` steps, if only the last of `frames` frames may have changed.
fn shared_count(steps: usize, frames: usize) -> usize
    ensures within { result ≤ steps }
    ensures unchanged { result ≤ frames - 1 }
{
    if steps < frames {
        return steps;
    }
    frames.saturating_sub(1)
}

impl Progress {
    /// Pops frames up to the innermost one that has a further branch, and follows that branch. Makes `place` the place
    /// after it; `None` if no frame has one.
    fn advance<K: Knowledge>(&mut self, scope: &Scope<'_, K>) -> Option<()>
        requires few { modules_of scope.now.program.now ≤ MAX_MODULES }
        requires frames { AreFrames (K.allows scope.now.knowledge.now) scope.now.program.now 0 self.old.frames.items }
        ensures next { ComesTo scope.now.direction (K.allows scope.now.knowledge.now) scope.now.program.now
            (ahead scope.now.direction (K.allows scope.now.knowledge.now) scope.now.program.now self.old.frames.items)
            self.old.frames.items self.new.frames.items self.new.place result }
        ensures cache { self.new.cache ≡ self.old.cache }
        ensures work { self.new.work ≤ self.old.work + length self.old.frames.items }
        ensures grows { CountsOn self.old.work self.new.work }
    {
        while !self.frames.is_empty() {
            let last = self.frames.len() - 1;
            let frame = &self.frames.as_slice()[last];
            let bound = scope.direction.past(frame.code);
            if let Some(branch) = frame.branch_ahead(
                scope.program,
                scope.direction,
                bound,
                &mut self.place,
                &mut self.work,
            ) {
                self.frames.follow(last, &branch);
                return Some(());
            }
            self.frames.truncate(last);
        }
        None
    }

    /// Makes `place` the place from which the next path continues, after the steps of the frames; `None` if no path is
    /// left.
    fn go_on<K: Knowledge>(&mut self, scope: &Scope<'_, K>, at_start: bool) -> Option<()>
        requires exploring { IsExploring (K.allows scope.now.knowledge.now) scope.now.program.now at_start self.old.frames.items }
        ensures next { ComesTo scope.now.direction (K.allows scope.now.knowledge.now) scope.now.program.now
            (coming scope.now.direction (K.allows scope.now.knowledge.now) scope.now.program.now at_start self.old.frames.items)
            self.old.frames.items self.new.frames.items self.new.place result }
        ensures cache { self.new.cache ≡ self.old.cache }
        ensures work { self.new.work ≤ self.old.work + modules_of scope.now.program.now }
        ensures grows { CountsOn self.old.work self.new.work }
    {
        if at_start {
            self.place = scope.program.first();
            return Some(());
        }
        self.advance(scope)
    }

    /// Follows the first branch of each module, from `place` on, until the run is settled. Returns the rest of it.
    fn descend<K: Knowledge>(&mut self, scope: &Scope<'_, K>) -> SettledRun
        requires few { modules_of scope.now.program.now ≤ MAX_MODULES }
        requires cache { AreCached (K.allows scope.now.knowledge.now) scope.now.program.now self.old.cache.modules }
        requires frames { AreFrames (K.allows scope.now.knowledge.now) scope.now.program.now 0 self.old.frames.items }
        requires place { IsPlaceOf scope.now.program.now self.old.place }
        requires rise { AsksRise (length self.old.frames.items) (modules_of scope.now.program.now) (rest_of scope.now.program.now self.old.place) }
        ensures frames { AreFrames (K.allows scope.now.knowledge.now) scope.now.program.now 0 self.new.frames.items }
        ensures cache { AreCached (K.allows scope.now.knowledge.now) scope.now.program.now self.new.cache.modules }
        ensures path { under self.old.frames.items
            (ordered scope.now.direction (listing (K.allows scope.now.knowledge.now) (rest_of scope.now.program.now self.old.place)))
            ++ ahead scope.now.direction (K.allows scope.now.knowledge.now) scope.now.program.now self.old.frames.items
            ≡ path_to (modules_of scope.now.program.now) self.new.frames.items result
            ∷ ahead scope.now.direction (K.allows scope.now.knowledge.now) scope.now.program.now self.new.frames.items }
        ensures within { length self.new.frames.items + result.modules ≤ modules_of scope.now.program.now }
        ensures earlier { take (length self.old.frames.items) self.new.frames.items ≡ self.old.frames.items }
        ensures work { self.new.work + length self.old.frames.items ≤ self.old.work + length self.new.frames.items }
        ensures grows { CountsOn self.old.work self.new.work }
    {
        loop {
            if let Some(rest) = scope.program.settled(&self.place) {
                return rest;
            }
            let Some(module_number) = self.place.module() else {
                unreachable!()
            };
            let classes = self.cache.at(scope, &self.place, module_number);
            let frame = Frame::at(self.place, module_number, classes);
            let outset = scope.direction.outset();
            match frame.branch_ahead(
                scope.program,
                scope.direction,
                outset,
                &mut self.place,
                &mut self.work,
            ) {
                Some(branch) => self.frames.push(frame.following(&branch)),
                None => unreachable!(),
            }
        }
    }

    /// Makes `path` the next path. Returns the number of its first steps that it shares with the path before it; `None`
    /// if no path is left, and then `path` has no steps.
    pub(crate) fn follow<K: Knowledge>(
        &mut self,
        scope: &Scope<'_, K>,
        at_start: bool,
        path: &mut Path,
        tail_steps: &TailSteps,
    ) -> Option<usize>
        requires exploring { IsExploring (K.allows scope.now.knowledge.now) scope.now.program.now at_start self.old.frames.items }
        requires steps { AreFirstSteps self.old.frames.items path.old.steps }
        requires cache { AreCached (K.allows scope.now.knowledge.now) scope.now.program.now self.old.cache.modules }
        ensures cache { AreCached (K.allows scope.now.knowledge.now) scope.now.program.now self.new.cache.modules }
        ensures exploring { IsExploring (K.allows scope.now.knowledge.now) scope.now.program.now false self.new.frames.items }
        ensures steps { AreFirstSteps self.new.frames.items path.new.steps }
        ensures none { IfNone result (coming scope.now.direction (K.allows scope.now.knowledge.now) scope.now.program.now at_start
            self.old.frames.items ≡ []) }
        ensures stays { IfNone result (coming scope.now.direction (K.allows scope.now.knowledge.now) scope.now.program.now false
            self.new.frames.items ≡ []) }
        ensures path { IfSome result (λ _. coming scope.now.direction (K.allows scope.now.knowledge.now) scope.now.program.now at_start
            self.old.frames.items
            ≡ path.new ∷ coming scope.now.direction (K.allows scope.now.knowledge.now) scope.now.program.now false self.new.frames.items) }
        ensures no_steps { IfNone result (path.new.steps ≡ []) }
        ensures shared { IfSome result (λ shared. take shared path.new.steps ≡ take shared path.old.steps) }
        ensures work { self.new.work ≤ self.old.work + 64 * (modules_of scope.now.program.now + 1) }
        ensures grows { CountsOn self.old.work self.new.work }
    {
        let Some(()) = self.go_on(scope, at_start) else {
            path.steps.truncate(0);
            path.tail = 0;
            return None;
        };
        let shared = shared_count(path.steps.len(), self.frames.len());
        let rest = self.descend(scope);
        let tail = tail_steps.last(scope.program.modules(), rest.modules);
        retell(
            &mut path.steps,
            self.frames.as_slice(),
            tail,
            shared,
            path.tail,
        );
        path.tail = rest.modules;
        path.decision = rest.decision.code();
        Some(shared)
    }
}

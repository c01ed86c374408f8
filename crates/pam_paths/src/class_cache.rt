//! The classes computed last for each module.

ghost use Rattle.std.specs.Prelude.{◌≡◌, ◌≤◌, IsTrue, List, MatchOption, Some, false};
ghost use Rattle.pam_conf.specs.declared.stack.TheConstants.{MAX_MODULES};
ghost use Rattle.pam_dispatch.specs.declared.flat_item.FlatItem.{FlatItem};
ghost use Rattle.pam_dispatch.specs.Flat.{IsPlaceOf, modules_of, rest_of};
ghost use Rattle.pam_dispatch.specs.Runs.{asked_module, next_ask};
ghost use Rattle.pam_dispatch.specs.Situations.{representative};
ghost use Rattle.pam_paths.specs.Frames.{AreClasses, offered_at};
ghost use Rattle.pam_paths.specs.Cached.{AreCached};
ghost use Rattle.pam_paths.specs.Listing.{Allowance};

use crate::classes::Classes;
use crate::knowledge::Knowledge;
use crate::scope::Scope;
use pam_dispatch::{MAX_MODULES, Place, Situation, has_reset};

/// The classes of a module that was asked, with the situation that represents those in which its answers are alike.
#[derive(Clone, Copy, Debug)]
pub(crate) struct CachedClasses {
    pub(crate) situation: Option<Situation>,
    pub(crate) classes: Classes,
}

impl CachedClasses {
    fn of(situation: &Situation, classes: &Classes) -> CachedClasses
        ensures situation { result.situation ≡ Some situation.now }
        ensures classes { result.classes ≡ classes.now }
    {
        CachedClasses {
            situation: Some(*situation),
            classes: *classes,
        }
    }

    fn is_of(&self, situation: &Situation) -> bool
        ensures { IsTrue result → self.now.situation ≡ Some situation.now }
    {
        match self.situation {
            Some(last) => last == *situation,
            None => false,
        }
    }

    /// Whether the two situations differ at most in what does not count where a control has no `reset`.
    fn is_like(&self, situation: &Situation) -> bool
        ensures { IsTrue result → MatchOption self.now.situation ⊥ (λ last. representative false last ≡ representative false situation.now) }
    {
        match self.situation {
            Some(last) => last.representative(false) == situation.representative(false),
            None => false,
        }
    }
}

/// The classes computed last for each module. A module is often asked in a situation like the last one again.
#[derive(Drop)]
pub struct ClassCache {
    pub(crate) modules: [CachedClasses; MAX_MODULES],
}

impl ClassCache {
    /// No classes.
    pub fn new() -> ClassCache
        ensures { (allows : Allowance) (program : List FlatItem) → AreCached allows program result.modules }
    {
        ClassCache {
            modules: [CachedClasses {
                situation: None,
                classes: Classes::default(),
            }; MAX_MODULES],
        }
    }

    /// The classes at `place`, which are computed if the module was not asked in a situation like it last.
    pub(crate) fn at<K: Knowledge>(
        &mut self,
        scope: &Scope<'_, K>,
        place: &Place,
        module_number: usize,
    ) -> Classes
        requires place { IsPlaceOf scope.now.program.now place.now }
        requires asking { asked_module (rest_of scope.now.program.now place.now) ≡ Some module_number }
        requires first { 1 ≤ module_number }
        requires last { module_number ≤ modules_of scope.now.program.now }
        requires few { modules_of scope.now.program.now ≤ MAX_MODULES }
        requires cache { AreCached (K.allows scope.now.knowledge.now) scope.now.program.now self.old.modules }
        ensures cache { AreCached (K.allows scope.now.knowledge.now) scope.now.program.now self.new.modules }
        ensures offered { result.offered ≡ offered_at (K.allows scope.now.knowledge.now) (rest_of scope.now.program.now place.now) }
        ensures classes { AreClasses (next_ask (rest_of scope.now.program.now place.now)) result }
    {
        let situation = scope.program.asked(place).situation().representative(true);
        let cached = &self.modules[module_number - 1];
        if cached.is_of(&situation) {
            return cached.classes;
        }
        if cached.is_like(&situation) {
            let resets = has_reset(scope.program.control(module_number));
            if !resets {
                return cached.classes;
            }
        }
        let allowed = scope.knowledge.allowed(module_number);
        let classes = Classes::at(scope.program, place, module_number, allowed);
        self.modules[module_number - 1] = CachedClasses::of(&situation, &classes);
        classes
    }
}

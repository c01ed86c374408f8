//! The forks of a run, at which a module is asked, and the choices there.

ghost use Rattle.std.specs.Prelude.{◌≡◌, ◌+◌, ◌<◌, ◌≤◌, ◌++◌, [], IfNone, IfSome, Some, length};
ghost use Rattle.pam_conf.specs.declared.stack.TheConstants.{MAX_MODULES};
ghost use Rattle.pam_dispatch.specs.Flat.{IsPlaceOf, modules_of, rest_of};
ghost use Rattle.pam_dispatch.specs.Runs.{AsksRise, asked_module};
ghost use Rattle.pam_paths.specs.Cached.{IsCacheFor};
ghost use Rattle.pam_paths.specs.Classes.{least};
ghost use Rattle.pam_paths.specs.Computed.{listing};
ghost use Rattle.pam_paths.specs.Forks.{IsChoice, IsFork, paths_by, paths_from};
ghost use Rattle.pam_paths.specs.Listing.{Allowance};

use crate::class_cache::ClassCache;
use crate::classes::Classes;
use crate::direction::Direction;
use crate::knowledge::Knowledge;
use crate::scope::Scope;
use pam_codes::CodeSet;
use pam_dispatch::{Place, Program, Work};

/// A class of answers that can be followed at a fork.
#[derive(Clone, Copy, Debug)]
pub struct Choice {
    pub class: CodeSet,
    /// Where the run continues.
    pub place: Place,
    /// One more than the least code of the class: the later choices have greater least codes.
    pub next: u8,
}

/// A place at which a module is asked, with the classes of its answers.
#[derive(Clone, Copy, Debug)]
pub struct Fork {
    pub(crate) place: Place,
    pub(crate) module_number: usize,
    pub(crate) classes: Classes,
}

impl Fork {
    /// The fork at a place, whose classes are computed if the module was not asked in a situation like it last. The cache is new, or
    /// one of forks of the same program under the same knowledge.
    #[inline(never)]
    pub fn at<K: Knowledge>(
        program: &Program,
        knowledge: &K,
        cache: &mut ClassCache,
        place: &Place,
        module_number: usize,
    ) -> Fork
        requires few { modules_of program.now ≤ MAX_MODULES }
        requires cache { IsCacheFor (K.allows knowledge.now) program.now cache.old }
        requires place { IsPlaceOf program.now place.now }
        requires asking { asked_module (rest_of program.now place.now) ≡ Some module_number }
        requires rise { AsksRise 0 (modules_of program.now) (rest_of program.now place.now) }
        ensures cache { IsCacheFor (K.allows knowledge.now) program.now cache.new }
        ensures fork { IsFork (K.allows knowledge.now) program.now result }
        ensures number { result.module_number ≡ module_number }
        ensures place { result.place ≡ place.now }
        ensures paths { paths_from (K.allows knowledge.now) program.now result 0 ≡ listing (K.allows knowledge.now) (rest_of program.now place.now) }
    {
        let scope = Scope {
            program,
            knowledge,
            direction: Direction::Forward,
        };
        let classes = cache.at(&scope, place, module_number);
        Fork {
            place: *place,
            module_number,
            classes,
        }
    }

    /// The number of choices.
    pub fn choices(&self) -> usize
        ensures { result ≡ length self.now.classes.offered }
    {
        self.classes.offered.len()
    }

    /// The first choice whose least code is at or after `bound`.
    // Not inlined, since its caller calls itself for each choice and must use little stack.
    #[inline(never)]
    pub fn choice(&self, program: &Program, bound: u8) -> Option<Choice>
        requires fork { (allows : Allowance) × IsFork allows program.now self.now }
        requires bound { bound ≤ 31 }
        ensures none { (allows : Allowance) → IsFork allows program.now self.now → IfNone result (paths_from allows program.now self.now bound ≡ []) }
        ensures paths { (allows : Allowance) → IsFork allows program.now self.now → IfSome result (λ c.
            paths_from allows program.now self.now bound
            ≡ paths_by allows program.now self.now.module_number c ++ paths_from allows program.now self.now c.next) }
        ensures choice { (allows : Allowance) → IsFork allows program.now self.now → IfSome result (IsChoice allows program.now self.now) }
        ensures least { IfSome result (λ c. (bound ≤ least c.class) × (c.next ≡ least c.class + 1) × (c.next ≤ 31)) }
    {
        match self.classes.offered.least_from(bound) {
            Some(code) => {
                let mut place = self.place;
                let mut work = Work::new();
                program.step_on(&mut place, code, &mut work);
                Some(Choice {
                    class: self
                        .classes
                        .class_of(program, &self.place, self.module_number, code),
                    place,
                    next: code.number() + 1,
                })
            }
            None => None,
        }
    }
}

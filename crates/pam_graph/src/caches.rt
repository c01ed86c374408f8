//! The classes computed last for each module, while a graph is built.

ghost use Rattle.std.specs.Prelude.{◌≡◌, ◌<◌, ◌≤◌, IfOk, List, Some};
ghost use Rattle.pam_conf.specs.declared.stack.TheConstants.{MAX_MODULES};
ghost use Rattle.pam_dispatch.specs.declared.flat_item.FlatItem.{FlatItem};
ghost use Rattle.pam_dispatch.specs.Flat.{IsPlaceOf, modules_of, rest_of};
ghost use Rattle.pam_dispatch.specs.Runs.{AsksRise, asked_module};
ghost use Rattle.pam_graph.specs.inner.Caches.{AreCachesFor};
ghost use Rattle.pam_paths.specs.Computed.{listing};
ghost use Rattle.pam_paths.specs.Forks.{IsFork, paths_from};
ghost use Rattle.pam_paths.specs.Listing.{Allowance};

use pam_codes::Code;
use pam_dispatch::{Impression, Place, Program, State};
use pam_paths::{ClassCache, Fork, Knowledge};
use std::alloc::{AllocError, Global};

/// The number of caches: runs come to a module in states of three kinds, in turn.
const CACHES: usize = 3;

/// The number of the cache for modules that are asked in this state. Once the stack has failed, perm_denied alone is another
/// status than all others.
fn cache_number(state: State) -> usize
    ensures { result < CACHES }
{
    match state.impression {
        Impression::Undef | Impression::Positive => 0,
        Impression::Negative => if state.status == Code::PERM_DENIED {
            1
        } else {
            2
        },
    }
}

/// Empty caches.
// Not inlined, so that its temporaries do not stay on the stack while a graph is built.
#[inline(never)]
pub(crate) fn new_caches(alloc: Global) -> Result<Vec<ClassCache>, AllocError>
    ensures { (allows : Allowance) (program : List FlatItem) → IfOk result (λ caches. AreCachesFor allows program caches.items) }
{
    (0..CACHES).map(|_| ClassCache::new()).collect(alloc)
}

/// The fork at a place, whose classes are computed if the module was not asked in a situation like it last.
// Not inlined, since its caller calls itself for each choice and must use little stack.
#[inline(never)]
pub(crate) fn fork_at<K: Knowledge>(
    program: &Program,
    knowledge: &K,
    caches: &mut Vec<ClassCache>,
    place: &Place,
    module_number: usize,
) -> Fork
    requires few { modules_of program.now ≤ MAX_MODULES }
    requires caches { AreCachesFor (K.allows knowledge.now) program.now caches.old.items }
    requires place { IsPlaceOf program.now place.now }
    requires asking { asked_module (rest_of program.now place.now) ≡ Some module_number }
    requires rise { AsksRise 0 (modules_of program.now) (rest_of program.now place.now) }
    ensures caches { AreCachesFor (K.allows knowledge.now) program.now caches.new.items }
    ensures fork { IsFork (K.allows knowledge.now) program.now result }
    ensures number { result.module_number ≡ module_number }
    ensures place { result.place ≡ place.now }
    ensures paths { paths_from (K.allows knowledge.now) program.now result 0 ≡ listing (K.allows knowledge.now) (rest_of program.now place.now) }
{
    let cache = &mut caches[cache_number(place.state())];
    Fork::at(program, knowledge, cache, place, module_number)
}

//! The paths of a stack's modules, by their numbers.

ghost use Rattle.std.specs.Prelude.{◌≡◌, ◌+◌, ◌++◌, ◌≤◌, length, map};
ghost use Rattle.pam_conf.specs.ItemsOf.{items_of};
ghost use Rattle.pam_conf.specs.Stack.{module_count};
ghost use Rattle.pam_conf.specs.declared.stack.TheConstants.{MAX_MODULES};
ghost use Rattle.pam_report.specs.Decide.{path_at};
ghost use Rattle.pam_render.specs.parts.inner.ModulePaths.{paths_of};

use arrayvec::ArrayVec;
use pam_conf::{Item, MAX_MODULES, Stack};
use std::marker::Model;

type Paths<'a> = ArrayVec<&'a [u8], MAX_MODULES>;

/// The paths of a stack's modules, by number. The stack itself looks a module up by a walk, which is too slow for each step
/// of each path.
#[derive(Drop)]
pub struct ModulePaths<'a> {
    stack: &'a Stack,
    paths: Paths<'a>,
}

/// Contracts see the stack.
impl<'a> Model for ModulePaths<'a> {
    ghost use Rattle.pam_conf.specs.Stack.{IsNumbered, Items};
    ghost use Rattle.pam_conf.specs.inner.StackCode.{items_code};
    ghost use Rattle.pam_render.specs.parts.inner.ModulePaths.{paths_of};
    ghost use Rattle.std.specs.Prelude.{◌≡◌, map};

    ghost Value = { Items };

    ghost coded = { items_code };

    ghost view = { λ m. m.stack.now };

    ghost invariant = { λ m. (map (λ path. path.now) m.paths.items ≡ paths_of m.stack.now) × IsNumbered m.stack.now };
}

/// Appends the paths of the modules in `items` and their substacks.
fn push_paths<'a>(items: &'a [Item], paths: &mut Paths<'a>)
    requires room { length paths.old.items + module_count (items_of items.now) ≤ MAX_MODULES }
    ensures { map (λ path. path.now) paths.new.items ≡ map (λ path. path.now) paths.old.items ++ paths_of (items_of items.now) }
{
    for item in items {
        match item {
            Item::Module(module) => paths.push(module.path.as_slice()),
            Item::Sub(sub) => push_paths(&sub.items, paths),
        }
    }
}

impl<'a> ModulePaths<'a> {
    /// Collects the paths of the modules of `stack`, in one walk.
    pub fn of(stack: &'a Stack) -> ModulePaths<'a>
        ensures { result ≡ stack.now }
    {
        let mut paths = ArrayVec::new();
        push_paths(stack.items(), &mut paths);
        ModulePaths { stack, paths }
    }

    /// The path of the module with this number; empty unless the stack has one.
    pub fn path(&self, number: usize) -> &'a [u8]
        ensures { result.now ≡ path_at number self.now }
    {
        let paths = self.paths.as_slice();
        let Some(index) = number.checked_sub(1) else {
            return b"";
        };
        match paths.get(index) {
            Some(path) => *path,
            None => b"",
        }
    }
}

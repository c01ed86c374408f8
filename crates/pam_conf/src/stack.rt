//! The stack of a service: its modules and substacks, in order.
ghost use Rattle.std.specs.Prelude.{◌≡◌, ◌≤◌, ◌↔◌, IsSome};
ghost use Rattle.std.specs.Option.{option_map};
ghost use Rattle.pam_conf.specs.Stack.{depth, module_at, module_count, IsNumbered};
ghost use Rattle.pam_conf.specs.ItemsOf.{items_of, module_text};
ghost use Rattle.pam_conf.specs.declared.trail.TheConstants.{MAX_OPEN_FILES};

use pam_codes::Control;
use pam_text::Texts;
use std::marker::Model;

/// The maximum number of modules of a stack; one more is `TooManyModules`.
pub const MAX_MODULES: usize = 256;

/// A module of a stack, as its rule names it.
#[derive(Debug, Drop)]
pub struct Module {
    /// From 1, in the order of the walk.
    pub number: usize,
    /// Whether the kind has the prefix `-`.
    pub dashed: bool,
    pub control: Control,
    pub path: Vec<u8>,
    pub arguments: Texts,
    /// The position of the rule's file in `Files`.
    pub file: usize,
    pub line: usize,
}

/// A substack, with its own list of items.
#[cycle(stack)]
#[derive(Debug, Drop)]
pub struct Sub {
    /// The position of the file whose rule names it.
    pub file: usize,
    pub line: usize,
    /// The position of the file that it reads.
    pub target: usize,
    pub items: Vec<Item>,
}

impl Model for Sub {
    ghost use Rattle.std.specs.Prelude.{◌+◌};
    ghost use Rattle.std.proofs.Common.{arith};
    ghost use Rattle.pam_conf.specs.Stack.{SubList};
    ghost use Rattle.pam_conf.specs.inner.StackCode.{sub_code};

    ghost Value = { SubList };

    ghost coded = { sub_code };

    ghost use Rattle.pam_conf.specs.ItemsOf.{sub_list};
    ghost use Rattle.pam_conf.specs.inner.ItemsOf.{sub_count};

    ghost view = { sub_list };

    ghost size = { λ s. sub_count s.inner + 1 };

    ghost use Rattle.pam_conf.specs.inner.SubFalls.{most_le-sub_count};

    ghost size_decreases = { λ a h. omega (arith, most_le-sub_count a.items.items) };
}

/// An item of a list.
#[cycle(stack)]
#[derive(Debug, Drop)]
pub enum Item {
    Module(Module),
    Sub(Sub),
}

/// The stack of a service: up to `MAX_MODULES` modules, numbered from the left, in lists at most `MAX_OPEN_FILES` deep.
#[derive(Debug, Drop)]
pub struct Stack {
    items: Vec<Item>,
    modules: usize,
}

impl Model for Stack {
    ghost use Rattle.std.specs.Prelude.{◌≡◌, ◌≤◌};
    ghost use Rattle.pam_conf.specs.Stack.{Items, depth, module_count, IsNumbered};
    ghost use Rattle.pam_conf.specs.inner.StackCode.{items_code};
    ghost use Rattle.pam_conf.specs.declared.stack.TheConstants.{MAX_MODULES};
    ghost use Rattle.pam_conf.specs.declared.trail.TheConstants.{MAX_OPEN_FILES};

    ghost Value = { Items };

    ghost coded = { items_code };

    ghost use Rattle.pam_conf.specs.ItemsOf.{items_of};

    ghost view = { λ s. items_of s.items.items };

    ghost invariant = { λ s. (s.modules ≡ module_count (items_of s.items.items)) × (module_count (items_of s.items.items) ≤ MAX_MODULES)
        × (depth (items_of s.items.items) ≤ MAX_OPEN_FILES) × IsNumbered (items_of s.items.items) };
}

impl Stack {
    /// The stack of `items`, which have this many modules.
    pub(crate) fn of(items: Vec<Item>, modules: usize) -> Stack
        requires counted { modules ≡ module_count (items_of items.items) }
        requires few { modules ≤ MAX_MODULES }
        requires shallow { depth (items_of items.items) ≤ MAX_OPEN_FILES }
        requires numbered { IsNumbered (items_of items.items) }
        ensures { result ≡ items_of items.items }
    {
        Stack { items, modules }
    }

    /// The items of the outermost list.
    pub fn items(&self) -> &[Item]
        ensures items { items_of result.now ≡ self.now }
        ensures few { module_count self.now ≤ MAX_MODULES }
        ensures shallow { depth self.now ≤ MAX_OPEN_FILES }
        ensures numbered { IsNumbered self.now }
    {
        self.items.as_slice()
    }

    /// The number of modules, including the modules of substacks.
    pub fn modules(&self) -> usize
        ensures count { result ≡ module_count self.now }
        ensures most { result ≤ MAX_MODULES }
    {
        self.modules
    }

    /// The module with this number; `None` unless it is from 1 to `modules`.
    pub fn module(&self, number: usize) -> Option<&Module>
        ensures module { option_map (λ m. module_text m.now) result ≡ module_at number self.now }
        ensures range { IsSome result ↔ (1 ≤ number) × (number ≤ module_count self.now) }
    {
        // With no substack before it or around it, a module's number is its position in the outermost list, from 1.
        match self.items.get(number.wrapping_sub(1)) {
            Some(Item::Module(module)) if module.number == number => Some(module),
            _ => module_in(&self.items, number),
        }
    }
}

/// The first module with this number, in `items` or their substacks.
fn module_in(items: &[Item], number: usize) -> Option<&Module>
    ensures { option_map (λ m. module_text m.now) result ≡ module_at number (items_of items.now) }
{
    for item in items {
        match item {
            Item::Module(module) => {
                if module.number == number {
                    return Some(module);
                }
            }
            Item::Sub(sub) => {
                if let Some(module) = module_in(&sub.items, number) {
                    return Some(module);
                }
            }
        }
    }
    None
}

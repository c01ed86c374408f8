//! The codes by which the modules of a stack jump past the end of their lists.

ghost use Rattle.std.specs.Prelude.{◌≡◌, ◌-◌, ◌≤◌, ◌++◌, ◌&&◌, [], IfOk, OnOk, ℕ, length, slice_index_or};
ghost use Rattle.pam_codes.specs.Set.{codes_where, is_in};
ghost use Rattle.pam_conf.specs.ItemsOf.{items_of};
ghost use Rattle.pam_conf.specs.declared.stack.TheConstants.{MAX_MODULES};
ghost use Rattle.pam_dispatch.specs.State.{action_of};
ghost use Rattle.pam_graph.specs.Goals.{gives_one};
ghost use Rattle.pam_graph.specs.PastEnds.{is_past_end, past_ends};

use pam_codes::{Action, CODES, Code, CodeSet, Control};
use pam_conf::{Item, Stack};
use pam_dispatch::MAX_MODULES;
use pam_paths::Knowledge;
use std::alloc::{AllocError, Global};
use std::marker::Model;

/// The codes by which each module of a stack may jump past the end of its list.
#[derive(Clone, Copy, Debug)]
pub struct PastEnds {
    /// By the number of the module less 1.
    codes: [CodeSet; MAX_MODULES],
}

impl Model for PastEnds {
    ghost use Rattle.std.specs.Prelude.{List, ℕ};

    ghost Value = { List (List ℕ) };

    ghost view = { λ p. p.codes };

    ghost inverse = { λ l. record { codes = l } };
}

/// Whether `action` jumps past the end of its list, which has `items_after` items after the module.
pub fn is_past_end(items_after: usize, action: Action) -> bool
    ensures { result ≡ is_past_end items_after action }
{
    match action {
        Action::Jump(items) => items_after < items as usize,
        Action::Ignore | Action::Ok | Action::Done | Action::Bad | Action::Die | Action::Reset =>
            false,
    }
}

/// Whether `code` is one of `allowed` and jumps past the end of a list.
fn passes(control: &Control, allowed: CodeSet, items_after: usize, code: Code) -> bool
    ensures { result ≡ (is_in code allowed && is_past_end items_after (action_of control.now code)) }
{
    allowed.contains(code) && is_past_end(items_after, control.action(code))
}

/// The codes of `allowed` that jump past the end of a list.
fn past_end(control: &Control, allowed: CodeSet, items_after: usize) -> CodeSet
    ensures { result ≡ codes_where (λ code. is_in code allowed && is_past_end items_after (action_of control.now code)) }
{
    let mut codes = CodeSet::empty();
    for number in 0..CODES as u8 {
        if let Some(code) = Code::new(number) {
            if passes(control, allowed, items_after, code) {
                codes.insert(code);
            }
        }
    }
    codes
}

/// Appends the codes of the modules in `items` and their substacks.
fn push_past_ends<K: Knowledge>(
    knowledge: &K,
    items: &[Item],
    codes: &mut Vec<CodeSet>,
) -> Result<(), AllocError>
    ensures { OnOk result (codes.new.items ≡ codes.old.items ++ past_ends (K.allows knowledge.now) (items_of items.now)) }
{
    let mut items_after = items.len();
    for item in items {
        items_after -= 1;
        match item {
            Item::Module(module) => {
                let allowed = knowledge.allowed(module.number);
                codes.push(past_end(&module.control, allowed, items_after))?;
            }
            Item::Sub(sub) => push_past_ends(knowledge, &sub.items, codes)?,
        }
    }
    Ok(())
}

/// The same sets, and then empty ones.
fn by_number(found: &[CodeSet]) -> [CodeSet; MAX_MODULES]
    requires { length found.now ≤ MAX_MODULES }
    ensures { (index : ℕ) → slice_index_or result index [] ≡ slice_index_or found.now index [] }
{
    let mut codes = [CodeSet::empty(); MAX_MODULES];
    for index in 0..found.len() {
        codes[index] = found[index];
    }
    codes
}

impl PastEnds {
    /// Those of the modules of a stack, as far as `knowledge` allows them.
    pub fn of<K: Knowledge>(
        alloc: Global,
        stack: &Stack,
        knowledge: &K,
    ) -> Result<PastEnds, AllocError>
        ensures { IfOk result (λ codes. (number : ℕ) →
            slice_index_or codes (number - 1) [] ≡ slice_index_or (past_ends (K.allows knowledge.now) stack.now) (number - 1) []) }
    {
        let mut found = Vec::new(alloc);
        push_past_ends(knowledge, stack.items(), &mut found)?;
        Ok(PastEnds {
            codes: by_number(&found),
        })
    }

    /// Whether one of `codes` is such a code of the module with this number.
    pub(crate) fn have_one(&self, number: usize, codes: CodeSet) -> bool
        ensures { result ≡ gives_one self.now (record { module_number = number; class = codes }) }
    {
        let by_number = self.codes.as_slice();
        let index = number.saturating_sub(1);
        if index >= by_number.len() {
            return false;
        }
        // A set says with its least code that it is one of codes.
        let _least = codes.least();
        by_number[index].meets(codes)
    }
}

//! The modules that can jump past the end of their list.

ghost use Rattle.std.specs.Prelude.{◌≡◌, ◌∷◌, ◌++◌, [], IfOk, OnOk, if◌then◌else◌};
ghost use Rattle.pam_conf.specs.ItemsOf.{items_of, module_text};
ghost use Rattle.pam_paths.specs.Known.{may_answer};
ghost use Rattle.pam_findings.specs.stack.Asked.{AreExactly, JumpsPastEnd};
ghost use Rattle.pam_findings.specs.stack.inner.Marks.{AreMarks};
ghost use Rattle.pam_findings.specs.stack.inner.PastEnd.{can_pass, numbers_where, passes};

use crate::stack::marks::{Marks, is_marked};
use pam_codes::{CODES, Code, CodeSet, Control};
use pam_conf::{Item, Module, Stack};
use pam_graph::is_past_end;
use pam_paths::{Knowledge, Known};
use std::alloc::{AllocError, Global};

/// Whether one of `codes` jumps past the end of a list.
fn can_pass(control: &Control, codes: CodeSet, items_after: usize) -> bool
    ensures { result ≡ can_pass control.now codes items_after }
{
    for number in 0..CODES as u8 {
        if let Some(code) = Code::new(number) {
            if codes.contains(code) && is_past_end(items_after, control.action(code)) {
                return true;
            }
        }
    }
    false
}

/// Whether a module that is asked may answer a code that jumps past the end of its list.
fn passes(known: &Known, asked: &Marks, candidate: &Module, items_after: usize) -> bool
    ensures { result ≡ passes (may_answer known.now) asked.now (module_text candidate.now) items_after }
{
    is_marked(asked, candidate.number)
        && can_pass(
            &candidate.control,
            known.allowed(candidate.number),
            items_after,
        )
}

/// Appends the number of `candidate` if it passes.
fn push_if_passing(
    known: &Known,
    asked: &Marks,
    candidate: &Module,
    items_after: usize,
    numbers: &mut Vec<usize>,
) -> Result<(), AllocError>
    ensures { OnOk result (numbers.new.items ≡ numbers.old.items
        ++ (if passes (may_answer known.now) asked.now (module_text candidate.now) items_after then candidate.now.number ∷ [] else [])) }
{
    if passes(known, asked, candidate, items_after) {
        numbers.push(candidate.number)?;
    }
    Ok(())
}

/// Appends the numbers of the modules in `items` and their substacks that pass.
fn push_passing(
    known: &Known,
    asked: &Marks,
    items: &[Item],
    numbers: &mut Vec<usize>,
) -> Result<(), AllocError>
    ensures { OnOk result (numbers.new.items ≡ numbers.old.items ++ numbers_where (passes (may_answer known.now) asked.now) (items_of items.now)) }
{
    let mut items_after = items.len();
    for item in items {
        items_after -= 1;
        match item {
            Item::Module(module) => push_if_passing(known, asked, module, items_after, numbers)?,
            Item::Sub(sub) => push_passing(known, asked, &sub.items, numbers)?,
        }
    }
    Ok(())
}

/// The numbers of the modules that are asked and may jump past the end of their list, rising.
pub(crate) fn passing(
    alloc: Global,
    stack: &Stack,
    known: &Known,
    asked: &Marks,
) -> Result<Vec<usize>, AllocError>
    requires { AreMarks (may_answer known.now) stack.now asked.now }
    ensures { IfOk result (λ numbers. AreExactly (JumpsPastEnd (may_answer known.now) stack.now) numbers.items) }
{
    let mut numbers = Vec::new(alloc);
    push_passing(known, asked, stack.items(), &mut numbers)?;
    Ok(numbers)
}

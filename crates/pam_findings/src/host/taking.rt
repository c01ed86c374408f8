//! S20: arguments by which a module takes only a token that a module before it asked for, where no run asks for one before.

ghost use Rattle.std.specs.Prelude.{◌≡◌, ◌==◌, ◌≤◌, ℕ, IfOk, IsFalse, IsTrue, OnOk, true, false};
ghost use Rattle.pam_conf.specs.ItemsOf.{module_text};
ghost use Rattle.pam_findings.specs.host.inner.Looked.{HasGraph, judgement_in};
ghost use Rattle.pam_findings.specs.host.inner.Table.{Adds};
ghost use Rattle.pam_findings.specs.host.inner.Taking.{AreAsking, Lacks, LacksAt, LacksIn, asks_for_at, lacking_by};
ghost use Rattle.pam_findings.specs.host.inner.WrongArguments.{OfFound};
ghost use Rattle.pam_findings.specs.host.Tokens.{NoneAsksBefore, only_takes};
ghost use Rattle.pam_text.specs.Members.{Member};
ghost use Rattle.pam_findings.specs.stack.inner.Marks.{mark_of};

use crate::host::arguments::push_argument;
use crate::host::judging::Judging;
use crate::host::modules::is_listed;
use crate::host::problem::{ArgumentProblem, Spot};
use crate::host::tokens::{may_ask_for, only_takes, takes};
use crate::stack::{Marks, Sought, leads, mark};
use pam_codes::CodeSet;
use pam_conf::{Kind, MAX_MODULES, Module, Stack};
use std::alloc::AllocError;

/// Whether the module with this number may ask for a token.
fn asks_for_at(kind: Kind, stack: &Stack, number: usize) -> bool
    ensures { result ≡ asks_for_at kind stack.now number }
{
    match stack.module(number) {
        Some(module) => may_ask_for(kind, module),
        None => false,
    }
}

/// Marks the modules that may ask for a token.
fn asking(kind: Kind, stack: &Stack) -> Marks
    ensures { AreAsking kind stack.now result }
{
    // The items say that the modules are numbered from 1 on.
    let _items = stack.items();
    let mut marks = [false; MAX_MODULES];
    for index in 0..stack.modules() {
        if asks_for_at(kind, stack, index + 1) {
            mark(&mut marks, index + 1);
        }
    }
    marks
}

/// Marks the module with this number alone.
pub(crate) fn alone(number: usize) -> Marks
    requires first { 1 ≤ number }
    requires last { number ≤ MAX_MODULES }
    ensures { (n : ℕ) → 1 ≤ n → mark_of result n ≡ (n == number) }
{
    let mut marks = [false; MAX_MODULES];
    mark(&mut marks, number);
    marks
}

/// Whether some run asks for a token, and then asks the module with this number.
fn is_asked_before(
    of: &Judging<'_>,
    kind: Kind,
    asking: &Marks,
    number: usize,
) -> Result<bool, AllocError>
    requires graph { HasGraph of.now }
    requires asking { AreAsking kind of.now.stack.now asking.now }
    requires first { 1 ≤ number }
    requires last { number ≤ MAX_MODULES }
    ensures none { IfOk result (λ is. is ≡ false → NoneAsksBefore kind (judgement_in of.now) number) }
    ensures some { IfOk result (λ is. is ≡ true → NoneAsksBefore kind (judgement_in of.now) number → ⊥) }
{
    // The items say that the modules are numbered from 1 on.
    let _items = of.stack.items();
    let later = alone(number);
    let sought = Sought {
        first: asking,
        codes: CodeSet::all(),
        later: &later,
    };
    leads(of.alloc, of.stack, of.free, &of.soundness.graph, &sought)
}

/// Whether a module with this number only takes a token, and is none of those that are never asked.
fn may_lack(kind: Kind, never_asked: &[usize], number: usize, module: &Module) -> bool
    ensures yes { IsTrue result → (only_takes kind (module_text «module».now) ≡ true) × (Member number never_asked.now → ⊥) }
    ensures no { IsFalse result → only_takes kind (module_text «module».now) ≡ true → Member number never_asked.now }
{
    only_takes(kind, module) && !is_listed(number, never_asked)
}

/// Whether a module with this number only takes a token, is asked, and no run asks for a token before.
fn lacks(
    of: &Judging<'_>,
    kind: Kind,
    asking: &Marks,
    number: usize,
    module: &Module,
) -> Result<bool, AllocError>
    requires graph { HasGraph of.now }
    requires asking { AreAsking kind of.now.stack.now asking.now }
    requires first { 1 ≤ number }
    requires last { number ≤ MAX_MODULES }
    ensures yes { IfOk result (λ is. is ≡ true → Lacks kind (judgement_in of.now) number (module_text «module».now)) }
    ensures no { IfOk result (λ is. is ≡ false → Lacks kind (judgement_in of.now) number (module_text «module».now) → ⊥) }
{
    if !may_lack(kind, &of.soundness.never_asked, number, module) {
        return Ok(false);
    }
    let is_asked = is_asked_before(of, kind, asking, number)?;
    Ok(!is_asked)
}

/// What is wrong with a word by which a module only takes a token, if none is asked for before.
fn lacking_by(kind: Kind, module: &Module, word: &[u8]) -> Option<ArgumentProblem>
    ensures { result ≡ lacking_by kind (module_text «module».now) word.now }
{
    if takes(kind, module, word) {
        Some(ArgumentProblem::NoToken)
    } else {
        None
    }
}

/// Appends S20 of each argument by which a module only takes a token.
fn push_words(spots: &mut Vec<Spot>, kind: Kind, module: &Module) -> Result<(), AllocError>
    ensures { OnOk result (Adds (OfFound (lacking_by kind (module_text «module».now)) (module_text «module».now)) spots.old.items spots.new.items) }
{
    // The number says that positions stay in their type.
    let _count = module.arguments.len();
    for (position, word) in module.arguments.iter().enumerate() {
        let wrong = lacking_by(kind, module, word);
        push_argument(spots, module, position, wrong)?;
    }
    Ok(())
}

/// Appends S20 of the module with this number.
fn push_of_number(
    spots: &mut Vec<Spot>,
    of: &Judging<'_>,
    kind: Kind,
    asking: &Marks,
    number: usize,
) -> Result<(), AllocError>
    requires graph { HasGraph of.now }
    requires asking { AreAsking kind of.now.stack.now asking.now }
    requires first { 1 ≤ number }
    requires last { number ≤ MAX_MODULES }
    ensures { OnOk result (Adds (LacksAt kind (judgement_in of.now) number) spots.old.items spots.new.items) }
{
    let Some(module) = of.stack.module(number) else {
        return Ok(());
    };
    let lacks = lacks(of, kind, asking, number, module)?;
    if !lacks {
        return Ok(());
    }
    push_words(spots, kind, module)?;
    Ok(())
}

/// Appends S20 of a stack, whose service may have a file that others include.
pub(crate) fn push_taking(
    spots: &mut Vec<Spot>,
    of: &Judging<'_>,
    kind: Kind,
    is_included: bool,
) -> Result<(), AllocError>
    requires { HasGraph of.now }
    ensures { OnOk result (Adds (LacksIn is_included kind (judgement_in of.now)) spots.old.items spots.new.items) }
{
    if is_included {
        return Ok(());
    }
    // The items say that the modules are numbered from 1 on.
    let _items = of.stack.items();
    let asking = asking(kind, of.stack);
    for index in 0..of.stack.modules() {
        push_of_number(spots, of, kind, &asking, index + 1)?;
    }
    Ok(())
}

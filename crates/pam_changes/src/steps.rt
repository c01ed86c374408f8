//! The modules that two stacks ask, in one order.

ghost use Rattle.std.specs.Prelude.{◌≡◌, ◌≤◌, ◌++◌, IfOk, OnOk, drop, length, map};
ghost use Rattle.std.specs.List.{list_any};
ghost use Rattle.pam_dispatch.specs.Flat.{modules_of, runs_of};
ghost use Rattle.pam_dispatch.specs.Runs.{answers_of};
ghost use Rattle.pam_conf.specs.declared.stack.TheConstants.{MAX_MODULES};
ghost use Rattle.pam_changes.specs.Steps.{as_old, asked_modules, asked_numbers, before, from, is_listed, is_number, is_shown, left_after, merged};
ghost use Rattle.pam_changes.specs.Steps.{old_alone, one_with, shown_new, step_of};

use pam_codes::Code;
use pam_compare::{Matching, Witness};
use pam_dispatch::{Program, Work};
use std::alloc::{AllocError, Global};

/// A module that is asked, and its answer.
#[derive(Clone, Copy, Debug, PartialEq, Eq)]
pub enum AskedModule {
    /// A module that only the old stack has, or that answers otherwise than the one it is matched with.
    Old { number: usize, code: Code },
    /// The same of the new stack.
    New { number: usize, code: Code },
    /// Matched modules with the same answer, whichever stack asks them.
    Both { old: usize, new: usize, code: Code },
}

/// Two programs with answers of their modules, and which of these are one.
#[derive(Clone, Copy)]
pub(crate) struct Answered<'x> {
    pub matching: &'x Matching,
    pub old_codes: &'x [Code],
    pub new_codes: &'x [Code],
}

/// The answer of a module, by its number.
fn answer_of(codes: &[Code], number: usize) -> Code
    ensures { result ≡ answers_of codes.now number }
{
    let index = number.saturating_sub(1);
    if index < codes.len() {
        codes[index]
    } else {
        Code::SUCCESS
    }
}

/// The numbers of the modules that a program asks, in order.
fn asked_numbers(alloc: Global, program: &Program, codes: &[Code]) -> Result<Vec<usize>, AllocError>
    ensures { IfOk result (λ numbers. numbers.items ≡ asked_numbers (runs_of program.now) (answers_of codes.now)) }
{
    let mut numbers = Vec::new(alloc);
    let mut work = Work::new();
    let mut place = program.first();
    while let Some(number) = place.module() {
        numbers.push(number)?;
        program.step_on(&mut place, answer_of(codes, number), &mut work);
    }
    Ok(numbers)
}

fn is_listed(number: usize, numbers: &[usize]) -> bool
    ensures { result ≡ is_listed number numbers.now }
{
    numbers.contains(&number)
}

fn is_number(number: usize, other: Option<usize>) -> bool
    ensures { result ≡ is_number number other }
{
    other == Some(number)
}

impl Answered<'_> {
    /// The module of the old stack that is one with a module of the new stack: it is matched with it, and gives the same answer.
    #[tactic(auto, unfolding(crate::specs::Steps::one_with))]
    fn one_with(&self, number: usize) -> Option<usize>
        ensures { result ≡ one_with self.now.matching.now (answers_of self.now.old_codes.now) (answers_of self.now.new_codes.now) number }
    {
        let Some(partner) = self.matching.partner(number) else {
            return None;
        };
        if answer_of(self.old_codes, partner) == answer_of(self.new_codes, number) {
            return Some(partner);
        }
        None
    }

    /// Whether a module of the new stack is asked, or is one with a module that the old stack asks.
    fn is_shown(&self, old_asked: &[usize], new_asked: &[usize], number: usize) -> bool
        ensures { result ≡ is_shown self.now.matching.now (answers_of self.now.old_codes.now) (answers_of self.now.new_codes.now) old_asked.now
            new_asked.now number }
    {
        if is_listed(number, new_asked) {
            return true;
        }
        match self.one_with(number) {
            Some(partner) => is_listed(partner, old_asked),
            None => false,
        }
    }

    /// The modules of the new stack, which has `modules`, that are shown.
    #[tactic(auto, unfolding(crate::specs::Steps::shown_new))]
    fn shown_new(
        &self,
        alloc: Global,
        old_asked: &[usize],
        new_asked: &[usize],
        modules: usize,
    ) -> Result<Vec<usize>, AllocError>
        requires { modules ≤ MAX_MODULES }
        ensures { IfOk result (λ shown. shown.items ≡ shown_new self.now.matching.now (answers_of self.now.old_codes.now)
            (answers_of self.now.new_codes.now) old_asked.now new_asked.now modules) }
    {
        let mut shown = Vec::new(alloc);
        for index in 0..modules {
            if self.is_shown(old_asked, new_asked, index + 1) {
                shown.push(index + 1)?;
            }
        }
        Ok(shown)
    }

    /// Whether a module of the old stack is one with one of these.
    fn is_shared(&self, shown: &[usize], number: usize) -> bool
        ensures { result ≡ list_any (λ other. is_number number (one_with self.now.matching.now (answers_of self.now.old_codes.now)
            (answers_of self.now.new_codes.now) other)) shown.now }
    {
        for other in shown {
            if is_number(number, self.one_with(*other)) {
                return true;
            }
        }
        false
    }

    /// The modules that the old stack asks, and that are one with none of these.
    #[tactic(auto, unfolding(crate::specs::Steps::old_alone))]
    fn old_alone(
        &self,
        alloc: Global,
        old_asked: &[usize],
        shown: &[usize],
    ) -> Result<Vec<usize>, AllocError>
        ensures { IfOk result (λ alone. alone.items ≡ old_alone self.now.matching.now (answers_of self.now.old_codes.now)
            (answers_of self.now.new_codes.now) old_asked.now shown.now) }
    {
        let mut alone = Vec::new(alloc);
        for number in old_asked {
            if !self.is_shared(shown, *number) {
                alone.push(*number)?;
            }
        }
        Ok(alone)
    }

    /// Appends the modules of the old stack, from the place `first` on, that come before module `limit`. Returns the place after
    /// them.
    fn push_before(
        &self,
        asked: &mut Vec<AskedModule>,
        alone: &[usize],
        first: usize,
        limit: usize,
    ) -> Result<usize, AllocError>
        requires { first ≤ length alone.now }
        ensures asked { OnOk result (asked.new.items ≡ asked.old.items
            ++ map (as_old (answers_of self.now.old_codes.now)) (before limit (drop first alone.now))) }
        ensures left { IfOk result (λ place. drop place alone.now ≡ from limit (drop first alone.now)) }
        ensures within { IfOk result (λ place. place ≤ length alone.now) }
    {
        for index in first..alone.len() {
            let number = alone[index];
            if number >= limit {
                return Ok(index);
            }
            asked.push(AskedModule::Old {
                number,
                code: answer_of(self.old_codes, number),
            })?;
        }
        Ok(alone.len())
    }

    /// Appends all modules of the old stack from the place `first` on.
    fn push_rest(
        &self,
        asked: &mut Vec<AskedModule>,
        alone: &[usize],
        first: usize,
    ) -> Result<(), AllocError>
        requires { first ≤ length alone.now }
        ensures { OnOk result (asked.new.items ≡ asked.old.items ++ map (as_old (answers_of self.now.old_codes.now)) (drop first alone.now)) }
    {
        for index in first..alone.len() {
            let number = alone[index];
            asked.push(AskedModule::Old {
                number,
                code: answer_of(self.old_codes, number),
            })?;
        }
        Ok(())
    }

    /// Appends a module of the new stack, and before it, if it is one with a module of the old stack, those which that stack alone
    /// asks before that. Returns the place after these.
    fn push_new(
        &self,
        asked: &mut Vec<AskedModule>,
        alone: &[usize],
        first: usize,
        number: usize,
        one: Option<usize>,
    ) -> Result<usize, AllocError>
        requires { first ≤ length alone.now }
        ensures asked { OnOk result (asked.new.items ≡ asked.old.items ++ step_of (answers_of self.now.old_codes.now) (answers_of self.now.new_codes.now) number
            one (drop first alone.now)) }
        ensures left { IfOk result (λ place. drop place alone.now ≡ left_after one (drop first alone.now)) }
        ensures within { IfOk result (λ place. place ≤ length alone.now) }
    {
        let code = answer_of(self.new_codes, number);
        match one {
            Some(partner) => {
                let place = self.push_before(asked, alone, first, partner)?;
                asked.push(AskedModule::Both {
                    old: partner,
                    new: number,
                    code,
                })?;
                Ok(place)
            }
            None => {
                asked.push(AskedModule::New { number, code })?;
                Ok(first)
            }
        }
    }

    /// The modules of the new stack that are shown, in order, and between them those of the old stack that are one with none.
    fn merged(
        &self,
        alloc: Global,
        alone: &[usize],
        shown: &[usize],
    ) -> Result<Vec<AskedModule>, AllocError>
        ensures { IfOk result (λ asked. asked.items ≡ merged self.now.matching.now (answers_of self.now.old_codes.now) (answers_of self.now.new_codes.now)
            alone.now shown.now) }
    {
        let mut asked = Vec::new(alloc);
        let mut first = 0;
        for number in shown {
            let one = self.one_with(*number);
            first = self.push_new(&mut asked, alone, first, *number, one)?;
        }
        self.push_rest(&mut asked, alone, first)?;
        Ok(asked)
    }

    /// The modules that either stack asks. `modules` is the number of modules of the new one.
    fn asked_among(
        &self,
        alloc: Global,
        old_asked: &[usize],
        new_asked: &[usize],
        modules: usize,
    ) -> Result<Vec<AskedModule>, AllocError>
        requires { modules ≤ MAX_MODULES }
        ensures { IfOk result (λ asked. asked.items ≡ asked_modules self.now.matching.now (answers_of self.now.old_codes.now)
            (answers_of self.now.new_codes.now) old_asked.now new_asked.now modules) }
    {
        let shown = self.shown_new(alloc, old_asked, new_asked, modules)?;
        let alone = self.old_alone(alloc, old_asked, &shown)?;
        self.merged(alloc, &alone, &shown)
    }
}

/// The modules that either stack asks under a witness, in one order.
pub(crate) fn asked_modules(
    alloc: Global,
    old: &Program,
    new: &Program,
    matching: &Matching,
    witness: &Witness,
) -> Result<Vec<AskedModule>, AllocError>
    ensures { IfOk result (λ asked. asked.items ≡ asked_modules matching.now (answers_of witness.now.old_codes.items)
        (answers_of witness.now.new_codes.items) (asked_numbers (runs_of old.now) (answers_of witness.now.old_codes.items))
        (asked_numbers (runs_of new.now) (answers_of witness.now.new_codes.items)) (modules_of new.now)) }
{
    let old_asked = asked_numbers(alloc, old, &witness.old_codes)?;
    let new_asked = asked_numbers(alloc, new, &witness.new_codes)?;
    let answered = Answered {
        matching,
        old_codes: &witness.old_codes,
        new_codes: &witness.new_codes,
    };
    answered.asked_among(alloc, &old_asked, &new_asked, new.modules())
}

//! The codes that the modules of a stack can answer, as far as they are known from facts.

ghost use Rattle.std.specs.Prelude.{◌≡◌, ◌∷◌, ◌≤◌, ◌<◌, ℕ, []};
ghost use Rattle.std.specs.List.{list_any};
ghost use Rattle.std.specs.Option.{option_map};
ghost use Rattle.std.specs.Str.{bytes_eq};
ghost use Rattle.pam_codes.specs.Code.{auth_err, ignored, module_unknown, new_authtok_reqd, success};
ghost use Rattle.pam_conf.specs.ItemsOf.{module_text};
ghost use Rattle.pam_conf.specs.Stack.{module_count};
ghost use Rattle.pam_paths.specs.Known.{set_for};
ghost use Rattle.pam_facts.specs.Answers.{Allows, answers_at, answers_of, is_there, left_out, module_answers, refused_answers, successes};
ghost use Rattle.pam_facts.specs.declared.answers.Checks.TheVariants.{Fail, MaySucceed};

use crate::facts::Facts;
use crate::failing::failures;
use crate::row::{Class, Fact};
use pam_codes::{Code, CodeSet};
use pam_conf::{Kind, Module, NameList, Stack};
use pam_paths::Known;

/// Whether modules that check who logs in may succeed.
#[derive(Clone, Copy)]
enum Checks {
    MaySucceed,
    Fail,
}

/// The answers of a module that is not there, or has no function.
pub(crate) fn module_unknown() -> CodeSet
    ensures { result ≡ module_unknown ∷ [] }
{
    CodeSet::single(Code::MODULE_UNKNOWN)
}

/// The failure of a module whose other codes are all left out.
fn failure() -> CodeSet
    ensures { result ≡ auth_err ∷ [] }
{
    CodeSet::single(Code::AUTH_ERR)
}

fn successes() -> CodeSet
    ensures { result ≡ successes }
{
    let mut codes = CodeSet::single(Code::SUCCESS);
    codes.insert(Code::NEW_AUTHTOK_REQD);
    codes
}

fn successes_and_ignore() -> CodeSet
    ensures { result ≡ success ∷ new_authtok_reqd ∷ ignored ∷ [] }
{
    let mut codes = successes();
    codes.insert(Code::IGNORE);
    codes
}

/// The codes that a module of a class does not answer.
fn left_out(checks: Checks, class: Class) -> CodeSet
    ensures { result ≡ left_out checks class }
{
    match (checks, class) {
        (_, Class::Fails) => successes(),
        (Checks::Fail, Class::Checks) => successes_and_ignore(),
        (Checks::Fail, Class::Ignores) => successes(),
        _ => CodeSet::empty(),
    }
}

/// The answers that its row leaves a module.
#[tactic(auto, unfolding(crate::specs::Answers::answers_of))]
fn answers_of(checks: Checks, kind: Kind, fact: Fact) -> CodeSet
    ensures { result ≡ answers_of checks kind fact }
{
    let left_out = left_out(checks, fact.class);
    let codes = fact.codes_in(kind).without(left_out);
    if codes.is_empty() {
        return failure();
    }
    codes
}

/// The answers of a module that always fails by what its arguments are.
#[tactic(auto, unfolding(crate::specs::Answers::refused_answers))]
fn refused_answers(kind: Kind, fact: Fact) -> CodeSet
    ensures { result ≡ refused_answers kind fact }
{
    let codes = fact.codes_in(kind).without(successes_and_ignore());
    if codes.is_empty() {
        return failures();
    }
    codes
}

fn has_path(paths: &NameList, path: &[u8]) -> bool
    ensures { result ≡ list_any (λ known. bytes_eq known path.now) paths.now }
{
    paths.has(path)
}

/// Whether there is a module at a path, as rules write it, among these; `None` if it is not known where modules are, and then each
/// is taken to be there.
pub fn is_there(there: Option<&NameList>, path: &[u8]) -> bool
    ensures { result ≡ is_there (option_map (λ t. t.now) there.entry) path.now }
{
    match there {
        Some(paths) => has_path(paths, path),
        None => true,
    }
}

/// What is asked of the modules of a stack.
#[derive(Clone, Copy)]
struct Question<'x, 'f> {
    facts: &'x Facts<'f>,
    checks: Checks,
    kind: Kind,
    there: Option<&'x NameList>,
}

impl Question<'_, '_> {
    #[tactic(auto, unfolding(crate::specs::Answers::module_answers))]
    fn module_answers(&self, module: &Module) -> CodeSet
        ensures { result ≡ module_answers self.now.checks self.now.kind self.now.facts.now (option_map (λ t. t.now) self.now.there) (module_text «module».now) }
    {
        if !is_there(self.there, &module.path) {
            return module_unknown();
        }
        let fact = self.facts.of(&module.path, &module.arguments);
        if self.facts.always_fails(self.kind, module) {
            return refused_answers(self.kind, fact);
        }
        answers_of(self.checks, self.kind, fact)
    }

    fn answers_at(&self, stack: &Stack, number: usize) -> CodeSet
        ensures { result ≡ answers_at self.now.checks self.now.kind self.now.facts.now (option_map (λ t. t.now) self.now.there) stack.now number }
    {
        match stack.module(number) {
            Some(module) => self.module_answers(module),
            None => CodeSet::all(),
        }
    }

    fn known(&self, stack: &Stack) -> Known
        ensures { (m : ℕ) → 1 ≤ m → m ≤ module_count stack.now → set_for result m
            ≡ answers_at self.now.checks self.now.kind self.now.facts.now (option_map (λ t. t.now) self.now.there) stack.now m }
    {
        let mut known = Known::new();
        for index in 0..stack.modules() {
            known.set(index + 1, self.answers_at(stack, index + 1));
        }
        known
    }
}

impl Facts<'_> {
    /// The codes that the modules of a stack of this kind can answer. Of one that always fails by what
    /// its arguments are, `success`, `new_authtok_reqd` and `ignore` are left out, whatever its row says. `there` has the paths at which a module is there, as
    /// rules write them; `None` if that is not known, and then each is taken to be there.
    pub fn answers(&self, stack: &Stack, kind: Kind, there: Option<&NameList>) -> Known
        ensures { Allows (module_count stack.now) result (answers_at MaySucceed kind self.now (option_map (λ t. t.now) there.entry) stack.now) }
    {
        let question = Question {
            facts: self,
            checks: Checks::MaySucceed,
            kind,
            there,
        };
        question.known(stack)
    }

    /// Like `answers`, where each module that checks who logs in fails. It answers none of `success`, `new_authtok_reqd` and,
    /// unless it may ignore, `ignore`; and `auth_err` if it has no other code.
    pub fn answers_if_checks_fail(
        &self,
        stack: &Stack,
        kind: Kind,
        there: Option<&NameList>,
    ) -> Known
        ensures { Allows (module_count stack.now) result (answers_at Fail kind self.now (option_map (λ t. t.now) there.entry) stack.now) }
    {
        let question = Question {
            facts: self,
            checks: Checks::Fail,
            kind,
            there,
        };
        question.known(stack)
    }
}

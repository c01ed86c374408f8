//! A stack at which rules are judged, and what is known of its modules.

ghost use Rattle.std.specs.Prelude.{◌≡◌, ◌∷◌, []};
ghost use Rattle.std.specs.List.{list_all};
ghost use Rattle.pam_codes.specs.Code.{ignored, new_authtok_reqd, success};
ghost use Rattle.pam_conf.specs.ItemsOf.{module_text};
ghost use Rattle.pam_policy.specs.rules.Happening.{codes_at_module, codes_meant, event_answers, letting_go, speaks_of};
ghost use Rattle.pam_policy.specs.rules.Site.{site_view};
ghost use Rattle.pam_policy.specs.text.Events.{event_view};
ghost use Rattle.pam_policy.specs.text.Tests.{holds, test_view};

use crate::text::{Codes, Event, Test};
use pam_codes::{Code, CodeSet};
use pam_conf::{Kind, Module, Stack};
use pam_facts::{Class, Facts};
use pam_graph::Graph;
use pam_paths::Known;
use pam_text::Texts;

/// A stack of a kind, and what is known of its modules.
#[derive(Clone, Copy)]
pub struct Site<'a, 'f> {
    pub kind: Kind,
    pub stack: &'a Stack,
    /// What tells which modules say who logs in.
    pub facts: &'a Facts<'f>,
    /// The answers that the modules may give.
    pub known: &'a Known,
    /// The runs of the stack with these answers.
    pub graph: &'a Graph,
}

/// `success` and `new_authtok_reqd`.
fn successes() -> CodeSet
    ensures { result ≡ success ∷ new_authtok_reqd ∷ [] }
{
    let mut codes = CodeSet::single(Code::SUCCESS);
    codes.insert(Code::NEW_AUTHTOK_REQD);
    codes
}

/// `success`, `new_authtok_reqd` and `ignore`.
fn successes_and_ignore() -> CodeSet
    ensures { result ≡ success ∷ new_authtok_reqd ∷ ignored ∷ [] }
{
    let mut codes = successes();
    codes.insert(Code::IGNORE);
    codes
}

/// The answers with which a module of a class lets go on.
fn letting_go(kind: Kind, class: Class) -> CodeSet
    ensures { result ≡ letting_go kind class }
{
    match (kind, class) {
        (Kind::Auth, Class::Checks | Class::Ignores) => successes(),
        _ => successes_and_ignore(),
    }
}

/// Whether each of these tests holds of arguments.
fn all_hold(tests: &[Test<'_>], arguments: &Texts) -> bool
    ensures { result ≡ list_all (λ test. holds (test_view test) arguments.now) tests.now }
{
    tests.iter().all(|test| test.holds(arguments))
}

/// Whether an event speaks of a module: of its path and of its arguments.
fn speaks_of(event: &Event<'_>, is_strict: bool, module: &Module) -> bool
    ensures { result ≡ speaks_of (event_view event.now) is_strict (module_text «module».now) }
{
    event.names(&module.path, is_strict) && all_hold(&event.tests, &module.arguments)
}

impl Site<'_, '_> {
    /// The codes that are meant at a module.
    fn codes_meant(&self, module: &Module, codes: Codes) -> CodeSet
        ensures { result ≡ codes_meant (site_view self.now) (module_text «module».now) codes }
    {
        match codes {
            Codes::Given(codes) => codes,
            Codes::LetsGoOn => {
                let fact = self.facts.of(&module.path, &module.arguments);
                letting_go(self.kind, fact.class)
            }
        }
    }

    /// The answers by which an event happens at a module.
    #[tactic(auto, unfolding(crate::specs::rules::Happening::codes_at_module))]
    fn codes_at_module(&self, event: &Event<'_>, is_strict: bool, module: &Module) -> CodeSet
        ensures { result ≡ codes_at_module (site_view self.now) is_strict (event_view event.now) (module_text «module».now) }
    {
        if speaks_of(event, is_strict, module) {
            self.codes_meant(module, event.codes)
        } else {
            CodeSet::empty()
        }
    }

    /// The answers by which an event happens at the module with this number.
    pub(crate) fn event_answers(&self, event: &Event<'_>, is_strict: bool, number: usize) -> CodeSet
        ensures { result ≡ event_answers (site_view self.now) is_strict (event_view event.now) number }
    {
        match self.stack.module(number) {
            Some(module) => self.codes_at_module(event, is_strict, module),
            None => CodeSet::empty(),
        }
    }
}

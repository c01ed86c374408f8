//! Modules that always fail, since they do not take their arguments.

ghost use Rattle.std.specs.Prelude.{◌≡◌, false};
ghost use Rattle.std.specs.Option.{option_map_or};
ghost use Rattle.pam_conf.specs.ItemsOf.{module_text};
ghost use Rattle.pam_facts.specs.Failing.{always_fails, failures, fails_by_lack, is_refused, refuses_one};
ghost use Rattle.pam_facts.specs.arguments.Calls.{lack_in};
ghost use Rattle.pam_facts.specs.arguments.Views.{module_view, verdict_view};

use crate::arguments::{Lack, Module as KnownModule, Reaction, Verdict, known_of, lack_in};
use crate::facts::Facts;
use pam_codes::{Code, CodeSet};
use pam_conf::{Kind, Module};

fn is_refused(verdict: Verdict<'_>) -> bool
    ensures { result ≡ is_refused (verdict_view verdict.entry) }
{
    match verdict {
        Verdict::Unknown(Reaction::Fails) => true,
        Verdict::Unknown(_)
        | Verdict::Known
        | Verdict::Free
        | Verdict::Longer(_)
        | Verdict::OtherKind
        | Verdict::BadValue(_)
        | Verdict::Weak => false,
    }
}

/// Whether a module of which this is known refuses an argument of its rule.
fn refuses_one(facts: &Facts<'_>, known: &KnownModule<'_>, kind: Kind, module: &Module) -> bool
    ensures { result ≡ refuses_one facts.now kind (module_text «module».now) (module_view known.now) }
{
    module
        .arguments
        .iter()
        .any(|word| is_refused(facts.judge(known, kind, module, word)))
}

fn fails_by_lack(kind: Kind, lack: Lack) -> bool
    ensures { result ≡ fails_by_lack kind lack }
{
    match (kind, lack) {
        (_, Lack::List) | (Kind::Password, Lack::Program) => false,
        (_, Lack::Program | Lack::Database | Lack::UserType | Lack::Condition) => true,
    }
}

/// Whether the arguments of a rule lack what its module cannot do without.
fn lacks_too_much(kind: Kind, module: &Module) -> bool
    ensures { result ≡ option_map_or (fails_by_lack kind) (lack_in kind (module_text «module».now)) false }
{
    match lack_in(kind, module) {
        Some(lack) => fails_by_lack(kind, lack),
        None => false,
    }
}

impl Facts<'_> {
    /// Whether the module of a rule of this kind always fails, by what its arguments are.
    #[tactic(auto, unfolding(crate::specs::Failing::always_fails))]
    pub fn always_fails(&self, kind: Kind, module: &Module) -> bool
        ensures { result ≡ always_fails self.now kind (module_text «module».now) }
    {
        if lacks_too_much(kind, module) {
            return true;
        }
        match known_of(self.arguments(), module) {
            Some(known) => refuses_one(self, &known, kind, module),
            None => false,
        }
    }
}

/// The codes with which a required module does not let go on.
pub(crate) fn failures() -> CodeSet
    ensures { result ≡ failures }
{
    let mut successes = CodeSet::single(Code::SUCCESS);
    successes.insert(Code::NEW_AUTHTOK_REQD);
    successes.insert(Code::IGNORE);
    CodeSet::all().without(successes)
}

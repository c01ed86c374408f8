//! The facts of a module.

ghost use Rattle.std.specs.Prelude.{◌≡◌, ◌≢◌, ◌==◌, ◌||◌, [], if◌then◌else◌};
ghost use Rattle.pam_codes.specs.Set.{codes_where, is_in};
ghost use Rattle.pam_facts.specs.Facts.{codes_in, codes_of, has_function, is_unknown_alone, unknown};

use crate::kinds::Kinds;
use pam_codes::{Code, CodeSet};
use pam_conf::Kind;

/// What the success of a module in `auth` says.
#[derive(Clone, Copy, Debug, PartialEq, Eq)]
pub enum Class {
    /// Who logs in: the module checks it.
    Checks,
    /// Who logs in, but where the module cannot check it, the module may answer `ignore`.
    Ignores,
    /// Nothing of who logs in.
    Passes,
    /// The module never succeeds.
    Fails,
}

/// The codes that a module can answer in each kind. An empty set is any code.
#[derive(Clone, Copy, Debug, PartialEq, Eq)]
pub struct CodesByKind {
    pub auth: CodeSet,
    pub account: CodeSet,
    pub password: CodeSet,
    pub session: CodeSet,
}

/// A set of codes, with one more where it is of a kind that is named.
fn with_code(codes: CodeSet, is_named: bool, code: Code) -> CodeSet
    ensures { result ≡ (if is_named then codes_where (λ c. c == code || is_in c codes) else codes) }
{
    let mut codes = codes;
    if is_named {
        codes.insert(code);
    }
    codes
}

impl CodesByKind {
    /// Any code in each kind.
    pub(crate) fn any() -> CodesByKind
        ensures { result ≡ record { auth = []; account = []; password = []; session = [] } }
    {
        CodesByKind {
            auth: CodeSet::empty(),
            account: CodeSet::empty(),
            password: CodeSet::empty(),
            session: CodeSet::empty(),
        }
    }

    /// Adds a code in each of these kinds.
    pub(crate) fn insert(&mut self, kinds: Kinds, code: Code)
        ensures { self.new ≡ record {
          auth = if kinds.auth then codes_where (λ c. c == code || is_in c self.old.auth) else self.old.auth;
          account = if kinds.account then codes_where (λ c. c == code || is_in c self.old.account) else self.old.account;
          password = if kinds.password then codes_where (λ c. c == code || is_in c self.old.password) else self.old.password;
          session = if kinds.session then codes_where (λ c. c == code || is_in c self.old.session) else self.old.session;
        } }
    {
        self.auth = with_code(self.auth, kinds.auth, code);
        self.account = with_code(self.account, kinds.account, code);
        self.password = with_code(self.password, kinds.password, code);
        self.session = with_code(self.session, kinds.session, code);
    }

    fn of(self, kind: Kind) -> CodeSet
        ensures { result ≡ codes_of kind self }
    {
        match kind {
            Kind::Auth => self.auth,
            Kind::Account => self.account,
            Kind::Password => self.password,
            Kind::Session => self.session,
        }
    }
}

/// What is known of a module, for the arguments of its rule.
#[derive(Clone, Copy, Debug, PartialEq, Eq)]
pub struct Fact {
    pub class: Class,
    pub codes: CodesByKind,
}

/// Whether a set has `module_unknown` and no other code.
fn is_unknown_alone(codes: CodeSet) -> bool
    ensures { result ≡ is_unknown_alone codes }
{
    match codes.least() {
        Some(code) => codes.len() == 1 && code == Code::MODULE_UNKNOWN,
        None => false,
    }
}

impl Fact {
    /// The fact of a module of which nothing is known: it checks, and can answer any code.
    pub fn unknown() -> Fact
        ensures { result ≡ unknown }
    {
        Fact {
            class: Class::Checks,
            codes: CodesByKind::any(),
        }
    }

    /// The codes that the module can answer in a kind. There is at least one.
    #[tactic(auto, unfolding(pam_codes::specs::Code::all_codes))]
    pub fn codes_in(self, kind: Kind) -> CodeSet
        ensures value { result ≡ codes_in kind self }
        ensures some { result ≢ [] }
    {
        let codes = self.codes.of(kind);
        if codes.is_empty() {
            CodeSet::all()
        } else {
            codes
        }
    }

    /// Whether the module has a function in a kind. One that has none answers `module_unknown` and nothing else.
    pub fn has_function(self, kind: Kind) -> bool
        ensures { result ≡ has_function kind self }
    {
        !is_unknown_alone(self.codes_in(kind))
    }
}

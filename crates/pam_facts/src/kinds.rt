//! A word that names kinds, as `auth,account`.

ghost use Rattle.std.specs.Prelude.{◌≡◌};
ghost use Rattle.std.specs.Option.{option_map};
ghost use Rattle.std.specs.Iterator.{YieldsFirstRef, item_count};
ghost use Rattle.pam_facts.specs.Kinds.{all_kinds, has_kind, kinds_named, names_in, no_kinds, with_kind};
ghost use Rattle.pam_facts.specs.inner.Kinds.{names_left};

use pam_conf::Kind;
use pam_text::cut;

/// The texts between commas, of which there is at least one.
#[derive(Drop)]
struct Names<'a> {
    rest: Option<&'a [u8]>,
}

impl<'a> Names<'a> {
    fn of(word: &'a [u8]) -> Self
        ensures { names_left (option_map (λ t. t.now) result.rest) ≡ names_in word.now }
    {
        Names { rest: Some(word) }
    }
}

impl<'a> Iterator for Names<'a> {
    type Item = &'a [u8];

    ghost next_gives = { YieldsFirstRef (λ s. names_left (option_map (λ t. t.now) s.rest)) };

    ghost remaining = { item_count (λ s. names_left (option_map (λ t. t.now) s.rest)) };

    fn next(&mut self) -> Option<&'a [u8]> {
        let text = self.rest?;
        match cut(text, b',') {
            Some((name, rest)) => {
                self.rest = Some(rest);
                Some(name)
            }
            None => {
                self.rest = None;
                Some(text)
            }
        }
    }
}

/// Some of the four kinds.
#[derive(Clone, Copy, Debug, PartialEq, Eq)]
pub struct Kinds {
    pub auth: bool,
    pub account: bool,
    pub password: bool,
    pub session: bool,
}

impl Kinds {
    /// No kind.
    pub fn empty() -> Kinds
        ensures { result ≡ no_kinds }
    {
        Kinds {
            auth: false,
            account: false,
            password: false,
            session: false,
        }
    }

    /// All four kinds.
    pub(crate) fn all() -> Kinds
        ensures { result ≡ all_kinds }
    {
        Kinds {
            auth: true,
            account: true,
            password: true,
            session: true,
        }
    }

    /// Whether this kind is there.
    pub(crate) fn has(self, kind: Kind) -> bool
        ensures { result ≡ has_kind kind self }
    {
        match kind {
            Kind::Auth => self.auth,
            Kind::Account => self.account,
            Kind::Password => self.password,
            Kind::Session => self.session,
        }
    }

    /// Adds `kind`, if it is not there yet.
    pub fn insert(&mut self, kind: Kind)
        ensures { self.new ≡ with_kind kind self.old }
    {
        match kind {
            Kind::Auth => self.auth = true,
            Kind::Account => self.account = true,
            Kind::Password => self.password = true,
            Kind::Session => self.session = true,
        }
    }

    /// The kinds that a word names, if each of its names is that of a kind.
    pub(crate) fn named(word: &[u8]) -> Option<Kinds>
        ensures { result ≡ kinds_named word.now }
    {
        let mut kinds = Kinds::empty();
        for name in Names::of(word) {
            kinds.insert(Kind::from_name(name)?);
        }
        Some(kinds)
    }
}

//! The services and the kinds that a rule is about.

ghost use Rattle.std.specs.Prelude.{◌≡◌, ◌==◌, ◌||◌};
ghost use Rattle.std.specs.List.{list_any};
ghost use Rattle.pam_facts.specs.Kinds.{kinds_of_names};
ghost use Rattle.pam_tables.specs.Tokens.{ends_with_name};
ghost use Rattle.pam_tables.specs.times.Pattern.{has_two_stars};
ghost use Rattle.pam_policy.specs.text.Services.{fits, is_framed, is_name, kinds_of, name_fits, services_of, services_view, tokens_in};
ghost use Rattle.pam_policy.specs.text.inner.Error.{GivesPart};
ghost use Rattle.pam_policy.specs.text.inner.Services.{with_token};

use crate::text::error::PolicyFault;
use pam_codes::is_name as is_same_name;
use pam_conf::Kind;
use pam_facts::Kinds;
use pam_text::cut;
use std::alloc::Global;

/// The services that a rule is about. A `*` in a name matches any bytes, and case is ignored.
#[derive(Drop)]
pub struct Services<'a> {
    /// The names of tokens without `!`, of which there is at least one.
    pub wanted: Vec<&'a [u8]>,
    /// The names of tokens with `!`, without it.
    pub unwanted: Vec<&'a [u8]>,
}

fn has_two_stars(name: &[u8]) -> bool
    ensures { result ≡ has_two_stars name.now }
{
    name.iter().filter(|byte| **byte == b'*').count() > 1
}

/// Whether a name has a `!` or a `/`.
fn has_mark(name: &[u8]) -> bool
    ensures { result ≡ list_any (λ b. b == 33 || b == 47) name.now }
{
    name.iter().any(|byte| *byte == b'!' || *byte == b'/')
}

#[tactic(auto, using(crate::proofs::TextProofs::ServiceSteps::bytes_there))]
fn is_name(name: &[u8]) -> bool
    ensures { result ≡ is_name name.now }
{
    !name.is_empty() && !(has_mark(name) || has_two_stars(name))
}

/// Whether a text ends with another, ignoring case.
fn ends_with_name(text: &[u8], end: &[u8]) -> bool
    ensures { result ≡ ends_with_name text.now end.now }
{
    end.len() <= text.len() && is_same_name(end, text.split_at(text.len() - end.len()).1)
}

fn is_framed(front: &[u8], back: &[u8], service: &[u8]) -> bool
    ensures { result ≡ is_framed front.now back.now service.now }
{
    let (start, rest) = service.split_at(front.len().min(service.len()));
    is_same_name(front, start) && ends_with_name(rest, back)
}

#[tactic(auto, unfolding(crate::specs::text::Services::name_fits))]
fn name_fits(name: &[u8], service: &[u8]) -> bool
    ensures { result ≡ name_fits name.now service.now }
{
    match cut(name, b'*') {
        Some((front, back)) => is_framed(front, back, service),
        None => is_same_name(name, service),
    }
}

/// Whether one of these names fits a service.
fn some_fits(names: &[&[u8]], service: &[u8]) -> bool
    ensures { result ≡ list_any (λ name. name_fits name.now service.now) names.now }
{
    names.iter().any(|name| name_fits(name, service))
}

impl<'a> Services<'a> {
    /// Adds the name of a token.
    #[tactic(auto, unfolding(crate::specs::text::inner::Services::with_token))]
    fn add(&mut self, token: &'a [u8]) -> Result<(), PolicyFault>
        ensures { GivesPart (λ _. services_view self.new) result (with_token (services_view self.old) token.now) }
    {
        let leaves_out = token.starts_with(b"!");
        let name = if leaves_out {
            token.split_at(1).1
        } else {
            token
        };
        if !is_name(name) {
            return Err(PolicyFault::BadServices);
        }
        if leaves_out {
            self.unwanted.push(name)?;
        } else {
            self.wanted.push(name)?;
        }
        Ok(())
    }

    /// The services of a word: tokens between commas.
    pub(crate) fn read(alloc: Global, word: &'a [u8]) -> Result<Services<'a>, PolicyFault>
        ensures { GivesPart services_view result (services_of word.now) }
    {
        let mut services = Services {
            wanted: Vec::new(alloc),
            unwanted: Vec::new(alloc),
        };
        for token in word.split(|byte| *byte == b',') {
            services.add(token)?;
        }
        if services.wanted.is_empty() {
            return Err(PolicyFault::BadServices);
        }
        Ok(services)
    }

    /// Whether the rule is about a service: a name that is wanted fits it, and none that is left out does.
    #[tactic(auto, unfolding(crate::specs::text::Services::fits))]
    pub fn fits(&self, service: &[u8]) -> bool
        ensures { result ≡ fits (services_view self.now) service.now }
    {
        some_fits(&self.wanted, service) && !some_fits(&self.unwanted, service)
    }
}

/// The kinds that a word names, if each of its names is that of a kind.
fn named_kinds(word: &[u8]) -> Option<Kinds>
    ensures { result ≡ kinds_of_names (tokens_in word.now) }
{
    let mut kinds = Kinds::empty();
    for name in word.split(|byte| *byte == b',') {
        kinds.insert(Kind::from_name(name)?);
    }
    Some(kinds)
}

/// The kinds of a word: `*` or names between commas.
#[tactic(auto, unfolding(crate::specs::text::Services::kinds_of))]
pub(crate) fn read_kinds(word: &[u8]) -> Result<Kinds, PolicyFault>
    ensures { result ≡ kinds_of word.now }
{
    if word == b"*".as_slice() {
        return Ok(Kinds {
            auth: true,
            account: true,
            password: true,
            session: true,
        });
    }
    named_kinds(word).ok_or(PolicyFault::BadKinds)
}

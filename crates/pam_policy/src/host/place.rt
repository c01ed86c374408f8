//! The places of a host, of which rules speak.

ghost use Rattle.std.specs.Prelude.{◌≡◌, IfSome, Some};
ghost use Rattle.std.specs.Option.{option_map};
ghost use Rattle.pam_facts.specs.Kinds.{has_kind};
ghost use Rattle.pam_text.specs.Members.{Member};
ghost use Rattle.pam_policy.specs.host.Places.{place_view, speaks_of};
ghost use Rattle.pam_policy.specs.host.Stacks.{known_site, site_of, stacks_view};
ghost use Rattle.pam_policy.specs.text.Rules.{rule_view};

use crate::rules::Site;
use crate::text::Rule;
use pam_conf::Kind;
use pam_facts::Kinds;

/// The stack of a service for a kind.
#[derive(Clone, Copy)]
pub struct Place<'a> {
    pub service: &'a [u8],
    pub kind: Kind,
    /// The index of its class. Stacks of a kind with the same items and the same answers have one.
    pub class: usize,
}

/// The stacks of a host.
#[derive(Clone, Copy)]
pub struct Stacks<'a, 'f> {
    pub places: &'a [Place<'a>],
    /// Where rules are judged for each class; `None` where the stack is refused, or its runs are too many.
    pub classes: &'a [Option<Site<'a, 'f>>],
}

fn has_kind(kinds: Kinds, kind: Kind) -> bool
    ensures { result ≡ has_kind kind kinds }
{
    match kind {
        Kind::Auth => kinds.auth,
        Kind::Account => kinds.account,
        Kind::Password => kinds.password,
        Kind::Session => kinds.session,
    }
}

/// Whether a rule is about the stack at a place.
pub(crate) fn speaks_of(rule: &Rule<'_>, place: &Place<'_>) -> bool
    ensures { result ≡ speaks_of (rule_view rule.now) (place_view place.now) }
{
    rule.fits(place.service) && has_kind(rule.kinds, place.kind)
}

impl<'a, 'f> Stacks<'a, 'f> {
    /// Where rules are judged for a class, if anything is known of it.
    pub(crate) fn site(&self, class: usize) -> Option<&'a Site<'a, 'f>>
        ensures known { option_map (λ site. known_site site.now) result ≡ site_of (stacks_view self.now) class }
        ensures there { IfSome result (λ site. Member (Some site.now) self.now.classes.now) }
    {
        match self.classes.get(class) {
            Some(site) => site.as_ref(),
            None => None,
        }
    }
}

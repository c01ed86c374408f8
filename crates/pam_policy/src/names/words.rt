//! What a rule names that a host does not have.

ghost use Rattle.std.specs.Prelude.{◌≡◌, IfOk, map};
ghost use Rattle.pam_policy.specs.names.Host.{host_view};
ghost use Rattle.pam_policy.specs.names.Misnamed.{misnamed};
ghost use Rattle.pam_policy.specs.names.Words.{misnamed_view};
ghost use Rattle.pam_policy.specs.text.Rules.{rule_view};

use crate::names::arguments::say_of_arguments;
use crate::names::host::Host;
use crate::names::modules::say_of_modules;
use crate::names::placed::placed_events;
use crate::names::services::of_services;
use crate::names::word::Misnamed;
use crate::text::Rule;
use std::alloc::{AllocError, Global};

/// What a rule names that a host does not have, in the order of numbers and words, each once: P3, P4 and P7.
///
/// Of a name that several events have, what is said is that of the first of which something is to be said. Takes time linear in the
/// events, the calls and their arguments, multiplied.
#[tactic(auto, unfolding(crate::specs::names::Misnamed::misnamed))]
pub fn misnamed(
    alloc: Global,
    host: &Host<'_>,
    rule: &Rule<'_>,
) -> Result<Vec<Misnamed>, AllocError>
    ensures { IfOk result (λ said. map misnamed_view said.items ≡ misnamed (host_view host.now) (rule_view rule.now)) }
{
    let mut said = of_services(alloc, host, &rule.services)?;
    let events = placed_events(alloc, &rule.sentence)?;
    say_of_modules(alloc, host, &events, &mut said)?;
    say_of_arguments(alloc, host, &events, &mut said)?;
    Ok(said)
}

//! Rules as a walk keeps them: small, with the words of a call in one piece, which is cut when the module is met.
ghost use Rattle.std.specs.Prelude.{◌≡◌, IfOk, map};
ghost use Rattle.std.specs.Option.{option_map};
ghost use Rattle.pam_conf.specs.inner.Kept.{kept_body, kept_view};
ghost use Rattle.pam_conf.specs.Rule.{body_view, rule_view};
ghost use Rattle.pam_conf.specs.Walk.{carries, is_of_kind};

use crate::call::Call;
use crate::rule::{Body, Kind, Rule, is_same};
use std::alloc::{AllocError, Global};

/// What a rule does: like `Body`.
#[derive(Drop)]
pub(crate) enum KeptBody {
    Module(Call),
    Include(Vec<u8>),
    Sub(Vec<u8>),
}

/// A rule of a file: like `Rule`.
#[derive(Drop)]
pub(crate) struct KeptRule {
    pub line: usize,
    pub service: Option<Vec<u8>>,
    pub kind: Option<Kind>,
    pub dashed: bool,
    pub body: KeptBody,
}

/// Whether `rule` applies to `kind`.
pub(crate) fn is_of(rule: &KeptRule, kind: Kind) -> bool
    ensures { result ≡ is_of_kind kind (kept_view rule.now) }
{
    match rule.kind {
        Some(own) => is_same(kind, own),
        None => true,
    }
}

/// Whether `rule` is one of pam.conf that names `service`.
pub(crate) fn has_service(rule: &KeptRule, service: &[u8]) -> bool
    ensures { result ≡ carries service.now (kept_view rule.now) }
{
    match &rule.service {
        Some(own) => service == own.as_slice(),
        None => false,
    }
}

fn whole_body(alloc: Global, body: &KeptBody) -> Result<Body, AllocError>
    ensures { IfOk result (λ b. body_view b ≡ kept_body body.now) }
{
    match body {
        KeptBody::Module(call) => {
            let (control, path, arguments) = call.parts(alloc)?;
            Ok(Body::Module(control, path, arguments))
        }
        KeptBody::Include(target) => Ok(Body::Include(target.as_slice().to_vec(alloc)?)),
        KeptBody::Sub(target) => Ok(Body::Sub(target.as_slice().to_vec(alloc)?)),
    }
}

/// A copy of the service of a rule, if it has one.
fn service_of(alloc: Global, rule: &KeptRule) -> Result<Option<Vec<u8>>, AllocError>
    ensures { IfOk result (λ service. option_map (λ s. s.items) service ≡ (kept_view rule.now).service) }
{
    match &rule.service {
        Some(service) => Ok(Some(service.as_slice().to_vec(alloc)?)),
        None => Ok(None),
    }
}

fn whole_rule(alloc: Global, rule: &KeptRule) -> Result<Rule, AllocError>
    ensures { IfOk result (λ r. rule_view r ≡ kept_view rule.now) }
{
    let body = whole_body(alloc, &rule.body)?;
    let service = service_of(alloc, rule)?;
    Ok(Rule {
        line: rule.line,
        service,
        kind: rule.kind,
        dashed: rule.dashed,
        body,
    })
}

/// The rules with their words cut.
pub(crate) fn whole_rules(alloc: Global, kept: &[KeptRule]) -> Result<Vec<Rule>, AllocError>
    ensures { IfOk result (λ rules. map rule_view rules.items ≡ map kept_view kept.now) }
{
    let mut rules = Vec::with_capacity(alloc, kept.len())?;
    for rule in kept {
        rules.push(whole_rule(alloc, rule)?)?;
    }
    Ok(rules)
}

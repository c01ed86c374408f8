//! What the stacks of a host say of the rules of a policy.

ghost use Rattle.std.specs.Prelude.{◌≡◌, All, IfErr, IfOk, IfSome, map, slice_get, unwrap_or, []};
ghost use Rattle.std.specs.Option.{option_map};
ghost use Rattle.pam_paths.specs.Known.{may_answer};
ghost use Rattle.pam_policy.specs.host.HostStacks.{HasGraph};
ghost use Rattle.pam_policy.specs.host.Places.{place_view};
ghost use Rattle.pam_policy.specs.host.Stacks.{HaveGraphs, known_site, stacks_view};
ghost use Rattle.pam_policy.specs.host.Told.{AreReports, WhyNotJudged, told_class, told_place, told_stacks};
ghost use Rattle.pam_policy.specs.names.Host.{host_view};
ghost use Rattle.pam_policy.specs.search.Witness.{IsGraphOf};
ghost use Rattle.pam_policy.specs.text.Rules.{rule_view};

use crate::host::place::{Place, Stacks};
use crate::host::report::RuleReport;
use crate::host::stacks::{ClassStack, HostPlace, HostStacks, StackClass};
use crate::names::{Host, each_of};
use crate::rules::{JudgeError, Site};
use crate::text::Rule;
use pam_facts::Facts;
use std::alloc::{AllocError, Global};

/// The name of the service at a position; empty if there is none.
fn name_at<'a>(names: &[&'a [u8]], position: usize) -> &'a [u8]
    ensures { result.now ≡ unwrap_or (slice_get (map (λ name. name.now) names.now) position) [] }
{
    match names.get(position) {
        Some(name) => name,
        None => b"",
    }
}

/// The places with the names of their services.
fn places_of<'a>(
    alloc: Global,
    names: &[&'a [u8]],
    places: &[HostPlace],
) -> Result<Vec<Place<'a>>, AllocError>
    ensures { IfOk result (λ told. map place_view told.items ≡ map (told_place (map (λ name. name.now) names.now)) places.now) }
{
    let mut told = Vec::new(alloc);
    for place in places {
        told.push(Place {
            service: name_at(names, place.service),
            kind: place.kind,
            class: place.class,
        })?;
    }
    Ok(told)
}

/// Where rules are judged for a class, if anything is known of it.
fn site_of<'a, 'f>(facts: &'a Facts<'f>, class: &'a StackClass) -> Option<Site<'a, 'f>>
    ensures known { option_map known_site result ≡ told_class facts.now class.now }
    ensures graph { HasGraph class.now
        → IfSome result (λ site. IsGraphOf (may_answer site.known.now) site.stack.now site.graph.now) }
{
    match &class.stack {
        ClassStack::Known(known) => Some(Site {
            kind: class.kind,
            stack: &known.stack,
            facts,
            known: &known.known,
            graph: &known.graph,
        }),
        ClassStack::Refused(_) | ClassStack::TooLarge => None,
    }
}

/// Where rules are judged for each class.
fn sites_of<'a, 'f>(
    alloc: Global,
    facts: &'a Facts<'f>,
    classes: &'a [StackClass],
) -> Result<Vec<Option<Site<'a, 'f>>>, AllocError>
    ensures known { IfOk result (λ sites. map (option_map known_site) sites.items ≡ map (told_class facts.now) classes.now) }
    ensures graphs { All HasGraph classes.now → IfOk result (λ sites. HaveGraphs sites.items) }
{
    let mut sites = Vec::new(alloc);
    for class in classes {
        sites.push(site_of(facts, class))?;
    }
    Ok(sites)
}

/// What these stacks say of each rule.
fn reports_on(
    alloc: Global,
    host: &Host<'_>,
    stacks: &Stacks<'_, '_>,
    rules: &[Rule<'_>],
) -> Result<Vec<RuleReport>, JudgeError>
    ensures reports { HaveGraphs stacks.now.classes.now
        → IfOk result (λ reports. AreReports (host_view host.now) (stacks_view stacks.now) (map rule_view rules.now) reports.items) }
    ensures reason { IfErr result (WhyNotJudged (map rule_view rules.now)) }
{
    let mut reports = Vec::new(alloc);
    for rule in rules {
        let report = RuleReport::of(alloc, host, stacks, rule)?;
        reports.push(report)?;
    }
    Ok(reports)
}

impl HostStacks {
    /// What the stacks say of each rule of a policy, in the order of the rules. `facts` tell which modules say who logs in, and are those
    /// from which the stacks were found.
    ///
    /// Takes time linear in the places and classes, and besides for each rule as long as `RuleReport::of`.
    pub fn judge(
        &self,
        alloc: Global,
        facts: &Facts<'_>,
        host: &Host<'_>,
        rules: &[Rule<'_>],
    ) -> Result<Vec<RuleReport>, JudgeError>
        ensures reports { All HasGraph self.now.classes.items
            → IfOk result (λ reports. AreReports (host_view host.now) (told_stacks facts.now self.now) (map rule_view rules.now) reports.items) }
        ensures reason { IfErr result (WhyNotJudged (map rule_view rules.now)) }
    {
        let names = each_of(alloc, &self.services)?;
        let places = places_of(alloc, &names, &self.places)?;
        let classes = sites_of(alloc, facts, &self.classes)?;
        let stacks = Stacks {
            places: &places,
            classes: &classes,
        };
        reports_on(alloc, host, &stacks, rules)
    }
}

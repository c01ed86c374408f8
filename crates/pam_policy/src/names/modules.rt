//! P4: the names of modules that a host does not have.

ghost use Rattle.std.specs.Prelude.{◌≡◌, ◌==◌, ◌∷◌, ◌++◌, [], IfOk, OnOk, filter, filter_map, map, not, unwrap_or};
ghost use Rattle.std.specs.List.{list_any};
ghost use Rattle.std.specs.Option.{option_map};
ghost use Rattle.std.specs.Str.{bytes_eq};
ghost use Rattle.pam_policy.specs.names.Host.{call_view, host_view};
ghost use Rattle.pam_policy.specs.names.Misnamed.{is_known, is_module, module_names, name_at, nearest_module, no_module, of_modules};
ghost use Rattle.pam_policy.specs.names.Placed.{placed_view, speaks_of};
ghost use Rattle.pam_policy.specs.names.Words.{misnamed_view, saying};
ghost use Rattle.pam_policy.specs.text.Events.{without_so};

use crate::names::host::{Call, Host};
use crate::names::placed::PlacedEvent;
use crate::names::word::{Misnamed, Word, say};
use crate::text::without_so;
use pam_conf::NameList;
use pam_facts::known::name_of_path;
use pam_facts::module_name;
use pam_spelling::nearest;
use pam_text::Texts;
use std::alloc::{AllocError, Global};

/// Whether an event speaks of the module of one of these calls.
fn is_called(calls: &[Call], placed: &PlacedEvent<'_>) -> bool
    ensures { result ≡ list_any (λ call. speaks_of (placed_view placed.now) (call_view call).path) calls.now }
{
    calls.iter().any(|call| placed.speaks_of(&call.path))
}

/// Whether a row of the facts is about a module of this name.
fn has_row(known: &Texts, name: &[u8]) -> bool
    ensures { result ≡ list_any (λ row. bytes_eq row (without_so name.now)) known.now }
{
    known.iter().any(|row| row == without_so(name))
}

/// Whether an event speaks of a module at one of these paths.
fn is_among(paths: &Texts, placed: &PlacedEvent<'_>) -> bool
    ensures { result ≡ list_any (speaks_of (placed_view placed.now)) paths.now }
{
    paths.iter().any(|path| placed.speaks_of(path))
}

/// Whether an event speaks of a module that is there.
fn is_there(there: Option<&NameList>, placed: &PlacedEvent<'_>) -> bool
    ensures { result ≡ list_any (speaks_of (placed_view placed.now)) (unwrap_or (option_map (λ paths. paths.now) there.entry) []) }
{
    match there {
        Some(paths) => is_among(paths.names(), placed),
        None => false,
    }
}

/// Whether a row of the facts is about a module of an event's name, or an event speaks of a module that is there.
fn is_known(host: &Host<'_>, placed: &PlacedEvent<'_>) -> bool
    ensures { result ≡ is_known (host_view host.now) (placed_view placed.now) }
{
    has_row(host.known, placed.event.name) || is_there(host.there, placed)
}

/// Whether a rule calls a module of which an event speaks, or one of its name is known.
fn is_module(host: &Host<'_>, placed: &PlacedEvent<'_>) -> bool
    ensures { result ≡ is_module (host_view host.now) (placed_view placed.now) }
{
    is_called(host.calls, placed) || is_known(host, placed)
}

/// The name by which an event could speak of the module at a path.
fn name_at(is_strict: bool, path: &[u8]) -> Option<&[u8]>
    ensures { option_map (λ name. name.now) result ≡ name_at is_strict path.now }
{
    if is_strict {
        module_name(path)
    } else {
        Some(without_so(name_of_path(path)))
    }
}

/// The names of the modules of calls.
fn called_names<'a>(
    alloc: Global,
    calls: &'a [Call],
    is_strict: bool,
) -> Result<Vec<&'a [u8]>, AllocError>
    ensures { IfOk result (λ names. map (λ name. name.now) names.items
        ≡ filter_map (λ call. name_at is_strict call.path) (map call_view calls.now)) }
{
    let mut names = Vec::new(alloc);
    for call in calls {
        if let Some(name) = name_at(is_strict, &call.path) {
            names.push(name)?;
        }
    }
    Ok(names)
}

/// The names of modules that a call or a row has.
fn module_names<'a>(
    alloc: Global,
    host: &'a Host<'a>,
    is_strict: bool,
) -> Result<Vec<&'a [u8]>, AllocError>
    ensures { IfOk result (λ names. map (λ name. name.now) names.items ≡ module_names (host_view host.now) is_strict) }
{
    let mut names = called_names(alloc, host.calls, is_strict)?;
    for name in host.known.iter() {
        names.push(name)?;
    }
    Ok(names)
}

/// The nearest name of a module for that of an event.
#[tactic(auto, unfolding(crate::specs::names::Misnamed::nearest_module))]
fn nearest_module<'a>(
    alloc: Global,
    host: &'a Host<'a>,
    placed: &PlacedEvent<'_>,
) -> Result<Option<&'a [u8]>, AllocError>
    ensures { IfOk result (λ found. option_map (λ name. name.now) found ≡ nearest_module (host_view host.now) (placed_view placed.now)) }
{
    if placed.event.name.contains(&b'/') {
        return Ok(None);
    }
    let names = module_names(alloc, host, placed.is_strict)?;
    Ok(nearest(&names, without_so(placed.event.name)))
}

/// What is said of the name of an event that speaks of no module.
fn no_module(
    alloc: Global,
    host: &Host<'_>,
    placed: &PlacedEvent<'_>,
) -> Result<Misnamed, AllocError>
    ensures { IfOk result (λ misnamed. misnamed_view misnamed ≡ no_module (host_view host.now) (placed_view placed.now)) }
{
    let near = nearest_module(alloc, host, placed)?;
    let word = Word::of(alloc, placed.event.name, near)?;
    Ok(Misnamed::NoModule(word))
}

/// Says that an event speaks of no module, if that is so.
#[tactic(auto, unfolding(crate::specs::names::Misnamed::of_modules))]
fn say_of_event(
    alloc: Global,
    host: &Host<'_>,
    placed: &PlacedEvent<'_>,
    said: &mut Vec<Misnamed>,
) -> Result<(), AllocError>
    ensures { OnOk result (map misnamed_view said.new.items
        ≡ saying (map misnamed_view said.old.items) (of_modules (host_view host.now) (placed_view placed.now ∷ []))) }
{
    if !is_module(host, placed) {
        say(said, no_module(alloc, host, placed)?)?;
    }
    Ok(())
}

/// Says which events speak of no module.
pub(crate) fn say_of_modules(
    alloc: Global,
    host: &Host<'_>,
    events: &[PlacedEvent<'_>],
    said: &mut Vec<Misnamed>,
) -> Result<(), AllocError>
    ensures { OnOk result (map misnamed_view said.new.items
        ≡ saying (map misnamed_view said.old.items) (of_modules (host_view host.now) (map placed_view events.now))) }
{
    for placed in events {
        say_of_event(alloc, host, placed, said)?;
    }
    Ok(())
}

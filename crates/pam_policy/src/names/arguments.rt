//! P7: the arguments of modules that a host does not have.

ghost use Rattle.std.specs.Prelude.{◌≡◌, ◌∷◌, ◌++◌, [], IfOk, OnOk, map};
ghost use Rattle.std.specs.List.{list_any};
ghost use Rattle.std.specs.Option.{option_map};
ghost use Rattle.std.specs.Str.{bytes_eq};
ghost use Rattle.pam_policy.specs.names.Host.{call_view, host_view};
ghost use Rattle.pam_policy.specs.names.Misnamed.{keys_at, no_argument, of_arguments, of_tests};
ghost use Rattle.pam_policy.specs.names.Placed.{placed_view};
ghost use Rattle.pam_policy.specs.names.Words.{misnamed_view, saying};
ghost use Rattle.pam_policy.specs.text.Tests.{argument_key, test_view};

use crate::names::host::{Call, Host};
use crate::names::placed::PlacedEvent;
use crate::names::word::{Argument, Misnamed, say};
use crate::text::{Test, argument_key};
use pam_spelling::nearest;
use pam_text::Texts;
use std::alloc::{AllocError, Global};

/// Appends the keys of arguments.
fn push_keys<'a>(keys: &mut Vec<&'a [u8]>, arguments: &'a Texts) -> Result<(), AllocError>
    ensures { OnOk result (map (λ key. key.now) keys.new.items ≡ map (λ key. key.now) keys.old.items ++ map argument_key arguments.now) }
{
    for argument in arguments.iter() {
        keys.push(argument_key(argument))?;
    }
    Ok(())
}

/// Appends the keys of the arguments of a call, if an event speaks of its module.
fn push_keys_of<'a>(
    keys: &mut Vec<&'a [u8]>,
    call: &'a Call,
    placed: &PlacedEvent<'_>,
) -> Result<(), AllocError>
    ensures { OnOk result (map (λ key. key.now) keys.new.items
        ≡ map (λ key. key.now) keys.old.items ++ keys_at (call_view call.now ∷ []) (placed_view placed.now)) }
{
    if placed.speaks_of(&call.path) {
        push_keys(keys, &call.arguments)?;
    }
    Ok(())
}

/// The keys of the arguments that modules have of which an event speaks.
fn keys_at<'a>(
    alloc: Global,
    calls: &'a [Call],
    placed: &PlacedEvent<'_>,
) -> Result<Vec<&'a [u8]>, AllocError>
    ensures { IfOk result (λ keys. map (λ key. key.now) keys.items ≡ keys_at (map call_view calls.now) (placed_view placed.now)) }
{
    let mut keys = Vec::new(alloc);
    for call in calls {
        push_keys_of(&mut keys, call, placed)?;
    }
    Ok(keys)
}

/// Whether a key is one of these.
fn has_key(keys: &[&[u8]], key: &[u8]) -> bool
    ensures { result ≡ list_any (bytes_eq key.now) (map (λ other. other.now) keys.now) }
{
    for other in keys {
        if key == *other {
            return true;
        }
    }
    false
}

/// What is said of a key that is none of these, and near to one.
fn no_argument(
    alloc: Global,
    name: &[u8],
    keys: &[&[u8]],
    key: Vec<u8>,
) -> Result<Option<Misnamed>, AllocError>
    ensures { IfOk result (λ found. option_map misnamed_view found ≡ no_argument name.now (map (λ other. other.now) keys.now) key.items) }
{
    if has_key(keys, &key) {
        return Ok(None);
    }
    let Some(near) = nearest(keys, &key) else {
        return Ok(None);
    };
    Ok(Some(Misnamed::NoArgument(Argument {
        name: Vec::from_slice(alloc, name)?,
        key,
        nearest: Vec::from_slice(alloc, near)?,
    })))
}

/// Says that no argument has the key of a test, and one has a near key, if that is so.
fn say_of_test(
    alloc: Global,
    name: &[u8],
    keys: &[&[u8]],
    test: &Test<'_>,
    said: &mut Vec<Misnamed>,
) -> Result<(), AllocError>
    ensures { OnOk result (map misnamed_view said.new.items ≡ saying (map misnamed_view said.old.items)
        (of_tests name.now (map (λ key. key.now) keys.now) (test_view test.now ∷ []))) }
{
    let key = test.key(alloc)?;
    if let Some(misnamed) = no_argument(alloc, name, keys, key)? {
        say(said, misnamed)?;
    }
    Ok(())
}

/// The same of each of these tests.
fn say_of_tests(
    alloc: Global,
    name: &[u8],
    keys: &[&[u8]],
    tests: &[Test<'_>],
    said: &mut Vec<Misnamed>,
) -> Result<(), AllocError>
    ensures { OnOk result (map misnamed_view said.new.items ≡ saying (map misnamed_view said.old.items)
        (of_tests name.now (map (λ key. key.now) keys.now) (map test_view tests.now))) }
{
    for test in tests {
        say_of_test(alloc, name, keys, test, said)?;
    }
    Ok(())
}

/// The same of each test of an event.
#[tactic(auto, unfolding(crate::specs::names::Misnamed::of_arguments))]
fn say_of_event(
    alloc: Global,
    host: &Host<'_>,
    placed: &PlacedEvent<'_>,
    said: &mut Vec<Misnamed>,
) -> Result<(), AllocError>
    ensures { OnOk result (map misnamed_view said.new.items
        ≡ saying (map misnamed_view said.old.items) (of_arguments (host_view host.now) (placed_view placed.now ∷ []))) }
{
    let keys = keys_at(alloc, host.calls, placed)?;
    say_of_tests(alloc, placed.event.name, &keys, &placed.event.tests, said)
}

/// Says which tests have keys that no argument has, and near ones are there.
pub(crate) fn say_of_arguments(
    alloc: Global,
    host: &Host<'_>,
    events: &[PlacedEvent<'_>],
    said: &mut Vec<Misnamed>,
) -> Result<(), AllocError>
    ensures { OnOk result (map misnamed_view said.new.items
        ≡ saying (map misnamed_view said.old.items) (of_arguments (host_view host.now) (map placed_view events.now))) }
{
    for placed in events {
        say_of_event(alloc, host, placed, said)?;
    }
    Ok(())
}

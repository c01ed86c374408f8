//! The events of a stack.

ghost use Rattle.std.specs.Prelude.{◌≡◌, ◌++◌, ◌-◌, IfOk, None, OnOk, position};
ghost use Rattle.std.specs.List.{list_any, range_with_len};
ghost use Rattle.std.specs.Str.{bytes_eq};
ghost use Rattle.std.specs.Option.{option_map};
ghost use Rattle.pam_policy.specs.needs.Events.{events_at, events_of, has_argument, has_other, is_called, is_first, is_own, is_said, own_argument};

use crate::needs::event::{StackEvent, is_sayable_argument, name_at, said_name};
use pam_conf::Stack;
use pam_text::Texts;
use std::alloc::{AllocError, Global};

/// Whether rules speak of the module at a path by this name.
pub(crate) fn is_said(name: &[u8], path: &[u8]) -> bool
    ensures { result ≡ is_said name.now path.now }
{
    match said_name(path) {
        Some(said) => said == name,
        None => false,
    }
}

/// Whether an argument is this text.
fn has_text(text: &[u8], arguments: &Texts) -> bool
    ensures { result ≡ list_any (λ a. bytes_eq a text.now) arguments.now }
{
    arguments.iter().any(|argument| argument == text)
}

/// Whether arguments have this one, if one is asked for.
fn has_argument(argument: Option<&[u8]>, arguments: &Texts) -> bool
    ensures { result ≡ has_argument (option_map (λ a. a.now) argument.entry) arguments.now }
{
    match argument {
        Some(argument) => has_text(argument, arguments),
        None => true,
    }
}

/// Whether the module with this number has a name, and an argument, if one is asked for.
#[tactic(auto, unfolding(crate::specs::needs::Events::is_called))]
fn is_called(stack: &Stack, name: &[u8], argument: Option<&[u8]>, number: usize) -> bool
    ensures { result ≡ is_called stack.now name.now (option_map (λ a. a.now) argument.entry) number }
{
    match stack.module(number) {
        Some(module) => is_said(name, &module.path) && has_argument(argument, &module.arguments),
        None => false,
    }
}

/// Whether another module than this one does.
fn has_other(stack: &Stack, number: usize, name: &[u8], argument: Option<&[u8]>) -> bool
    ensures { result ≡ has_other stack.now number name.now (option_map (λ a. a.now) argument.entry) }
{
    (1..stack.modules() + 1).any(|other| !(other == number)
        && is_called(stack, name, argument, other))
}

/// Whether a module above this one has the name.
fn is_above(stack: &Stack, number: usize, name: &[u8]) -> bool
    ensures { result ≡ list_any (is_called stack.now name.now None) (range_with_len 1 (number - 1)) }
{
    (1..number).any(|other| is_called(stack, name, None, other))
}

/// Whether no module above this one has the name.
fn is_first(stack: &Stack, number: usize, name: &[u8]) -> bool
    ensures { result ≡ is_first stack.now number name.now }
{
    !is_above(stack, number, name)
}

/// Whether a policy can have an argument, and no other module of the name has it.
fn is_own(stack: &Stack, number: usize, name: &[u8], argument: &[u8]) -> bool
    ensures { result ≡ is_own stack.now number name.now argument.now }
{
    is_sayable_argument(argument) && !has_other(stack, number, name, Some(argument))
}

/// The position of the first such argument.
fn own_position(stack: &Stack, number: usize, name: &[u8], arguments: &Texts) -> Option<usize>
    ensures { result ≡ position (is_own stack.now number name.now) arguments.now }
{
    // So their number is known to be one.
    let _count = arguments.len();
    arguments
        .iter()
        .position(|argument| is_own(stack, number, name, argument))
}

/// The same of the module with this number, where several modules have the name.
#[tactic(auto, unfolding(crate::specs::needs::Events::own_argument))]
fn own_argument(stack: &Stack, number: usize, name: &[u8]) -> Option<usize>
    ensures { result ≡ own_argument stack.now number name.now }
{
    if !has_other(stack, number, name, None) {
        return None;
    }
    match stack.module(number) {
        Some(module) => own_position(stack, number, name, &module.arguments),
        None => None,
    }
}

/// Adds the events of the module with this number.
#[tactic(auto, unfolding(crate::specs::needs::Events::events_at))]
fn add_events(stack: &Stack, number: usize, events: &mut Vec<StackEvent>) -> Result<(), AllocError>
    ensures { OnOk result (events.new.items ≡ events.old.items ++ events_at stack.now number) }
{
    let Some(name) = name_at(stack, number) else {
        return Ok(());
    };
    if is_first(stack, number, name) {
        events.push(StackEvent {
            module: number,
            argument: None,
        })?;
    }
    if let Some(position) = own_argument(stack, number, name) {
        events.push(StackEvent {
            module: number,
            argument: Some(position),
        })?;
    }
    Ok(())
}

/// The events of a stack, in the order of its modules.
///
/// Takes time quadratic in the modules, and in the arguments of those that have one name.
pub(crate) fn events_of(alloc: Global, stack: &Stack) -> Result<Vec<StackEvent>, AllocError>
    ensures { IfOk result (λ events. events.items ≡ events_of stack.now) }
{
    let mut events = Vec::new(alloc);
    for index in 0..stack.modules() {
        add_events(stack, index + 1, &mut events)?;
    }
    Ok(events)
}

//! An event of a stack, as the position of the module and of the argument that it names.

ghost use Rattle.std.specs.Prelude.{◌≡◌, IfOk, map, slice_get};
ghost use Rattle.std.specs.List.{list_all};
ghost use Rattle.std.specs.Option.{option_map};
ghost use Rattle.pam_policy.specs.needs.Choices.{bare};
ghost use Rattle.pam_policy.specs.needs.Events.{event_argument, event_name, event_text, is_sayable, is_sayable_argument};
ghost use Rattle.pam_policy.specs.needs.Events.{is_argument_byte, is_pattern, is_sayable_byte, name_at, name_in_rules, said_name, tests_for};
ghost use Rattle.pam_policy.specs.text.Events.{event_view};
ghost use Rattle.pam_policy.specs.text.Tests.{test_view};
ghost use Rattle.pam_policy.specs.text.Words.{begins_comment};

use crate::text::{Codes, Event, Test, Wanted, is_name};
use pam_conf::Stack;
use pam_facts::module_name;
use pam_text::{Texts, is_text_blank};
use std::alloc::{AllocError, Global};

/// The name of a module of a stack, or that name with an argument of the module.
#[derive(Clone, Copy, Debug, PartialEq, Eq)]
pub struct StackEvent {
    /// The number of a module that has the name: of the first one, and with an argument, of the one that has it.
    pub module: usize,
    /// The position of the argument among those of the module.
    pub argument: Option<usize>,
}

fn is_sayable_byte(byte: u8) -> bool
    ensures { result ≡ is_sayable_byte byte }
{
    !(byte == b'[' || (byte == b']' || byte == b'=')) && !is_text_blank(byte)
}

fn are_sayable(bytes: &[u8]) -> bool
    ensures { result ≡ list_all is_sayable_byte bytes.now }
{
    bytes.iter().all(|byte| is_sayable_byte(*byte))
}

fn begins_comment(word: &[u8]) -> bool
    ensures { result ≡ begins_comment word.now }
{
    word.starts_with(b"#")
}

/// Whether a policy can have a name: it is one word, no comment and no keyword.
fn is_sayable(name: &[u8]) -> bool
    ensures { result ≡ is_sayable name.now }
{
    is_name(name) && (are_sayable(name) && !begins_comment(name))
}

fn is_argument_byte(byte: u8) -> bool
    ensures { result ≡ is_argument_byte byte }
{
    !(byte == b'[' || (byte == b']' || (byte == b'<' || (byte == b'>' || is_text_blank(byte)))))
}

fn are_argument_bytes(bytes: &[u8]) -> bool
    ensures { result ≡ list_all is_argument_byte bytes.now }
{
    bytes.iter().all(|byte| is_argument_byte(*byte))
}

/// Whether a text between brackets would be read as the absence of an argument, or as the beginning of some.
fn is_pattern(argument: &[u8]) -> bool
    ensures { result ≡ is_pattern argument.now }
{
    argument.starts_with(b"!") || argument.ends_with(b"=")
}

/// Whether a policy can have an argument, which has to be read as the argument that is this text.
#[tactic(auto, using(crate::proofs::TextProofs::ServiceSteps::bytes_there))]
pub(crate) fn is_sayable_argument(argument: &[u8]) -> bool
    ensures { result ≡ is_sayable_argument argument.now }
{
    !argument.is_empty() && (!is_pattern(argument) && are_argument_bytes(argument))
}

/// The name by which rules speak of the module at a path: that of a module of the system; at any other path that has a slash, the path.
fn name_in_rules(path: &[u8]) -> Option<&[u8]>
    ensures { option_map (λ name. name.now) result ≡ name_in_rules path.now }
{
    match module_name(path) {
        Some(name) => Some(name),
        None => if path.contains(&b'/') {
            Some(path)
        } else {
            None
        },
    }
}

/// The same, if a policy can have it.
#[tactic(auto, unfolding(crate::specs::needs::Events::said_name))]
pub(crate) fn said_name(path: &[u8]) -> Option<&[u8]>
    ensures { option_map (λ name. name.now) result ≡ said_name path.now }
{
    let name = name_in_rules(path)?;
    if is_sayable(name) { Some(name) } else { None }
}

/// The name of the module with this number.
pub(crate) fn name_at(stack: &Stack, number: usize) -> Option<&[u8]>
    ensures { option_map (λ name. name.now) result ≡ name_at stack.now number }
{
    match stack.module(number) {
        Some(module) => said_name(&module.path),
        None => None,
    }
}

/// The text at a position.
fn text_at(texts: &Texts, position: usize) -> Option<&[u8]>
    ensures { option_map (λ text. text.now) result ≡ slice_get texts.now position }
{
    let mut left = position;
    for text in texts.iter() {
        if left == 0 {
            return Some(text);
        }
        left -= 1;
    }
    None
}

/// The test of an argument, if there is one.
fn tests_for<'a>(alloc: Global, argument: Option<&'a [u8]>) -> Result<Vec<Test<'a>>, AllocError>
    ensures { IfOk result (λ tests. map test_view tests.items ≡ tests_for (option_map (λ a. a.now) argument.entry)) }
{
    let mut tests = Vec::new(alloc);
    if let Some(text) = argument {
        tests.push(Test {
            is_inverted: false,
            wanted: Wanted::Argument(text),
        })?;
    }
    Ok(tests)
}

impl StackEvent {
    /// The name in the rules of a policy; empty for a module that the stack does not have, or that rules cannot name.
    #[tactic(auto, unfolding(crate::specs::needs::Events::event_name))]
    pub fn name(self, stack: &Stack) -> &[u8]
        ensures { result.now ≡ event_name stack.now self }
    {
        match name_at(stack, self.module) {
            Some(name) => name,
            None => b"",
        }
    }

    /// The argument in the rules of a policy, which stands in brackets there.
    #[tactic(auto, unfolding(crate::specs::needs::Events::event_argument))]
    pub fn argument(self, stack: &Stack) -> Option<&[u8]>
        ensures { option_map (λ argument. argument.now) result ≡ event_argument stack.now self }
    {
        let module = stack.module(self.module)?;
        let position = self.argument?;
        text_at(&module.arguments, position)
    }

    /// The event of a sentence, which happens by these codes.
    pub(crate) fn event<'a>(
        self,
        alloc: Global,
        stack: &'a Stack,
        codes: Codes,
    ) -> Result<Event<'a>, AllocError>
        ensures { IfOk result (λ event. event_view event ≡ event_text stack.now codes self) }
    {
        let tests = tests_for(alloc, self.argument(stack))?;
        Ok(Event {
            name: self.name(stack),
            tests,
            codes,
        })
    }

    /// The name alone.
    pub(crate) fn bare(self) -> StackEvent
        ensures { result ≡ bare self }
    {
        StackEvent {
            module: self.module,
            argument: None,
        }
    }
}

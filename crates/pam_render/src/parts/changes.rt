//! What a comparison says of services, stacks and modules.

ghost use Rattle.std.specs.Prelude.{◌≡◌, option_map};
ghost use Rattle.pam_report.specs.Fault.{file_at};
ghost use Rattle.pam_report.specs.ReplyViews.{side_files};
ghost use Rattle.pam_render.specs.parts.Changes.{change_name, compared_count, configuration_name, file_of_rule, is_grave, is_stack, line_of_rule};
ghost use Rattle.pam_render.specs.parts.Changes.{occurrence, service_at};

use super::compared::Configuration;
use pam_changes::{ComparedService, ComparedStack, ShownChanges, StackChange};
use pam_conf::{ConfError, Files, Stack};
use pam_report::path_at;

/// Returns which of the modules with its path a module is, from 1.
pub fn occurrence(stack: &Stack, number: usize) -> usize
    ensures { result ≡ occurrence stack.now number }
{
    let path = path_at(stack, number);
    let mut count = 0;
    for index in 0..number {
        if path_at(stack, index + 1) == path {
            count += 1;
        }
    }
    count
}

/// Returns the name of a service by its position, empty if there is none.
pub fn service_at(services: &[ComparedService], position: usize) -> &[u8]
    ensures { result.now ≡ service_at services.now position }
{
    match services.get(position) {
        Some(service) => service.name.as_slice(),
        None => b"",
    }
}

/// Whether somebody is let in now, or no longer.
pub fn is_grave(changes: &ShownChanges) -> bool
    ensures { result ≡ is_grave changes.now }
{
    changes.admits.is_some() || changes.refuses.is_some()
}

/// Whether some configuration has the stack.
fn is_stack(change: &StackChange) -> bool
    ensures { result ≡ is_stack change.now }
{
    match change {
        StackChange::NoStack => false,
        _ => true,
    }
}

/// Returns the number of stacks that some configuration has.
pub fn compared_count(stacks: &[ComparedStack]) -> usize
    ensures { result ≡ compared_count stacks.now }
{
    stacks
        .iter()
        .filter(|stack| is_stack(&stack.change))
        .count()
}

/// Returns the name of the file of a fault, if it has one.
pub fn file_of<'a>(files: Option<&'a Files>, fault: &ConfError) -> Option<&'a [u8]>
    ensures { option_map (λ name. name.now) result ≡ file_at (side_files files.entry) fault.now.at }
{
    match (files, fault.at) {
        (Some(files), Some(position)) => files.name(position),
        _ => None,
    }
}

/// Returns the name of the file of a module's rule, if there is one.
pub fn file_of_rule<'a>(files: Option<&'a Files>, stack: &Stack, number: usize) -> Option<&'a [u8]>
    ensures { option_map (λ name. name.now) result ≡ file_of_rule (side_files files.entry) stack.now number }
{
    match (files, stack.module(number)) {
        (Some(files), Some(module)) => files.name(module.file),
        _ => None,
    }
}

/// Returns the line of a module's rule, 0 if there is no module.
pub fn line_of_rule(stack: &Stack, number: usize) -> usize
    ensures { result ≡ line_of_rule stack.now number }
{
    match stack.module(number) {
        Some(module) => module.line,
        None => 0,
    }
}

/// Returns what became of a module that a configuration alone has.
pub fn change_name(configuration: Configuration) -> &'static [u8]
    ensures { result.now ≡ change_name configuration }
{
    match configuration {
        Configuration::Old => b"removed",
        Configuration::New => b"added",
    }
}

/// Returns the name of a configuration.
pub fn configuration_name(configuration: Configuration) -> &'static [u8]
    ensures { result.now ≡ configuration_name configuration }
{
    match configuration {
        Configuration::Old => b"old",
        Configuration::New => b"new",
    }
}

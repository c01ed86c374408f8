//! The `show` command: the stacks of a service.

ghost use Rattle.std.specs.Prelude.{◌≡◌, false, map, option_map, unwrap_or};
ghost use Rattle.pam_conf.specs.Tells.{ErrorTells};
ghost use Rattle.pam_report.specs.Answer.{shown_by, shown_for};
ghost use Rattle.pam_report.specs.Finds.{Finds};
ghost use Rattle.pam_report.specs.Inputs.{no_files};
ghost use Rattle.pam_report.specs.Memory.{WantsOnly, of_stack};
ghost use Rattle.pam_report.specs.ReplyViews.{stack_view};
ghost use Rattle.pam_report.specs.Show.{for_each, stack_in};
ghost use Rattle.pam_text.specs.Gives.{Gives};

use super::released::read_as;
use super::replies::Reply;
use crate::fault::Fault;
use pam_conf::{ConfError, Files, Kind, Stack, resolve};
use pam_words::ReleaseName;
use std::alloc::Global;

/// All kinds, in the order in which they are shown.
const KINDS: [Kind; 4] = [Kind::Auth, Kind::Account, Kind::Password, Kind::Session];

/// The stack of a service.
#[derive(Drop)]
pub struct StackReply<'a> {
    pub service: &'a str,
    pub kind: Kind,
    /// The files in which its rules stand, if there are any.
    pub files: Option<&'a Files>,
    pub stack: Stack,
}

/// Returns the stack of a service, which is resolved in `files`. These are the ones that are `kept`, or none.
fn stack_in<'a>(
    alloc: Global,
    service: &'a str,
    kind: Kind,
    files: &Files,
    kept: Option<&'a Files>,
) -> Result<StackReply<'a>, ConfError>
    requires { unwrap_or (option_map (λ f. f.now) kept) no_files ≡ files.now }
    ensures { Gives ErrorTells stack_view result (stack_in service.now files.now kind) }
{
    let stack = resolve(alloc, files, service.as_bytes(), kind)?;
    Ok(StackReply {
        service,
        kind,
        files: kept,
        stack,
    })
}

/// Returns the stacks of a service for these kinds, in their order.
fn stacks_in<'a>(
    alloc: Global,
    service: &'a str,
    kinds: &[Kind],
    files: &Files,
    kept: Option<&'a Files>,
) -> Result<Vec<StackReply<'a>>, ConfError>
    requires { unwrap_or (option_map (λ f. f.now) kept) no_files ≡ files.now }
    ensures { Gives ErrorTells (λ stacks. map stack_view stacks.items) result (for_each (stack_in service.now files.now) kinds.now) }
{
    let mut stacks = Vec::new(alloc);
    for kind in kinds {
        stacks.push(stack_in(alloc, service, *kind, files, kept)?)?;
    }
    Ok(stacks)
}

/// Returns the reply with the stacks of a service for these kinds.
fn shown<'a>(
    alloc: Global,
    service: &'a str,
    kinds: &[Kind],
    files: &Files,
    kept: Option<&'a Files>,
) -> Result<Reply<'a>, Fault>
    requires { unwrap_or (option_map (λ f. f.now) kept) no_files ≡ files.now }
    ensures answer { Finds result (λ answer. shown_for None service.now kinds.now files.now ≡ answer) }
    ensures wants { WantsOnly (of_stack false) result }
{
    match stacks_in(alloc, service, kinds, files, kept) {
        Ok(stacks) => Ok(Reply::Stacks(stacks)),
        Err(error) => Err(Fault::Conf(error)),
    }
}

/// What is to be shown of a service: its stacks, or its own file as a release reads it.
#[derive(Clone, Copy)]
pub(super) struct ShowRequest<'a> {
    pub service: &'a str,
    /// All kinds are shown if none is named.
    pub kind: Option<Kind>,
    pub release: Option<ReleaseName>,
}

/// Returns what is to be shown for these kinds. `files` are the ones that are `kept`, or none.
fn shown_for<'a>(
    alloc: Global,
    asked: ShowRequest<'a>,
    kinds: &[Kind],
    files: &Files,
    kept: Option<&'a Files>,
) -> Result<Reply<'a>, Fault>
    requires { unwrap_or (option_map (λ f. f.now) kept) no_files ≡ files.now }
    ensures answer { Finds result (λ answer. shown_for asked.entry.release asked.entry.service.now kinds.now files.now ≡ answer) }
    ensures wants { WantsOnly (of_stack false) result }
{
    match asked.release {
        None => shown(alloc, asked.service, kinds, files, kept),
        Some(release) => read_as(alloc, asked.service, kinds, release, files),
    }
}

/// Returns what is to be shown. `files` are the ones that are `kept`, or none.
pub(super) fn shown_by<'a>(
    alloc: Global,
    asked: ShowRequest<'a>,
    files: &Files,
    kept: Option<&'a Files>,
) -> Result<Reply<'a>, Fault>
    requires { unwrap_or (option_map (λ f. f.now) kept) no_files ≡ files.now }
    ensures answer { Finds result (λ answer. shown_by asked.entry.release asked.entry.service.now asked.entry.kind files.now ≡ answer) }
    ensures wants { WantsOnly (of_stack false) result }
{
    match asked.kind {
        Some(kind) => shown_for(alloc, asked, &[kind], files, kept),
        None => shown_for(alloc, asked, &KINDS, files, kept),
    }
}

//! Resolves the stack of a service: pam.conf(5).
ghost use Rattle.std.specs.Prelude.{◌≡◌, ◌<◌, IfOk, IfSome, None, OnOk, Some, codes, length, map};
ghost use Rattle.std.specs.Char.{to_ascii_lowercase};
ghost use Rattle.std.specs.List.{list_any};
ghost use Rattle.std.specs.Option.{option_map};
ghost use Rattle.pam_conf.specs.inner.Progress.{IsTable};
ghost use Rattle.pam_conf.specs.Resolution.{carried, from_starts, resolved, stack_from, start_in};
ghost use Rattle.pam_conf.specs.inner.Kept.{kept_view};
ghost use Rattle.pam_conf.specs.Tells.{ErrorTells};
ghost use Rattle.pam_text.specs.Gives.{Gives};
ghost use Rattle.pam_conf.specs.inner.StartOf.{IsReadStart, start_text};
ghost use Rattle.pam_conf.specs.Walk.{carries, rules_at};
ghost use Rattle.pam_conf.specs.declared.rule.Form.TheVariants.{Dir, Single};

use crate::conf_error::ConfError;
use crate::error::FaultKind;
use crate::files::Files;
use crate::kept::{KeptRule, has_service};
use crate::lines::file_rules;
use crate::progress::Progress;
use crate::rule::{Form, Kind, lower};
use crate::stack::Stack;
use crate::trail::Trail;
use crate::walk::Walker;
use crate::wanted::Wanted;
use std::alloc::{AllocError, Global};

/// The name of the file of `Form::Single`.
pub(crate) const ONE_FILE: &[u8] = b"pam.conf";

/// The service whose rules apply to services without their own.
pub(crate) const OTHER: &[u8] = b"other";

/// The start of a service's rules: a file, and in pam.conf the service that they name.
#[derive(Drop)]
pub(crate) struct Start<'a> {
    pub file: usize,
    pub service: Option<&'a [u8]>,
    /// The rules of pam.conf that have been read, including the service's.
    read: Option<&'a [KeptRule]>,
}

/// The error if neither the service nor `other` has rules.
pub(crate) fn no_service() -> ConfError
    ensures { result ≡ record { kind = FaultKind.NoService; at = None; line = 0 } }
{
    ConfError {
        kind: FaultKind::NoService,
        at: None,
        line: 0,
    }
}

/// Copies `text` in lowercase.
pub(crate) fn lower_case(alloc: Global, text: &[u8]) -> Result<Vec<u8>, AllocError>
    ensures { IfOk result (λ lowered. lowered.items ≡ map to_ascii_lowercase text.now) }
{
    let mut lowered = text.to_vec(alloc)?;
    lower(&mut lowered);
    Ok(lowered)
}

/// The start of `service` in a folder: its file, if there is one.
pub(crate) fn folder_start(files: &Files, service: &[u8]) -> Option<Start<'static>>
    ensures start { option_map start_text result ≡ start_in Dir files.now (rules_at files.now) service.now }
    ensures within { IfSome result (λ s. s.file < length files.now.entries) }
    ensures read { IfSome result (λ s. s.read ≡ None) }
{
    let file = files.find(service)?;
    Some(Start {
        file,
        service: None,
        read: None,
    })
}

/// The start of `service` in pam.conf, if a rule names it.
pub(crate) fn carried_start<'a>(
    rules: &'a [KeptRule],
    file: usize,
    service: &'a [u8],
) -> Option<Start<'a>>
    ensures start { option_map start_text result ≡ carried (list_any (carries service.now) (map kept_view rules.now)) file service.now }
    ensures read { IfSome result (λ s. (s.file ≡ file) × (s.read ≡ Some rules.entry) × (s.service ≡ Some service.entry)) }
{
    for rule in rules {
        if has_service(rule, service) {
            return Some(Start {
                file,
                service: Some(service),
                read: Some(rules),
            });
        }
    }
    None
}

/// The stack of the walk from `start`.
fn stack_at<'a>(
    alloc: Global,
    files: &'a Files,
    kind: Kind,
    progress: &mut Progress,
    start: Start<'a>,
) -> Result<Stack, ConfError>
    requires table { IsTable files.now kind progress.old.table.items }
    requires within { start.file < length files.now.entries }
    requires read { IsReadStart files.now kind start }
    ensures table { OnOk result (IsTable files.now kind progress.new.table.items) }
    ensures stack { Gives ErrorTells (λ s. s) result (stack_from files.now kind (start_text start.entry)) }
{
    progress.modules = 0;
    progress.follows = 0;
    let walker = Walker {
        alloc,
        files,
        read: None,
        kind,
        service: start.service,
    };
    let mut items = Vec::new(alloc);
    let trail = Trail::of(start.file);
    walker.walk_start(progress, &trail, start.file, start.read, &mut items)?;
    Ok(Stack::of(items, progress.modules))
}

/// The stack from `own`, or from `other` if the service has no rules or an empty stack.
fn stack_of_starts(
    alloc: Global,
    files: &Files,
    kind: Kind,
    progress: &mut Progress,
    own: Option<Start>,
    other: Option<Start>,
) -> Result<Stack, ConfError>
    requires table { IsTable files.now kind progress.old.table.items }
    requires own { IfSome own (λ s. s.file < length files.now.entries) }
    requires other { IfSome other (λ s. s.file < length files.now.entries) }
    requires own_read { IfSome own (IsReadStart files.now kind) }
    requires other_read { IfSome other (IsReadStart files.now kind) }
    ensures { Gives ErrorTells (λ s. s) result (from_starts files.now kind (option_map start_text own.entry) (option_map start_text other.entry)) }
{
    let Some(own) = own else {
        let Some(other) = other else {
            return Err(no_service());
        };
        return stack_at(alloc, files, kind, progress, other);
    };
    let stack = stack_at(alloc, files, kind, progress, own)?;
    if !stack.items().is_empty() {
        return Ok(stack);
    }
    let Some(other) = other else {
        return Ok(stack);
    };
    stack_at(alloc, files, kind, progress, other)
}

/// The stack of a service in a folder.
fn folder_stack(
    alloc: Global,
    files: &Files,
    service: &[u8],
    kind: Kind,
) -> Result<Stack, ConfError>
    ensures { Gives ErrorTells (λ s. s) result (from_starts files.now kind (start_in Dir files.now (rules_at files.now) service.now)
        (start_in Dir files.now (rules_at files.now) (codes "other"))) }
{
    let mut progress = Progress::new(alloc, files, kind)?;
    let own = folder_start(files, service);
    let other = folder_start(files, OTHER);
    stack_of_starts(alloc, files, kind, &mut progress, own, other)
}

/// The stack of a service in pam.conf. A fault in any line of the file is an error.
fn one_file_stack(
    alloc: Global,
    files: &Files,
    service: &[u8],
    kind: Kind,
) -> Result<Stack, ConfError>
    ensures { Gives ErrorTells (λ s. s) result (from_starts files.now kind (start_in Single files.now (rules_at files.now) service.now)
        (start_in Single files.now (rules_at files.now) (codes "other"))) }
{
    let Some(file) = files.find(ONE_FILE) else {
        return Err(no_service());
    };
    let rules = file_rules(alloc, files, file, Wanted::OfServices(service, OTHER))?;
    let own = carried_start(rules.as_slice(), file, service);
    let other = carried_start(rules.as_slice(), file, OTHER);
    let mut progress = Progress::new(alloc, files, kind)?;
    stack_of_starts(alloc, files, kind, &mut progress, own, other)
}

/// Returns the stack of `service`, in lowercase, for `kind`: pam.conf(5). A service without rules, or with an empty
/// stack, gets the stack of `other`. Fails with the first fault of the walk over the files. If allocation fails, the
/// error has no file and line 0.
pub fn resolve(alloc: Global, files: &Files, service: &[u8], kind: Kind) -> Result<Stack, ConfError>
    ensures { Gives ErrorTells (λ s. s) result (resolved files.now service.now kind) }
{
    let service = lower_case(alloc, service)?;
    match files.form() {
        Form::Dir => folder_stack(alloc, files, service.as_slice(), kind),
        Form::Single => one_file_stack(alloc, files, service.as_slice(), kind),
    }
}

//! The line about a key of `--set` that names no module, or whose codes are none.

ghost use Rattle.std.specs.Prelude.{◌≡◌, IfOk, find, map, not};
ghost use Rattle.std.specs.Option.{option_map};
ghost use Rattle.pam_conf.specs.Resolution.{resolved};
ghost use Rattle.pam_facts.specs.settings.Settings.{setting_view};
ghost use Rattle.pam_report.specs.Compare.{side_of};
ghost use Rattle.pam_report.specs.ComparedKeys.{names_module_in};
ghost use Rattle.pam_report.specs.Fault.{line_of};
ghost use Rattle.pam_report.specs.FaultTable.{key_row as row_of_key};
ghost use Rattle.pam_report.specs.Inputs.{new_given, no_files, old_given};
ghost use Rattle.pam_report.specs.Keys as spec;
ghost use Rattle.pam_report.specs.Settings.{names_one as names_one_of};

use super::line;
use super::missing::files_of;
use super::naming::{Meant, named_text};
use super::table::key_row;
use crate::inputs::Inputs;
use crate::report::{names_module, names_one};
use pam_codes::Piece;
use pam_conf::{Files, Form, Kind, RuleFiles, Stack, resolve};
use pam_facts::settings::Setting;
use pam_words::{Request, Task};
use std::alloc::{AllocError, Global};

/// The first of these settings that sets no codes of a module of a stack.
fn first_of_stack<'x, 'a>(
    files: &Files,
    stack: &Stack,
    settings: &'x [Setting<'a>],
) -> Option<&'x Setting<'a>>
    ensures { option_map (λ s. setting_view s.now) result
        ≡ find (λ setting. not (names_one_of files.now stack.now setting)) (map setting_view settings.now) }
{
    for setting in settings {
        if !names_one(files, stack, setting) {
            return Some(setting);
        }
    }
    None
}

/// The same, of the stack of a service.
fn first_in_stack<'x, 'a>(
    alloc: Global,
    files: &Files,
    service: &str,
    kind: Kind,
    settings: &'x [Setting<'a>],
) -> Result<Option<&'x Setting<'a>>, AllocError>
    ensures { IfOk result (λ found. option_map (λ s. setting_view s.now) found
        ≡ spec.first_in_stack files.now (map setting_view settings.now) (resolved files.now service.now kind)) }
{
    match resolve(alloc, files, service.as_bytes(), kind) {
        Ok(stack) => Ok(first_of_stack(files, &stack, settings)),
        Err(_) => Err(AllocError),
    }
}

/// The first of these settings that sets no codes of a module of rules.
fn first_of_rules<'x, 'a>(
    alloc: Global,
    old: &RuleFiles<'_>,
    new: &RuleFiles<'_>,
    settings: &'x [Setting<'a>],
) -> Result<Option<&'x Setting<'a>>, AllocError>
    ensures { IfOk result (λ found. option_map (λ s. setting_view s.now) found
        ≡ find (λ setting. not (names_module_in old.now new.now setting)) (map setting_view settings.now)) }
{
    for setting in settings {
        if !names_module(alloc, old, new, setting)? {
            return Ok(Some(setting));
        }
    }
    Ok(None)
}

/// The same, of the rules of two configurations.
fn first_in_files<'x, 'a>(
    alloc: Global,
    old: &Files,
    new: &Files,
    settings: &'x [Setting<'a>],
) -> Result<Option<&'x Setting<'a>>, AllocError>
    ensures { IfOk result (λ found. option_map (λ s. setting_view s.now) found
        ≡ spec.first_in_files old.now new.now (map setting_view settings.now)) }
{
    let old_rules = RuleFiles::read(alloc, old)?;
    let new_rules = RuleFiles::read(alloc, new)?;
    first_of_rules(alloc, &old_rules, &new_rules, settings)
}

/// The same, of the two sides of a comparison.
fn first_in_sides<'x, 'a>(
    alloc: Global,
    inputs: &Inputs,
    settings: &'x [Setting<'a>],
) -> Result<Option<&'x Setting<'a>>, AllocError>
    ensures { IfOk result (λ found. option_map (λ s. setting_view s.now) found
        ≡ spec.first_in_files (side_of (old_given inputs.now)).folder (side_of (new_given inputs.now)).folder (map setting_view settings.now)) }
{
    let none = Files::new(alloc, Form::Dir);
    let old = files_of(inputs.old_side(), &none);
    let new = files_of(inputs.new_side(), &none);
    first_in_files(alloc, old, new, settings)
}

/// The setting of a request that is refused, where its command tells it.
fn wrong_setting<'x, 'a>(
    alloc: Global,
    request: &'x Request<'a>,
    files: &Files,
    inputs: &Inputs,
) -> Result<Option<&'x Setting<'a>>, AllocError>
    ensures { IfOk result (λ found. option_map (λ s. setting_view s.now) found
        ≡ spec.wrong_setting request.now.service.now request.now.task files.now inputs.now) }
{
    match &request.task {
        Task::Outcomes {
            kind,
            knowledge,
            ..
        }
        | Task::Graph {
            kind,
            knowledge,
            ..
        } => first_in_stack(alloc, files, request.service, *kind, &knowledge.settings),
        Task::Needs { knowledge, .. } | Task::Policy { knowledge, .. } => {
            first_in_files(alloc, files, files, &knowledge.settings)
        }
        Task::Compare { given, .. } => first_in_sides(alloc, inputs, &given.settings),
        _ => Ok(None),
    }
}

/// What is wrong with a setting.
fn meant_of(setting: &Setting<'_>) -> Meant
    ensures { result ≡ spec.meant_of (setting_view setting.now) }
{
    if setting.codes.len() == 0 {
        Meant::NoCode
    } else {
        Meant::Key
    }
}

/// What is said of a setting.
fn setting_said(alloc: Global, setting: &Setting<'_>) -> Result<Vec<u8>, AllocError>
    ensures { IfOk result (λ text. text.items ≡ spec.setting_said (setting_view setting.now)) }
{
    named_text(alloc, meant_of(setting), None, setting.key.as_bytes())
}

/// The line about the key of a request that is refused.
pub(super) fn key_line(
    alloc: Global,
    request: &Request<'_>,
    files: &Files,
    inputs: &Inputs,
) -> Result<Vec<u8>, AllocError>
    ensures { IfOk result (λ text. text.items ≡ line_of row_of_key
        (spec.key_said (spec.wrong_setting request.now.service.now request.now.task files.now inputs.now))) }
{
    match wrong_setting(alloc, request, files, inputs)? {
        Some(setting) => {
            let said = setting_said(alloc, setting)?;
            line(alloc, key_row(), &[Piece::Bytes(&said)])
        }
        None => line(alloc, key_row(), &[]),
    }
}

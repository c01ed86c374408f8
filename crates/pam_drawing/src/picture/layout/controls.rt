//! The controls over the columns.

ghost use Rattle.std.specs.Prelude.{◌≡◌, ◌<◌, ◌≤◌, IfOk, map};
ghost use Rattle.std.specs.List.{range_with_len};
ghost use Rattle.pam_codes.specs.ControlText.{control_text};
ghost use Rattle.pam_conf.specs.Stack.{module_count};
ghost use Rattle.pam_conf.specs.declared.stack.TheConstants.{MAX_MODULES};
ghost use Rattle.pam_drawing.specs.picture.Layouts.{written_control};
ghost use Rattle.pam_drawing.specs.picture.Places.{bytes_of};

use crate::picture::heading::is_asked;
use pam_codes::{Control, Out};
use pam_conf::Stack;
use pam_graph::Node;
use std::alloc::{AllocError, Global};

/// The height of a row over a column.
pub(super) const ROW_OF_HEADING: usize = 15;

/// Returns a control as it is written.
fn control_bytes(alloc: Global, control: Control) -> Result<Vec<u8>, AllocError>
    ensures { IfOk result (λ v. v.items ≡ control_text control) }
{
    let mut out = Out::new(Vec::new(alloc));
    match control.write_text(&mut out) {
        Ok(()) => Ok(out.into_inner()),
        Err(_) => Err(AllocError),
    }
}

/// Returns the control of the module after this many modules, as it is written.
fn written_control(alloc: Global, stack: &Stack, index: usize) -> Result<Vec<u8>, AllocError>
    requires { index < MAX_MODULES }
    ensures { IfOk result (λ v. v.items ≡ written_control stack.now index) }
{
    match stack.module(index + 1) {
        Some(module) => control_bytes(alloc, module.control),
        None => Ok(Vec::new(alloc)),
    }
}

fn first_controls(alloc: Global, stack: &Stack, count: usize) -> Result<Vec<Vec<u8>>, AllocError>
    requires { count ≤ MAX_MODULES }
    ensures { IfOk result (λ v. map bytes_of v.items ≡ map (written_control stack.now) (range_with_len 0 count)) }
{
    let mut controls = Vec::new(alloc);
    for index in 0..count {
        controls.push(written_control(alloc, stack, index)?)?;
    }
    Ok(controls)
}

/// Returns the controls of all modules.
pub(super) fn controls_of(alloc: Global, stack: &Stack) -> Result<Vec<Vec<u8>>, AllocError>
    ensures { IfOk result (λ v. map bytes_of v.items ≡ map (written_control stack.now) (range_with_len 0 (module_count stack.now))) }
{
    first_controls(alloc, stack, stack.modules())
}

/// Returns how many rows a control takes: one for each of its pairs.
fn rows_of(control: &[u8]) -> usize {
    let mut rows: usize = 1;
    for byte in control {
        if *byte == b' ' {
            rows = rows.saturating_add(1);
        }
    }
    rows
}

/// Returns the most rows that a column has below its name.
pub(super) fn most_rows(controls: &[Vec<u8>], nodes: &[Node]) -> usize {
    let mut most = 1;
    for (index, control) in controls.iter().enumerate() {
        let told = usize::from(!is_asked(nodes, index.saturating_add(1)));
        most = rows_of(control).saturating_add(told).max(most);
    }
    most
}

/// Returns the number of characters of the longest pair of a control.
pub(super) fn longest_row(control: &[u8]) -> usize {
    let mut longest = 0;
    let mut characters: usize = 0;
    for byte in control {
        characters = characters.saturating_add(1);
        if *byte == b' ' {
            characters = 0;
        }
        longest = characters.max(longest);
    }
    longest
}

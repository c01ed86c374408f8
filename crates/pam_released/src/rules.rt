//! What the words of a rule have that released Linux-PAM reads otherwise.

ghost use Rattle.std.specs.Prelude.{◌≡◌, ◌++◌, [], IfOk, MatchOption, OnOk, map};
ghost use Rattle.pam_conf.specs.Remaining.{words_to_come};
ghost use Rattle.pam_released.specs.Findings.{from_control, located, rule_differences};

use crate::difference::Difference;
use crate::finding::{Finding, push_those};
use crate::rows::{has_capital, has_empty_name};
use pam_codes::is_name;
use pam_conf::{Form, Words, text_of};
use pam_text::Line;
use std::alloc::{AllocError, Global};

/// Appends the differences of the rule of a line, if it has one.
#[tactic(auto, unfolding(crate::specs::Findings::rule_differences))]
pub(crate) fn push_rule_differences(
    alloc: Global,
    form: Form,
    line: Line<'_>,
    found: &mut Vec<Finding>,
) -> Result<(), AllocError>
    ensures { OnOk result (found.new.items ≡ found.old.items
        ++ map (located line.entry.number) (rule_differences form line.entry.bytes.now)) }
{
    let Ok(words) = Words::of(line.bytes) else {
        return Ok(());
    };
    let mut inside = Vec::new(alloc);
    let Some(words) = from_control(form, words, &mut inside)? else {
        return Ok(());
    };
    let tests = [
        (has_capital(words), Difference::CapitalInBrackets),
        (
            has_empty_name(words, &mut inside)?,
            Difference::EmptyModuleName,
        ),
    ];
    push_those(found, line.number, &tests)
}

/// The words from the control on; `None` for an `@include`, and where there are none.
#[tactic(auto, unfolding(crate::specs::Findings::from_control))]
fn from_control<'a>(
    form: Form,
    words: Words<'a>,
    inside: &mut Vec<u8>,
) -> Result<Option<Words<'a>>, AllocError>
    ensures { IfOk result (λ found. MatchOption found (from_control form (words_to_come words.entry) ≡ [])
        (λ rest. from_control form (words_to_come words.entry) ≡ words_to_come rest)) }
{
    let Some((first, after)) = words.split_first() else {
        return Ok(None);
    };
    if is_name(b"@include", text_of(first, inside)?) {
        return Ok(None);
    }
    match form {
        Form::Dir => Ok(Some(after)),
        Form::Single => match after.split_first() {
            Some((_, words)) => Ok(Some(words)),
            None => Ok(None),
        },
    }
}

//! The `explain` command: what a fault or a finding means.

ghost use Rattle.std.specs.Prelude.{◌≡◌};
ghost use Rattle.std.specs.Option.{option_copied};
ghost use Rattle.pam_report.specs.Answer.{explained};
ghost use Rattle.pam_report.specs.Finds.{Finds};
ghost use Rattle.pam_report.specs.Memory.{WantsOnly, of_nothing};

use super::replies::Reply;
use crate::fault::Fault;
use pam_explain::explain;

/// Returns the explanation of a number, or all if none is given.
pub(super) fn explained<'a>(number: Option<&str>) -> Result<Reply<'a>, Fault>
    ensures answer { Finds result (λ answer. explained (option_copied number.entry) ≡ answer) }
    ensures wants { WantsOnly of_nothing result }
{
    let Some(number) = number else {
        return Ok(Reply::Explanations);
    };
    match explain(number) {
        Some(explanation) => Ok(Reply::Explained(explanation)),
        None => Err(Fault::NoSuchNumber),
    }
}

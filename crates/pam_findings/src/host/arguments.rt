//! The arguments of a rule that its module does not take as they are written.

ghost use Rattle.std.specs.Prelude.{◌≡◌, OnOk, Some};
ghost use Rattle.std.specs.Option.{option_map};
ghost use Rattle.pam_facts.specs.arguments.Views.{module_view, verdict_view};
ghost use Rattle.pam_conf.specs.ItemsOf.{module_text};
ghost use Rattle.pam_facts.specs.arguments.Calls.{known_of, lack_in};
ghost use Rattle.pam_findings.specs.host.Arguments.{wrong_by};
ghost use Rattle.pam_findings.specs.host.inner.WrongArguments.{OfArguments, OfKnown, OfLack, OfWrong};
ghost use Rattle.pam_findings.specs.host.inner.Table.{Adds};

use crate::host::missing_files::push_missing;
use crate::host::modules::spot_of;
use crate::host::problem::{ArgumentProblem, Problem, Spot};
use pam_conf::{Kind, Module, NameList};
use pam_facts::Facts;
use pam_facts::arguments::{Lack, Module as Known, Verdict, known_of, lack_in};
use std::alloc::AllocError;

/// What is wrong with an argument of which its module makes this.
fn wrong_by(verdict: Verdict<'_>) -> Option<ArgumentProblem>
    ensures { result ≡ wrong_by (verdict_view verdict.entry) }
{
    match verdict {
        Verdict::Known | Verdict::Free => None,
        Verdict::Unknown(reaction) => Some(ArgumentProblem::Unknown(reaction)),
        Verdict::Longer(_) => Some(ArgumentProblem::Longer),
        Verdict::OtherKind => Some(ArgumentProblem::OtherKind),
        Verdict::BadValue(_) => Some(ArgumentProblem::BadValue),
        Verdict::Weak => Some(ArgumentProblem::Weak),
    }
}

/// Appends what is wrong with the argument at a position, if something is.
pub(crate) fn push_argument(
    spots: &mut Vec<Spot>,
    module: &Module,
    argument: usize,
    wrong: Option<ArgumentProblem>,
) -> Result<(), AllocError>
    ensures { OnOk result (Adds (OfWrong (module_text «module».now) argument wrong) spots.old.items spots.new.items) }
{
    if let Some(wrong) = wrong {
        let problem = Problem::Argument { argument, wrong };
        spots.push(spot_of(module, problem))?;
    }
    Ok(())
}

/// Appends the wrong arguments of a rule of a module of which this is known.
fn push_known(
    spots: &mut Vec<Spot>,
    facts: &Facts<'_>,
    known: &Known<'_>,
    kind: Kind,
    module: &Module,
) -> Result<(), AllocError>
    ensures { OnOk result (Adds (OfKnown facts.now (Some (module_view known.now)) kind (module_text «module».now)) spots.old.items spots.new.items) }
{
    // The number says that positions stay in their type.
    let _count = module.arguments.len();
    for (position, word) in module.arguments.iter().enumerate() {
        let wrong = wrong_by(facts.judge(known, kind, module, word));
        push_argument(spots, module, position, wrong)?;
    }
    Ok(())
}

/// Appends the wrong arguments of a rule: S15 to S18, and S23.
fn push_wrong(
    spots: &mut Vec<Spot>,
    facts: &Facts<'_>,
    kind: Kind,
    module: &Module,
) -> Result<(), AllocError>
    ensures { OnOk result (Adds (OfKnown facts.now (known_of (module_text «module».now)) kind (module_text «module».now)) spots.old.items spots.new.items) }
{
    match known_of(facts.arguments(), module) {
        Some(known) => push_known(spots, facts, &known, kind, module),
        None => Ok(()),
    }
}

/// Appends what the arguments of a rule lack, if they lack something: S19.
fn push_lack(spots: &mut Vec<Spot>, module: &Module, lack: Option<Lack>) -> Result<(), AllocError>
    ensures { OnOk result (Adds (OfLack lack (module_text «module».now)) spots.old.items spots.new.items) }
{
    if let Some(lack) = lack {
        spots.push(spot_of(module, Problem::BadArguments(lack)))?;
    }
    Ok(())
}

/// Appends what is wrong with the arguments of a rule: S15 to S19, S23 and S24.
pub(crate) fn push_arguments(
    spots: &mut Vec<Spot>,
    facts: &Facts<'_>,
    files: Option<&NameList>,
    kind: Kind,
    module: &Module,
) -> Result<(), AllocError>
    ensures { OnOk result (Adds (OfArguments facts.now (option_map (λ t. t.now) files.entry) kind (module_text «module».now))
        spots.old.items spots.new.items) }
{
    push_wrong(spots, facts, kind, module)?;
    push_lack(spots, module, lack_in(kind, module))?;
    push_missing(spots, files, kind, module)?;
    Ok(())
}
